use crate::bench::{A, C, EMPTIED, File, SHORT, has_only, make_store, store_words, takes_up_to};
use image_check::refusal::Refusal;
use layers::cache::Cache;
use media::byte_image::ByteImage;
use media::lagging::LaggingMemory;
use memory::cut_point::CutPoint;
use memory::memory::Memory;
use std::alloc::Global;
use std::process::Abort;
use std::test::Fail;
use store::change::Change;
use store::recover::recover;

// Eight blocks with two files, `A` of twelve bytes and `B` of three. Slot 2 is empty, and its root word is that of `B`.
const IMAGE: [(u64, u64); 13] = [
    (0, 8),
    (8, 0),
    (64, 0x41),
    (65, 0x0000_000c_0000_0003),
    (66, 0x42),
    (67, 0x0000_0003_0000_0005),
    (68, 0),
    (69, 0x0000_0003_0000_0005),
    (96, 4),
    (128, 0x5720_2c4f_4c4c_4548),
    (129, 0x444c_524f),
    (160, 6),
    (192, 0x21_4948),
];

const LONG: File = File {
    name: A,
    bytes: b"HELLO, WORLD",
};

// `A` under another name, and `A` cut to five bytes.
const RENAMED: File = File { name: C, ..LONG };

const CUT: File = File {
    name: A,
    bytes: b"HELLO",
};

// The new file.
const CREATED: File = File { name: C, ..EMPTIED };

// The files before each call.
const BEFORE: [File; 2] = [LONG, SHORT];

// A change and the files after it.
#[derive(Clone, Copy)]
struct Case {
    change: Change,
    after: &'static [File],
}

const CREATE: Case = Case {
    change: Change::Create(C),
    after: &[LONG, SHORT, CREATED],
};

const RENAME: Case = Case {
    change: Change::Rename { name: A, new: C },
    after: &[RENAMED, SHORT],
};

const REMOVE: Case = Case {
    change: Change::Remove(A),
    after: &[SHORT],
};

const SHORTEN: Case = Case {
    change: Change::Shorten { name: A, length: 5 },
    after: &[CUT, SHORT],
};

const EMPTY: Case = Case {
    change: Change::Shorten { name: A, length: 0 },
    after: &[EMPTIED, SHORT],
};

// More loads, stores and barriers than a call takes.
const MANY: u64 = 50;

// Cuts a call off after so many operations, recovers and looks at the files; answers whether the call was done.
fn is_done_before_cut<M: CutPoint>(
    rt: &impl Abort,
    memory: &mut M,
    case: Case,
    given: u8,
    cut: u64,
) -> Result<bool, Fail> {
    store_words(memory, &IMAGE)?;
    memory.barrier()?;
    memory.cut_after(Some(cut));
    let answer = case.change.apply(memory);
    assert!(rt; answer == Ok(()) || answer == Err(Refusal::PowerLost));
    assert!(rt; memory.restart());
    assert_eq!(rt; recover(memory), Ok(false));
    let done = answer == Ok(());
    let before = !done && has_only(memory, &BEFORE)?;
    assert!(rt;
        before || has_only(memory, case.after)?,
        "given {given}, cut after {cut}"
    );
    Ok(done)
}

// Cuts a call off at every operation, on a memory with the given byte: with none taken nothing is done, and with enough of them all is.
fn is_whole_after_any_cut<M: CutPoint>(
    rt: &impl Abort,
    memory: &mut M,
    case: Case,
    given: u8,
) -> Result<(), Fail> {
    make_store(rt, memory);
    assert_eq!(rt; recover(memory), Ok(false));
    let ends = takes_up_to(MANY, |cut| {
        let done = is_done_before_cut(rt, memory, case, given, cut)?;
        assert!(rt; cut > 0 || has_only(memory, &BEFORE)?, "given {given}");
        Ok(done)
    })?;
    assert!(rt; ends, "given {given}");
    Ok(())
}

// Does that for every choice of the words that keep their newest value at a restart.
fn is_whole_where_stores_lag(rt: &impl Abort, heap: Global, case: Case) -> Result<(), Fail> {
    for given in 0..=255u8 {
        let mut memory = Cache::new(LaggingMemory::new(heap, 256, given)?);
        is_whole_after_any_cut(rt, &mut memory, case, given)?;
    }
    Ok(())
}

#[test]
fn a_create_that_is_cut_off_is_done_or_not(rt: HostRuntime) -> Result<(), Fail> {
    is_whole_where_stores_lag(&rt, rt.alloc(), CREATE)
}

#[test]
fn a_rename_that_is_cut_off_is_done_or_not(rt: HostRuntime) -> Result<(), Fail> {
    is_whole_where_stores_lag(&rt, rt.alloc(), RENAME)
}

#[test]
fn a_remove_that_is_cut_off_is_done_or_not(rt: HostRuntime) -> Result<(), Fail> {
    is_whole_where_stores_lag(&rt, rt.alloc(), REMOVE)
}

#[test]
fn a_shorten_that_is_cut_off_is_done_or_not(rt: HostRuntime) -> Result<(), Fail> {
    is_whole_where_stores_lag(&rt, rt.alloc(), SHORTEN)
}

#[test]
fn a_shorten_to_nothing_that_is_cut_off_is_done_or_not(rt: HostRuntime) -> Result<(), Fail> {
    is_whole_where_stores_lag(&rt, rt.alloc(), EMPTY)
}

#[test]
fn each_call_is_whole_in_bytes(rt: HostRuntime) -> Result<(), Fail> {
    let mut bytes = [0xa5; 2048];
    let mut memory = ByteImage::new(&mut bytes);
    for case in [CREATE, RENAME, REMOVE, SHORTEN, EMPTY] {
        is_whole_after_any_cut(&rt, &mut memory, case, u8::MAX)?;
    }
    Ok(())
}
