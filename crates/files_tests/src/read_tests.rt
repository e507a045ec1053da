use crate::bench::{A, B, C, image_in, store_words, takes_up_to};
use crate::pattern::{OLD, check_bytes, check_given, check_read, fill};
use image_check::refusal::{Refusal, Rule};
use layout::name::Name;
use memory::cut_point::CutPoint;
use memory::memory::Memory;
use std::ops::Range;
use std::process::Abort;
use std::test::Fail;
use store::read::read;

// An offset, the size of a buffer, and how many bytes a file of 300 gives.
const GIVEN: [(u32, usize, usize); 20] = [
    (0, 0, 0),
    (0, 1, 1),
    (0, 256, 256),
    (0, 257, 257),
    (0, 299, 299),
    (0, 300, 300),
    (0, 301, 300),
    (0, 320, 300),
    (255, 1, 1),
    (255, 2, 2),
    (256, 1, 1),
    (256, 64, 44),
    (299, 1, 1),
    (299, 2, 1),
    (300, 0, 0),
    (300, 320, 0),
    (301, 8, 0),
    (512, 320, 0),
    (8192, 1, 0),
    (u32::MAX, 320, 0),
];

#[test]
fn a_read_gives_what_the_file_has(rt: HostRuntime) -> Result<(), Fail> {
    let mut bytes = [0; 1536];
    let mut memory = image_in(&rt, &mut bytes);
    fill(&mut memory)?;
    for (offset, size, given) in GIVEN {
        check_given(&rt, &mut memory, offset, size, given);
    }
    Ok(())
}

// Reads at each of these offsets into buffers of some sizes.
fn reads_from<M: Memory>(rt: &impl Abort, memory: &mut M, offsets: Range<u32>) {
    for offset in offsets {
        for size in [0, 1, 2, 7, 8, 9, 16, 33, 64, 320] {
            check_read(rt, memory, 300, offset, size);
        }
    }
}

#[test]
fn bytes_are_read_across_the_edge_of_blocks_and_at_the_end(rt: HostRuntime) -> Result<(), Fail> {
    let mut bytes = [0; 1536];
    let mut memory = image_in(&rt, &mut bytes);
    fill(&mut memory)?;
    let before = bytes;
    let mut memory = image_in(&rt, &mut bytes);
    reads_from(&rt, &mut memory, 0..10);
    reads_from(&rt, &mut memory, 238..275);
    reads_from(&rt, &mut memory, 282..318);
    reads_from(&rt, &mut memory, 508..516);
    assert_eq!(rt; bytes, before);
    Ok(())
}

#[test]
fn an_empty_file_gives_nothing(rt: HostRuntime) -> Result<(), Fail> {
    let mut bytes = [0; 1536];
    let mut memory = image_in(&rt, &mut bytes);
    fill(&mut memory)?;
    for offset in [0, 1, 255, 256, 300, u32::MAX] {
        let mut buffer = [OLD; 24];
        assert_eq!(rt; read(&mut memory, A, offset, &mut buffer), Ok(0));
        assert_eq!(rt; buffer, [0; 24]);
    }
    Ok(())
}

// A read that is refused: the words that differ from the image, whether there is power, and the name.
#[derive(Clone, Copy)]
struct Refused {
    changes: &'static [(u64, u64)],
    up: bool,
    name: Name,
    refusal: Refusal,
}

const REFUSED: [Refused; 6] = [
    Refused {
        changes: &[],
        up: true,
        name: *b"b\0\0\0\0\0\0\0",
        refusal: Refusal::BadName,
    },
    Refused {
        changes: &[],
        up: true,
        name: C,
        refusal: Refusal::NoFile,
    },
    Refused {
        changes: &[],
        up: false,
        name: B,
        refusal: Refusal::PowerLost,
    },
    Refused {
        changes: &[(8, 1), (9, 5)],
        up: true,
        name: B,
        refusal: Refusal::BadImage(Rule::LogEntry),
    },
    Refused {
        changes: &[(97, 5)],
        up: true,
        name: B,
        refusal: Refusal::BadImage(Rule::Blocks),
    },
    Refused {
        changes: &[(97, 6)],
        up: true,
        name: A,
        refusal: Refusal::BadImage(Rule::Maps),
    },
];

// Checks that a read is refused in these bytes, and that its buffer is zero then.
fn refuses(rt: &impl Abort, bytes: &mut [u8], case: Refused) -> Result<(), Fail> {
    let mut memory = image_in(rt, bytes);
    fill(&mut memory)?;
    store_words(&mut memory, case.changes)?;
    if !case.up {
        memory.cut_after(Some(0));
    }
    let mut buffer = [OLD; 24];
    assert_eq!(rt;
        read(&mut memory, case.name, 250, &mut buffer),
        Err(case.refusal)
    );
    assert_eq!(rt; buffer, [0; 24]);
    assert_eq!(rt;
        read(&mut memory, case.name, 0, &mut buffer[..0]),
        Err(case.refusal)
    );
    Ok(())
}

#[test]
fn a_refused_read_leaves_zeros(rt: HostRuntime) -> Result<(), Fail> {
    for case in REFUSED {
        let mut bytes = [0; 1536];
        refuses(&rt, &mut bytes, case)?;
    }
    let mut bytes = [0; 1544];
    let case = Refused {
        changes: &[],
        up: true,
        name: B,
        refusal: Refusal::WrongSize,
    };
    refuses(&rt, &mut bytes, case)
}

// More loads than a read of forty bytes takes.
const MANY: u64 = 150;

// Cuts a read off after so many loads, and answers whether it came to its end.
fn ends_before_cut<M: CutPoint>(rt: &impl Abort, memory: &mut M, cut: u64) -> bool {
    assert!(rt; memory.restart());
    memory.cut_after(Some(cut));
    let mut buffer = [OLD; 40];
    let answer = read(memory, B, 240, &mut buffer);
    if answer == Ok(40) {
        check_bytes(rt, &buffer, 240, 40);
        return true;
    }
    assert_eq!(rt; answer, Err(Refusal::PowerLost));
    assert_eq!(rt; buffer, [0; 40]);
    false
}

#[test]
fn a_read_that_is_cut_off_leaves_zeros(rt: HostRuntime) -> Result<(), Fail> {
    let mut bytes = [0; 1536];
    let mut memory = image_in(&rt, &mut bytes);
    fill(&mut memory)?;
    let ends = takes_up_to(MANY, |cut| {
        let done = ends_before_cut(&rt, &mut memory, cut);
        // the bytes alone take a load each
        assert!(rt; !done || cut >= 40);
        Ok(done)
    })?;
    assert!(rt; ends);
    Ok(())
}
