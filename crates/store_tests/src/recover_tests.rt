ghost use Rattle.std.specs.Prelude.{◌<◌};

use crate::bench::{image_in, store_words, takes_up_to};
use image_check::refusal::{Refusal, Rule};
use layers::cache::Cache;
use media::byte_image::ByteImage;
use media::lagging::LaggingMemory;
use memory::cut_point::CutPoint;
use memory::fault::Fault;
use memory::memory::Memory;
use std::process::Abort;
use std::test::Fail;
use store::recover::recover;

// A word of the image that is not set below holds its own place and these high bits.
const REST: u64 = 0x7e57_0000_0000_0000;

// The file's root word: its map is block 3, and it has 300 bytes.
const ROOT: u64 = 0x0000_012c_0000_0003;

// Six blocks with one file, `A`, in slot 5: its bytes are in blocks 5 and 4.
const IMAGE: [(u64, u64); 5] = [(0, 6), (74, 0x41), (75, ROOT), (96, 5), (97, 4)];

// The last three words of block 5, and the first two of block 4.
const START: u64 = 0x031d_0005;

const END: u64 = 0x0200_0004;

// So many words from `to` on get what the words from `from` on held.
#[derive(Clone, Copy)]
struct Run {
    to: u8,
    from: u8,
    count: u8,
}

// What is put back of `START` and of `END`.
const START_RUN: Run = Run {
    to: 189,
    from: 32,
    count: 3,
};

const END_RUN: Run = Run {
    to: 128,
    from: 48,
    count: 2,
};

const BOTH: &[Run] = &[START_RUN, END_RUN];

// Words 8 to 12 before recovery, what it puts back, and what it answers.
#[derive(Clone, Copy)]
struct Case {
    name: &'static str,
    entry: [u64; 5],
    put: &'static [Run],
    answer: bool,
}

const CASES: [Case; 4] = [
    Case {
        name: "commit",
        entry: [1, 5, ROOT, START, END],
        put: BOTH,
        answer: true,
    },
    Case {
        name: "checkpoint, no follow mark",
        entry: [2, 5, ROOT, START, END],
        put: &[],
        answer: false,
    },
    Case {
        name: "checkpoint, follow mark, the root word is the old one",
        entry: [2, 0x105, ROOT, START, END],
        put: BOTH,
        answer: true,
    },
    Case {
        name: "checkpoint, follow mark, the old root word has another length",
        entry: [2, 0x105, 0x0000_012b_0000_0003, START, END],
        put: &[],
        answer: false,
    },
];

// Makes the image with the entry of a case in a memory that is up.
fn fill<M: Memory>(memory: &mut M, case: Case) -> Result<(), Fault> {
    for at in 0..memory.count() {
        memory.store(at, REST | at)?;
    }
    for slot in 0..16 {
        memory.store(64 + 2 * slot, 0)?;
    }
    store_words(memory, &IMAGE)?;
    for (at, value) in (8..13).zip(case.entry) {
        memory.store(at, value)?;
    }
    memory.barrier()
}

// The place so many words on.
fn later(place: u8, by: u8) -> u64 {
    u64::from(place) + u64::from(by)
}

// Checks that each word is what recovery is to leave in a case.
fn check_words<M: Memory>(rt: &impl Abort, memory: &mut M, case: Case) -> Result<(), Fail> {
    let mut bytes = [0; 1536];
    let mut expected = image_in(rt, &mut bytes);
    fill(&mut expected, case)?;
    for run in case.put {
        for j in 0..run.count {
            expected.store(later(run.to, j), REST | later(run.from, j))?;
        }
    }
    expected.store(8, 0)?;
    for at in 0..192 {
        assert_eq!(rt;
            memory.load(at),
            expected.load(at),
            "{}, word {at}",
            case.name
        );
    }
    Ok(())
}

// Recovers the image of a case twice.
fn recovers(rt: &impl Abort, case: Case) -> Result<(), Fail> {
    let mut bytes = [0; 1536];
    let mut memory = image_in(rt, &mut bytes);
    fill(&mut memory, case)?;
    assert_eq!(rt; recover(&mut memory), Ok(case.answer), "{}", case.name);
    check_words(rt, &mut memory, case)?;
    assert_eq!(rt; recover(&mut memory), Ok(false), "{}", case.name);
    check_words(rt, &mut memory, case)
}

// Does that for each of these cases.
fn recovers_each(rt: &impl Abort, cases: &[Case]) -> Result<(), Fail> {
    for case in cases {
        recovers(rt, *case)?;
    }
    Ok(())
}

#[test]
fn an_entry_is_undone_or_let_go(rt: HostRuntime) -> Result<(), Fail> {
    recovers_each(&rt, &CASES)
}

// Entries whose words 9 to 12 mean nothing, where the log is free.
const FREE: [Case; 2] = [
    Case {
        name: "free, the words of a commit",
        entry: [0, 0x105, ROOT, START, END],
        put: &[],
        answer: false,
    },
    Case {
        name: "free, words that break the rules",
        entry: [0, 16, 0, 0x1100_0003, 0x2001_0000],
        put: &[],
        answer: false,
    },
];

#[test]
fn a_free_log_is_left_as_it_is(rt: HostRuntime) -> Result<(), Fail> {
    recovers_each(&rt, &FREE)
}

// Entries with one piece or none.
const FEW: [Case; 4] = [
    Case {
        name: "commit, no piece",
        entry: [1, 5, ROOT, 0xffff_ffff_0000_0000, 0x0000_0001_0000_0000],
        put: &[],
        answer: false,
    },
    Case {
        name: "checkpoint that is undone, no piece",
        entry: [2, 0x105, ROOT, 0, 0],
        put: &[],
        answer: false,
    },
    Case {
        name: "commit, a start piece",
        entry: [1, 5, ROOT, START, 0],
        put: &[START_RUN],
        answer: true,
    },
    Case {
        name: "commit, an end piece",
        entry: [1, 5, ROOT, 0, END],
        put: &[END_RUN],
        answer: true,
    },
];

#[test]
fn no_piece_puts_nothing_back(rt: HostRuntime) -> Result<(), Fail> {
    recovers_each(&rt, &FEW)
}

// The longest pieces, two that overlap, other root words, and bits that are not read.
const FORMS: [Case; 6] = [
    Case {
        name: "sixteen words each, up to the end of both blocks",
        entry: [1, 5, ROOT, 0x1010_0005, 0x1010_0004],
        put: &[
            Run {
                to: 176,
                from: 32,
                count: 16,
            },
            Run {
                to: 144,
                from: 48,
                count: 16,
            },
        ],
        answer: true,
    },
    Case {
        name: "the end piece over the end of the start piece",
        entry: [1, 5, ROOT, 0x0400_0004, 0x0402_0004],
        put: &[
            Run {
                to: 128,
                from: 32,
                count: 2,
            },
            Run {
                to: 130,
                from: 48,
                count: 4,
            },
        ],
        answer: true,
    },
    Case {
        name: "commit, a follow mark and another root word",
        entry: [1, 0x105, 0, START, END],
        put: BOTH,
        answer: true,
    },
    Case {
        name: "checkpoint, follow mark, the old root word has another map",
        entry: [2, 0x105, 0x0000_012c_0000_0004, START, END],
        put: &[],
        answer: false,
    },
    Case {
        name: "all other bits set, no follow mark",
        entry: [
            2,
            0xffff_ffff_ffff_fe05,
            ROOT,
            0xffff_ffff_0000_0000 | START,
            0xffff_ffff_0000_0000 | END,
        ],
        put: &[],
        answer: false,
    },
    Case {
        name: "all other bits set, a follow mark",
        entry: [
            2,
            0xffff_ffff_ffff_ff05,
            ROOT,
            0xffff_ffff_0000_0000 | START,
            0xffff_ffff_0000_0000 | END,
        ],
        put: BOTH,
        answer: true,
    },
];

#[test]
fn pieces_are_put_back_whole(rt: HostRuntime) -> Result<(), Fail> {
    recovers_each(&rt, &FORMS)
}

// Makes the image of the first case, with some words changed, in these bytes.
fn fill_bytes(rt: &impl Abort, bytes: &mut [u8], changes: &[(u64, u64)]) -> Result<(), Fail> {
    let mut memory = image_in(rt, bytes);
    fill(&mut memory, CASES[0])?;
    store_words(&mut memory, changes)?;
    Ok(())
}

// Checks that recovery refuses that image in so many bytes, and stores nothing.
fn refuses<const N: usize>(
    rt: &impl Abort,
    changes: &[(u64, u64)],
    refusal: Refusal,
) -> Result<(), Fail>
    requires { N < 2048 }
{
    let mut bytes = [0; N];
    fill_bytes(rt, &mut bytes, changes)?;
    let before = bytes;
    assert_eq!(rt;
        recover(&mut image_in(rt, &mut bytes)),
        Err(refusal),
        "{changes:?}"
    );
    assert_eq!(rt; bytes, before, "{changes:?}, {refusal:?}");
    Ok(())
}

#[test]
fn a_broken_image_is_left_as_it_is(rt: HostRuntime) -> Result<(), Fail> {
    let cases = [
        // the count of blocks, a name in lower case, and one that stands twice
        (0, 7, Rule::BlockCount),
        (74, 0x61, Rule::Names),
        (64, 0x41, Rule::Names),
        // a map in block 2, and a length of 8,193
        (75, 0x0000_012c_0000_0002, Rule::Roots),
        (75, 0x0000_2001_0000_0003, Rule::Roots),
        // a file block past the last, and one that is used twice
        (97, 6, Rule::Maps),
        (97, 5, Rule::Blocks),
        // the state, a slot past the last, and an empty one
        (8, 3, Rule::LogEntry),
        (9, 16, Rule::LogEntry),
        (9, 4, Rule::LogEntry),
        // no words, seventeen, words past the end of the block, and words of the map
        (11, 0x0000_0005, Rule::LogEntry),
        (12, 0x1100_0004, Rule::LogEntry),
        (11, 0x021f_0005, Rule::LogEntry),
        (12, 0x0100_0003, Rule::LogEntry),
    ];
    for (at, value, rule) in cases {
        refuses::<1536>(&rt, &[(at, value)], Refusal::BadImage(rule))?;
    }
    Ok(())
}

#[test]
fn five_blocks_are_left_as_they_are(rt: HostRuntime) -> Result<(), Fail> {
    refuses::<1280>(&rt, &[], Refusal::WrongSize)
}

#[test]
fn six_blocks_and_a_word_are_left_as_they_are(rt: HostRuntime) -> Result<(), Fail> {
    refuses::<1544>(&rt, &[], Refusal::WrongSize)
}

#[test]
fn without_power_nothing_is_recovered(rt: HostRuntime) -> Result<(), Fail> {
    let mut bytes = [0; 1536];
    fill_bytes(&rt, &mut bytes, &[])?;
    let before = bytes;
    let mut memory = ByteImage::new(&mut bytes);
    assert_eq!(rt; recover(&mut memory), Err(Refusal::PowerLost));
    assert_eq!(rt; bytes, before);
    Ok(())
}

// More loads, stores and barriers than a recovery takes.
const MANY: u64 = 150;

// Cuts a recovery off after so many operations and recovers again; answers whether the first one came to its end.
fn ends_before_cut<M: CutPoint>(
    rt: &impl Abort,
    memory: &mut M,
    case: Case,
    cut: u64,
) -> Result<bool, Fail> {
    assert!(rt; memory.restart());
    fill(memory, case)?;
    memory.cut_after(Some(cut));
    let first = recover(memory);
    let ends = first == Ok(case.answer);
    assert!(rt; ends || first == Err(Refusal::PowerLost));
    assert!(rt; memory.restart());
    let second = recover(memory);
    assert!(rt; second == Ok(false) || !ends && second == Ok(case.answer));
    check_words(rt, memory, case)?;
    Ok(ends)
}

// Cuts the recovery of a case off at every operation: with none taken it does not end, and with enough of them it does.
fn recovers_after_any_cut<M: CutPoint>(
    rt: &impl Abort,
    memory: &mut M,
    case: Case,
) -> Result<(), Fail> {
    let ends = takes_up_to(MANY, |cut| ends_before_cut(rt, memory, case, cut))?;
    assert!(rt; ends, "{}", case.name);
    Ok(())
}

// Does that for each of these cases.
fn each_recovers_after_any_cut<M: CutPoint>(
    rt: &impl Abort,
    memory: &mut M,
    cases: &[Case],
) -> Result<(), Fail> {
    for case in cases {
        recovers_after_any_cut(rt, memory, *case)?;
    }
    Ok(())
}

#[test]
fn a_cut_recovery_is_made_up_for(rt: HostRuntime) -> Result<(), Fail> {
    let mut bytes = [0; 1536];
    let mut memory = ByteImage::new(&mut bytes);
    each_recovers_after_any_cut(&rt, &mut memory, &CASES)?;
    each_recovers_after_any_cut(&rt, &mut memory, &FREE)?;
    each_recovers_after_any_cut(&rt, &mut memory, &FEW)?;
    each_recovers_after_any_cut(&rt, &mut memory, &FORMS)
}

#[test]
fn a_cut_recovery_is_made_up_for_where_stores_lag(rt: HostRuntime) -> Result<(), Fail> {
    for given in [0, 0b0101_0101, 0b1010_1010, 0b1111_1111] {
        let below = LaggingMemory::new(rt.alloc(), 192, given)?;
        let mut memory = Cache::new(below);
        each_recovers_after_any_cut(&rt, &mut memory, &CASES)?;
        each_recovers_after_any_cut(&rt, &mut memory, &FORMS)?;
    }
    Ok(())
}
