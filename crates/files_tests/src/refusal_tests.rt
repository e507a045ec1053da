use crate::bench::{A, B, C, Call, image_in, make, one_file, store_words};
use image_check::image::check_image;
use image_check::refusal::{Refusal, Rule};
use layout::name::Name;
use media::byte_image::ByteImage;
use memory::fault::Fault;
use memory::memory::Memory;
use std::process::Abort;
use std::test::Fail;
use store::change::Change;

// Makes an image of six blocks with two files, `A` of three bytes and `B`, which is empty, and changes these words of it.
fn fill<M: Memory>(memory: &mut M, changes: &[(u64, u64)]) -> Result<(), Fault> {
    store_words(memory, &one_file(0, A))?;
    memory.store(66, 0x42)?;
    store_words(memory, changes)
}

// What a call finds: words that differ from the image, the bytes of the memory, and whether there is power.
#[derive(Clone, Copy)]
struct Found {
    changes: &'static [(u64, u64)],
    size: usize,
    up: bool,
}

const SOUND: Found = Found {
    changes: &[],
    size: 1536,
    up: true,
};

// Six blocks with these words changed, and power.
fn changed(changes: &'static [(u64, u64)]) -> Found {
    Found { changes, ..SOUND }
}

// The count of blocks is not the memory's.
const BROKEN: Found = Found {
    changes: &[(0, 7)],
    ..SOUND
};

// The log is not free.
const BUSY: Found = Found {
    changes: &[(8, 1)],
    ..SOUND
};

// Five blocks.
const SMALL: Found = Found {
    size: 1280,
    ..SOUND
};

// Six blocks and a word.
const UNEVEN: Found = Found {
    size: 1544,
    ..SOUND
};

const DOWN: Found = Found { up: false, ..SOUND };

const BROKEN_DOWN: Found = Found {
    up: false,
    ..BROKEN
};

const SMALL_DOWN: Found = Found { up: false, ..SMALL };

const UNEVEN_BROKEN_DOWN: Found = Found {
    changes: &[(64, 0x61)],
    size: 1544,
    up: false,
};

// Sixteen files: beside `A` and `B` those named `D` to `Q`.
const FULL: Found = Found {
    changes: &[
        (68, 0x44),
        (70, 0x45),
        (72, 0x46),
        (74, 0x47),
        (76, 0x48),
        (78, 0x49),
        (80, 0x4a),
        (82, 0x4b),
        (84, 0x4c),
        (86, 0x4d),
        (88, 0x4e),
        (90, 0x4f),
        (92, 0x50),
        (94, 0x51),
    ],
    ..SOUND
};

// What a call answers of these bytes.
fn answer(rt: &impl Abort, bytes: &mut [u8], up: bool, call: Call) -> Result<(), Refusal> {
    let mut memory = ByteImage::new(bytes);
    if up {
        assert!(rt; memory.restart());
    }
    make(&mut memory, call)
}

// Checks that a call is refused, and that no byte is changed.
fn refuses(rt: &impl Abort, found: Found, call: Call, refusal: Refusal) -> Result<(), Fail> {
    let mut bytes = [0; 1544];
    let mut memory = image_in(rt, &mut bytes);
    fill(&mut memory, found.changes)?;
    let before = bytes;
    assert!(rt; found.size <= bytes.len());
    assert_eq!(rt;
        answer(rt, &mut bytes[..found.size], found.up, call),
        Err(refusal)
    );
    assert_eq!(rt; bytes, before);
    Ok(())
}

const LOWER: Name = *b"a\0\0\0\0\0\0\0";

const GAP: Name = *b"A\0B\0\0\0\0\0";

const NOTHING: Name = [0; 8];

// Calls with a bad name; a rename has one where either is bad.
const BAD_NAMES: [Call; 10] = [
    Call::Change(Change::Create(LOWER)),
    Call::Change(Change::Create(NOTHING)),
    Call::Change(Change::Rename {
        name: LOWER,
        new: C,
    }),
    Call::Change(Change::Rename { name: A, new: GAP }),
    Call::Change(Change::Rename {
        name: C,
        new: NOTHING,
    }),
    Call::Change(Change::Rename {
        name: GAP,
        new: LOWER,
    }),
    Call::Change(Change::Remove(NOTHING)),
    Call::Change(Change::Shorten {
        name: GAP,
        length: 0,
    }),
    Call::Change(Change::Shorten {
        name: LOWER,
        length: 4,
    }),
    Call::Read(LOWER),
];

#[test]
fn a_bad_name_comes_first(rt: HostRuntime) -> Result<(), Fail> {
    for found in [
        SOUND,
        BROKEN,
        BUSY,
        SMALL,
        UNEVEN,
        DOWN,
        BROKEN_DOWN,
        SMALL_DOWN,
        UNEVEN_BROKEN_DOWN,
        FULL,
    ] {
        for call in BAD_NAMES {
            refuses(&rt, found, call, Refusal::BadName)?;
        }
    }
    Ok(())
}

// Calls with good names: each is done in the sound image, or refused there by what the file table holds.
const CALLS: [Call; 12] = [
    Call::Change(Change::Create(C)),
    Call::Change(Change::Create(A)),
    Call::Change(Change::Rename { name: A, new: C }),
    Call::Change(Change::Rename { name: A, new: B }),
    Call::Change(Change::Rename { name: C, new: B }),
    Call::Change(Change::Remove(A)),
    Call::Change(Change::Remove(C)),
    Call::Change(Change::Shorten { name: A, length: 1 }),
    Call::Change(Change::Shorten { name: A, length: 4 }),
    Call::Change(Change::Shorten { name: C, length: 4 }),
    Call::Read(A),
    Call::Read(C),
];

// Checks that each of these calls is refused.
fn refuses_all(rt: &impl Abort, found: Found, refusal: Refusal) -> Result<(), Fail> {
    for call in CALLS {
        refuses(rt, found, call, refusal)?;
    }
    Ok(())
}

#[test]
fn a_wrong_size_comes_next(rt: HostRuntime) -> Result<(), Fail> {
    for found in [SMALL, UNEVEN, SMALL_DOWN, UNEVEN_BROKEN_DOWN] {
        refuses_all(&rt, found, Refusal::WrongSize)?;
    }
    Ok(())
}

#[test]
fn without_power_the_rules_are_not_tried(rt: HostRuntime) -> Result<(), Fail> {
    for found in [DOWN, BROKEN_DOWN] {
        refuses_all(&rt, found, Refusal::PowerLost)?;
    }
    Ok(())
}

#[test]
fn a_broken_rule_comes_before_the_files(rt: HostRuntime) -> Result<(), Fail> {
    let cases = [
        (changed(&[(0, 7)]), Rule::BlockCount),
        (changed(&[(64, 0x61)]), Rule::Names),
        (changed(&[(68, 0x42)]), Rule::Names),
        (changed(&[(65, 0x0000_0003_0000_0002)]), Rule::Roots),
        (changed(&[(67, 0x0000_2001_0000_0005)]), Rule::Roots),
        (changed(&[(96, 6)]), Rule::Maps),
        (changed(&[(96, 3)]), Rule::Blocks),
        (changed(&[(8, 3)]), Rule::LogEntry),
        (changed(&[(8, 1), (9, 16)]), Rule::LogEntry),
        // two rules at once, and one beside a log that is not free
        (changed(&[(0, 5), (64, 0x61)]), Rule::BlockCount),
        (changed(&[(8, 1), (64, 0x61)]), Rule::Names),
        (changed(&[(8, 2), (96, 3)]), Rule::Blocks),
    ];
    for (found, rule) in cases {
        refuses_all(&rt, found, Refusal::BadImage(rule))?;
    }
    Ok(())
}

// Whether the check takes the image.
fn is_sound(rt: &impl Abort, found: Found) -> Result<bool, Fail> {
    let mut bytes = [0; 1536];
    let mut memory = image_in(rt, &mut bytes);
    fill(&mut memory, found.changes)?;
    Ok(check_image(&mut memory).is_ok())
}

#[test]
fn a_log_that_is_not_free_breaks_rule_6(rt: HostRuntime) -> Result<(), Fail> {
    let cases = [
        changed(&[(8, 1)]),
        changed(&[(8, 2)]),
        changed(&[(8, 1), (9, 1)]),
        changed(&[(8, 2), (9, 0x101)]),
        changed(&[(8, 1), (11, 0x0100_0004), (12, 0x0201_0004)]),
    ];
    for found in cases {
        assert!(rt; is_sound(&rt, found)?);
        refuses_all(&rt, found, Refusal::BadImage(Rule::LogEntry))?;
    }
    Ok(())
}

#[test]
fn the_files_are_looked_at_last(rt: HostRuntime) -> Result<(), Fail> {
    let cases = [
        // a missing file, before a taken new name and before a length
        (
            SOUND,
            Call::Change(Change::Rename { name: C, new: A }),
            Refusal::NoFile,
        ),
        (
            SOUND,
            Call::Change(Change::Rename { name: C, new: C }),
            Refusal::NoFile,
        ),
        (
            SOUND,
            Call::Change(Change::Shorten { name: C, length: 4 }),
            Refusal::NoFile,
        ),
        (
            SOUND,
            Call::Change(Change::Shorten {
                name: C,
                length: u32::MAX,
            }),
            Refusal::NoFile,
        ),
        (SOUND, Call::Change(Change::Remove(C)), Refusal::NoFile),
        (SOUND, Call::Read(C), Refusal::NoFile),
        // a taken name, before sixteen files
        (FULL, Call::Change(Change::Create(A)), Refusal::NameTaken),
        (
            FULL,
            Call::Change(Change::Create(*b"Q\0\0\0\0\0\0\0")),
            Refusal::NameTaken,
        ),
        (FULL, Call::Change(Change::Create(C)), Refusal::TooManyFiles),
        (SOUND, Call::Change(Change::Create(B)), Refusal::NameTaken),
        (
            SOUND,
            Call::Change(Change::Rename { name: A, new: B }),
            Refusal::NameTaken,
        ),
        (
            SOUND,
            Call::Change(Change::Rename { name: B, new: B }),
            Refusal::NameTaken,
        ),
        (
            SOUND,
            Call::Change(Change::Shorten { name: A, length: 4 }),
            Refusal::TooLong,
        ),
        (
            SOUND,
            Call::Change(Change::Shorten { name: B, length: 1 }),
            Refusal::TooLong,
        ),
    ];
    for (found, call, refusal) in cases {
        refuses(&rt, found, call, refusal)?;
    }
    Ok(())
}
