use crate::bench::{A, B, Call, count_files, empty, has_file, make, make_store};
use image_check::refusal::Refusal;
use layout::name::Name;
use media::byte_image::ByteImage;
use memory::memory::Memory;
use std::process::Abort;
use std::test::Fail;
use store::change::Change;
use store::names::{create, remove};

// Names of one to eight letters, and the words that hold them.
const LENGTHS: [(Name, u64); 8] = [
    (*b"Z\0\0\0\0\0\0\0", 0x5a),
    (*b"Z-\0\0\0\0\0\0", 0x2d5a),
    (*b"Z-0\0\0\0\0\0", 0x30_2d5a),
    (*b"Z-09\0\0\0\0", 0x3930_2d5a),
    (*b"Z-09A\0\0\0", 0x41_3930_2d5a),
    (*b"Z-09AM\0\0", 0x4d41_3930_2d5a),
    (*b"Z-09AM-\0", 0x2d_4d41_3930_2d5a),
    (*b"Z-09AM--", 0x2d2d_4d41_3930_2d5a),
];

#[test]
fn a_name_has_one_to_eight_letters(rt: HostRuntime) -> Result<(), Fail> {
    let mut bytes = [0xa5; 1536];
    let mut memory = ByteImage::new(&mut bytes);
    make_store(&rt, &mut memory);
    for (name, word) in LENGTHS {
        assert_eq!(rt; create(&mut memory, name), Ok(()));
        assert_eq!(rt; memory.load(64), Ok(word));
        assert!(rt; has_file(&mut memory, empty(name)));
        assert_eq!(rt; remove(&mut memory, name), Ok(()));
    }
    for (name, _) in LENGTHS {
        assert_eq!(rt; create(&mut memory, name), Ok(()));
    }
    for (name, _) in LENGTHS {
        assert_eq!(rt; create(&mut memory, name), Err(Refusal::NameTaken));
        assert!(rt; has_file(&mut memory, empty(name)));
    }
    assert_eq!(rt; count_files(&mut memory)?, 8);
    Ok(())
}

// The bytes that names are made of.
const LETTERS: &[u8; 37] = b"ABCDEFGHIJKLMNOPQRSTUVWXYZ0123456789-";

// Whether a byte is one of them, told without the store's own test.
fn is_letter(byte: u8) -> bool {
    LETTERS.contains(&byte)
}

// Whether a name has so many letters and then only zeros.
fn has_length(name: Name, length: usize) -> bool {
    let letters = name.iter().take(length).all(|byte| is_letter(*byte));
    letters && name.iter().skip(length).all(|byte| *byte == 0)
}

// Whether it is a name of one to eight letters.
fn is_name(name: Name) -> bool {
    (1..9).any(|length| has_length(name, length))
}

// Puts each byte at each place of a name, and checks whether there can be a file of that name.
fn tries_every_byte(rt: &impl Abort, name: Name) -> Result<(), Fail> {
    let mut bytes = [0xa5; 1536];
    let mut memory = ByteImage::new(&mut bytes);
    make_store(rt, &mut memory);
    for place in 0..8usize {
        for byte in 0..=255u8 {
            let mut tried = name;
            tried[place] = byte;
            let expected = if is_name(tried) {
                Ok(())
            } else {
                Err(Refusal::BadName)
            };
            assert_eq!(rt; create(&mut memory, tried), expected, "{byte} at {place}");
            assert_eq!(rt; remove(&mut memory, tried), expected, "{byte} at {place}");
        }
    }
    assert_eq!(rt; count_files(&mut memory)?, 0);
    Ok(())
}

#[test]
fn every_byte_at_every_place_of_eight_letters(rt: HostRuntime) -> Result<(), Fail> {
    tries_every_byte(&rt, *b"ABCDEFGH")
}

#[test]
fn every_byte_at_every_place_of_shorter_names(rt: HostRuntime) -> Result<(), Fail> {
    for name in [*b"-\0\0\0\0\0\0\0", *b"WXYZ\0\0\0\0", *b"1234567\0", [0; 8]] {
        tries_every_byte(&rt, name)?;
    }
    Ok(())
}

#[test]
fn a_letter_is_a_capital_a_digit_or_a_hyphen(rt: HostRuntime) {
    let cases = [
        (b'-', true),
        (b',', false),
        (b'.', false),
        (b'/', false),
        (b'0', true),
        (b'9', true),
        (b':', false),
        (b'@', false),
        (b'A', true),
        (b'Z', true),
        (b'[', false),
        (b'a', false),
        (b'z', false),
        (b' ', false),
        (b'_', false),
        (0xc1, false),
    ];
    for (byte, good) in cases {
        assert_eq!(rt; is_letter(byte), good);
    }
}

#[test]
fn a_bad_name_is_refused_by_every_call(rt: HostRuntime) -> Result<(), Fail> {
    let mut bytes = [0xa5; 1536];
    let mut memory = ByteImage::new(&mut bytes);
    make_store(&rt, &mut memory);
    assert_eq!(rt; create(&mut memory, A), Ok(()));
    for bad in [
        [0; 8],
        *b"\0A\0\0\0\0\0\0",
        *b"a\0\0\0\0\0\0\0",
        *b"A B\0\0\0\0\0",
        *b"A\0\0\0\0\0\0A",
        *b"ABCDEFG_",
        [0xff; 8],
    ] {
        for call in [
            Call::Change(Change::Create(bad)),
            Call::Change(Change::Rename { name: A, new: bad }),
            Call::Change(Change::Rename { name: bad, new: B }),
            Call::Change(Change::Remove(bad)),
            Call::Change(Change::Shorten {
                name: bad,
                length: 0,
            }),
            Call::Read(bad),
        ] {
            assert_eq!(rt; make(&mut memory, call), Err(Refusal::BadName));
        }
    }
    assert_eq!(rt; count_files(&mut memory)?, 1);
    Ok(())
}
