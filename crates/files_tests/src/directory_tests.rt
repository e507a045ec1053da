use crate::bench::{
    A, B, C, Call, SHORT, count_files, empty, has_file, has_only, image_in, make, make_store,
    one_file, store_words,
};
use image_check::refusal::Refusal;
use layout::name::Name;
use media::byte_image::ByteImage;
use memory::memory::Memory;
use std::process::Abort;
use std::test::Fail;
use store::change::Change;
use store::names::{create, remove, rename};

// The name of one letter.
fn one_letter(letter: u8) -> Name {
    [letter, 0, 0, 0, 0, 0, 0, 0]
}

// Makes an empty store with a file for each of these letters.
fn create_all<M: Memory>(rt: &impl Abort, memory: &mut M, letters: &[u8]) {
    make_store(rt, memory);
    for letter in letters {
        assert_eq!(rt; create(memory, one_letter(*letter)), Ok(()));
    }
}

#[test]
fn there_is_room_for_sixteen_files(rt: HostRuntime) -> Result<(), Fail> {
    let mut bytes = [0xa5; 1536];
    let mut memory = ByteImage::new(&mut bytes);
    create_all(&rt, &mut memory, b"ABCDEFGHIJKLMNOP");
    let (h, q) = (one_letter(b'H'), one_letter(b'Q'));
    assert_eq!(rt; create(&mut memory, q), Err(Refusal::TooManyFiles));
    assert_eq!(rt; remove(&mut memory, h), Ok(()));
    assert_eq!(rt; create(&mut memory, q), Ok(()));
    assert_eq!(rt; create(&mut memory, h), Err(Refusal::TooManyFiles));
    assert_eq!(rt; count_files(&mut memory)?, 16);
    for letter in *b"ABCDEFGQIJKLMNOP" {
        assert!(rt; has_file(&mut memory, empty(one_letter(letter))));
    }
    assert_eq!(rt; remove(&mut memory, h), Err(Refusal::NoFile));
    Ok(())
}

#[test]
fn every_slot_can_be_taken_again(rt: HostRuntime) -> Result<(), Fail> {
    let mut bytes = [0xa5; 1536];
    let mut memory = ByteImage::new(&mut bytes);
    create_all(&rt, &mut memory, b"ABCDEFGHIJKLMNOP");
    for letter in *b"PAOBNCMDLEKFJGIH" {
        assert_eq!(rt; remove(&mut memory, one_letter(letter)), Ok(()));
        assert_eq!(rt; count_files(&mut memory)?, 15);
        assert_eq!(rt; create(&mut memory, one_letter(b'Q')), Ok(()));
        assert_eq!(rt; count_files(&mut memory)?, 16);
        assert_eq!(rt;
            rename(&mut memory, one_letter(b'Q'), one_letter(letter)),
            Ok(())
        );
    }
    for letter in *b"ABCDEFGHIJKLMNOP" {
        assert!(rt; has_file(&mut memory, empty(one_letter(letter))));
    }
    Ok(())
}

#[test]
fn a_taken_name_is_refused(rt: HostRuntime) -> Result<(), Fail> {
    let mut bytes = [0xa5; 1536];
    let mut memory = ByteImage::new(&mut bytes);
    create_all(&rt, &mut memory, b"AB");
    assert_eq!(rt; create(&mut memory, A), Err(Refusal::NameTaken));
    assert_eq!(rt; rename(&mut memory, A, B), Err(Refusal::NameTaken));
    assert_eq!(rt; rename(&mut memory, A, A), Err(Refusal::NameTaken));
    assert!(rt; has_only(&mut memory, &[empty(A), empty(B)])?);
    assert_eq!(rt; rename(&mut memory, A, C), Ok(()));
    assert_eq!(rt; rename(&mut memory, B, A), Ok(()));
    assert_eq!(rt; rename(&mut memory, B, A), Err(Refusal::NoFile));
    assert!(rt; has_only(&mut memory, &[empty(A), empty(C)])?);
    Ok(())
}

#[test]
fn a_removed_file_is_gone(rt: HostRuntime) -> Result<(), Fail> {
    let mut bytes = [0xa5; 1536];
    let mut memory = ByteImage::new(&mut bytes);
    create_all(&rt, &mut memory, b"AB");
    assert_eq!(rt; remove(&mut memory, A), Ok(()));
    for call in [
        Call::Change(Change::Remove(A)),
        Call::Change(Change::Rename { name: A, new: C }),
        Call::Change(Change::Shorten { name: A, length: 0 }),
        Call::Read(A),
    ] {
        assert_eq!(rt; make(&mut memory, call), Err(Refusal::NoFile));
    }
    assert!(rt; has_only(&mut memory, &[empty(B)])?);
    assert_eq!(rt; create(&mut memory, A), Ok(()));
    assert!(rt; has_only(&mut memory, &[empty(A), empty(B)])?);
    Ok(())
}

#[test]
fn a_new_file_is_empty_whatever_its_slot_held(rt: HostRuntime) -> Result<(), Fail> {
    // a root word of the blocks of `B`, one of the blocks that are free, and words that break the rules
    for old in [
        0x0000_0003_0000_0003,
        0x0000_0005_0000_0005,
        0x0000_2001_0001_0006,
        u64::MAX,
    ] {
        let mut bytes = [0; 1536];
        let mut memory = image_in(&rt, &mut bytes);
        store_words(&mut memory, &one_file(1, B))?;
        memory.store(65, old)?;
        assert_eq!(rt; create(&mut memory, A), Ok(()));
        assert_eq!(rt; memory.load(64), Ok(0x41));
        assert_eq!(rt; memory.load(65), Ok(0));
        assert!(rt; has_only(&mut memory, &[empty(A), SHORT])?);
    }
    Ok(())
}

#[test]
fn a_removed_file_leaves_no_bytes_to_the_next(rt: HostRuntime) -> Result<(), Fail> {
    let mut bytes = [0; 1536];
    let mut memory = image_in(&rt, &mut bytes);
    store_words(&mut memory, &one_file(1, B))?;
    for slot in [0, 2, 3] {
        memory.store(65 + 2 * slot, 0x0000_0003_0000_0003)?;
    }
    assert_eq!(rt; remove(&mut memory, B), Ok(()));
    assert!(rt; has_only(&mut memory, &[])?);
    for name in [B, A, C] {
        assert_eq!(rt; create(&mut memory, name), Ok(()));
    }
    assert!(rt; has_only(&mut memory, &[empty(A), empty(B), empty(C)])?);
    Ok(())
}
