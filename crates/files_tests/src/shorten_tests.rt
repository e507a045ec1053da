use crate::bench::{A, B, image_in};
use crate::pattern::{check_read, fill};
use image_check::refusal::Refusal;
use memory::memory::Memory;
use std::process::Abort;
use std::test::Fail;
use store::shorten::shorten;

// The root word of the file when it has that length.
fn root_word(length: u32) -> u64 {
    if length == 0 {
        0
    } else {
        (u64::from(length) << 32) | 3
    }
}

// Shortens the file of 300 bytes and reads it back; only its root word is changed.
fn shortens_to(rt: &impl Abort, length: u32) -> Result<(), Fail> {
    let mut bytes = [0; 1536];
    let mut memory = image_in(rt, &mut bytes);
    fill(&mut memory)?;
    let mut expected = bytes;
    expected[600..608].copy_from_slice(&root_word(length).to_le_bytes());
    let mut memory = image_in(rt, &mut bytes);
    assert_eq!(rt;
        shorten(&mut memory, B, length),
        Ok(()),
        "to {length} bytes"
    );
    assert_eq!(rt; memory.load(75), Ok(root_word(length)), "to {length} bytes");
    check_read(rt, &mut memory, length, 0, 320);
    check_read(rt, &mut memory, length, 250, 64);
    assert_eq!(rt; bytes, expected, "to {length} bytes");
    Ok(())
}

#[test]
fn a_file_is_shortened_to_every_length(rt: HostRuntime) -> Result<(), Fail> {
    for length in 0..301u32 {
        shortens_to(&rt, length)?;
    }
    Ok(())
}

#[test]
fn a_file_is_shortened_byte_by_byte(rt: HostRuntime) -> Result<(), Fail> {
    let mut bytes = [0; 1536];
    let mut memory = image_in(&rt, &mut bytes);
    fill(&mut memory)?;
    for length in (0..301u32).rev() {
        assert_eq!(rt; shorten(&mut memory, B, length), Ok(()));
        assert_eq!(rt; shorten(&mut memory, B, length + 1), Err(Refusal::TooLong));
        check_read(&rt, &mut memory, length, 240, 64);
    }
    assert_eq!(rt; memory.load(75), Ok(0));
    Ok(())
}

#[test]
fn a_file_is_not_made_longer(rt: HostRuntime) -> Result<(), Fail> {
    let mut bytes = [0; 1536];
    let mut memory = image_in(&rt, &mut bytes);
    fill(&mut memory)?;
    let before = bytes;
    let mut memory = image_in(&rt, &mut bytes);
    for length in [301, 302, 512, 8192, 8193, 0x0001_0000, u32::MAX] {
        assert_eq!(rt; shorten(&mut memory, B, length), Err(Refusal::TooLong));
        assert_eq!(rt; shorten(&mut memory, A, length), Err(Refusal::TooLong));
    }
    assert_eq!(rt; shorten(&mut memory, A, 1), Err(Refusal::TooLong));
    // to the length that each has
    assert_eq!(rt; shorten(&mut memory, A, 0), Ok(()));
    assert_eq!(rt; shorten(&mut memory, B, 300), Ok(()));
    assert_eq!(rt; bytes, before);
    Ok(())
}
