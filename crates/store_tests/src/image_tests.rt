use crate::bench::{IMAGE, image_in, store_words};
use image_check::image::check_image;
use image_check::refusal::Refusal;
use std::process::Abort;
use std::test::Fail;

// The first rule that the check finds broken in that image with some words changed, by the number that a session prints.
fn broken_rule(rt: &impl Abort, changes: &[(u64, u64)]) -> Result<Option<u8>, Fail> {
    let mut bytes = [0; 1536];
    let mut memory = image_in(rt, &mut bytes);
    store_words(&mut memory, &IMAGE)?;
    store_words(&mut memory, changes)?;
    match check_image(&mut memory) {
        Ok(_) => Ok(None),
        Err(Refusal::BadImage(rule)) => Ok(Some(u8::from(rule))),
        Err(refusal) => Err(refusal.into()),
    }
}

#[test]
fn each_rule_is_found_broken(rt: HostRuntime) -> Result<(), Fail> {
    assert_eq!(rt; broken_rule(&rt, &[])?, None);
    // the count of blocks
    assert_eq!(rt; broken_rule(&rt, &[(0, 7)])?, Some(1));
    // a name in lower case, one with a gap, and one that stands twice
    assert_eq!(rt; broken_rule(&rt, &[(64, 0x61)])?, Some(2));
    assert_eq!(rt; broken_rule(&rt, &[(64, 0x42_0041)])?, Some(2));
    assert_eq!(rt; broken_rule(&rt, &[(66, 0x41)])?, Some(2));
    // bits 16 to 31, a map in block 2 and past the last, a length of 0 and of 8,193
    assert_eq!(rt; broken_rule(&rt, &[(65, 0x0000_0003_0001_0003)])?, Some(3));
    assert_eq!(rt; broken_rule(&rt, &[(65, 0x0000_0003_0000_0002)])?, Some(3));
    assert_eq!(rt; broken_rule(&rt, &[(65, 0x0000_0003_0000_0006)])?, Some(3));
    assert_eq!(rt; broken_rule(&rt, &[(65, 0x0000_0000_0000_0003)])?, Some(3));
    assert_eq!(rt; broken_rule(&rt, &[(65, 0x0000_2001_0000_0003)])?, Some(3));
    // a file block in block 2 and past the last
    assert_eq!(rt; broken_rule(&rt, &[(96, 2)])?, Some(4));
    assert_eq!(rt; broken_rule(&rt, &[(96, 6)])?, Some(4));
    // a map that is its own file block; rule 4 is tried before it
    assert_eq!(rt; broken_rule(&rt, &[(96, 3)])?, Some(5));
    assert_eq!(rt;
        broken_rule(&rt, &[(96, 2), (66, 0x42), (67, 0x0000_0003_0000_0003)])?,
        Some(4)
    );
    Ok(())
}

#[test]
fn the_log_entry_is_checked(rt: HostRuntime) -> Result<(), Fail> {
    // no state 3; a slot past the last, and an empty one
    assert_eq!(rt; broken_rule(&rt, &[(8, 3)])?, Some(6));
    assert_eq!(rt; broken_rule(&rt, &[(8, 1), (9, 16)])?, Some(6));
    assert_eq!(rt; broken_rule(&rt, &[(8, 1), (9, 1)])?, Some(6));
    // a piece of a word, none, seventeen words, past the end of the block, and in a map
    assert_eq!(rt; broken_rule(&rt, &[(8, 1), (11, 0x0100_0004)])?, None);
    assert_eq!(rt; broken_rule(&rt, &[(8, 2), (12, 0x7700_0000_0000)])?, None);
    assert_eq!(rt; broken_rule(&rt, &[(8, 1), (11, 0x1100_0004)])?, Some(6));
    assert_eq!(rt; broken_rule(&rt, &[(8, 1), (12, 0x021f_0004)])?, Some(6));
    assert_eq!(rt; broken_rule(&rt, &[(8, 1), (11, 0x0100_0003)])?, Some(6));
    // without an entry its words mean nothing
    assert_eq!(rt; broken_rule(&rt, &[(9, 16), (11, 0x1100_0004)])?, None);
    Ok(())
}
