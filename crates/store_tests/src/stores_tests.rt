use crate::bench::{IMAGE, image_in, store_words};
use image_check::refusal::{Refusal, Rule};
use media::byte_image::ByteImage;
use memory::memory::Memory;
use std::process::Abort;
use std::test::Fail;
use store::stores::{Ready, Unread};

// The store after a restart that found power. Each crate of tests has its own, and its own `recovered`: a library may not abort.
fn with_power<M: Memory + Drop>(rt: &impl Abort, restarted: (Unread<M>, bool)) -> Unread<M> {
    let (store, up) = restarted;
    assert!(rt; up);
    store
}

// Recovers a store, in which pieces are put back or none are.
fn recovered<M: Memory + Drop>(
    rt: &impl Abort,
    store: Unread<M>,
    put_back: bool,
) -> Result<Ready<M>, Fail> {
    let (store, put) = store.recover().map_err(|(_, refusal)| refusal)?;
    assert_eq!(rt; put, put_back);
    Ok(store)
}

#[test]
fn a_store_is_recovered_after_each_restart(rt: HostRuntime) -> Result<(), Fail> {
    let mut bytes = [0xa5; 1536];
    let mut store = with_power(&rt, Unread::new(ByteImage::new(&mut bytes)).restart());
    assert_eq!(rt; store.format(), Ok(()));
    let ready = recovered(&rt, with_power(&rt, store.restart()), false)?;
    let ready = recovered(&rt, with_power(&rt, ready.restart()), false)?;
    let _ = with_power(&rt, ready.restart());
    assert_eq!(rt; bytes[0], 6);
    Ok(())
}

#[test]
fn a_refused_store_is_given_back(rt: HostRuntime) -> Result<(), Fail> {
    let mut bytes = [0; 1536];
    let store = with_power(&rt, Unread::new(ByteImage::new(&mut bytes)).restart());
    let Err((mut store, refusal)) = store.recover() else {
        return Err(Fail::new("recovered"));
    };
    assert_eq!(rt; refusal, Refusal::BadImage(Rule::BlockCount));
    assert_eq!(rt; store.format(), Ok(()));
    let _ = recovered(&rt, store, false)?;
    assert_eq!(rt; bytes[0], 6);
    Ok(())
}

#[test]
fn a_store_without_power_is_given_back(rt: HostRuntime) -> Result<(), Fail> {
    let mut bytes = [0; 1536];
    let mut store = Unread::new(ByteImage::new(&mut bytes));
    assert_eq!(rt; store.format(), Err(Refusal::PowerLost));
    let Err((store, refusal)) = store.recover() else {
        return Err(Fail::new("recovered"));
    };
    assert_eq!(rt; refusal, Refusal::PowerLost);
    let mut store = with_power(&rt, store.restart());
    assert_eq!(rt; store.format(), Ok(()));
    let _ = recovered(&rt, store, false)?;
    Ok(())
}

// A change of the first word of the file, cut off in the state commit.
const CHANGE: [(u64, u64); 5] = [
    (8, 1),
    (9, 0),
    (11, 0x0100_0004),
    (32, 0x21_4948),
    (128, 0x21_4f4d),
];

#[test]
fn pieces_are_put_back_once(rt: HostRuntime) -> Result<(), Fail> {
    let mut bytes = [0; 1536];
    let mut memory = image_in(&rt, &mut bytes);
    store_words(&mut memory, &IMAGE)?;
    store_words(&mut memory, &CHANGE)?;
    let ready = recovered(&rt, Unread::new(memory), true)?;
    let _ = recovered(&rt, with_power(&rt, ready.restart()), false)?;
    assert_eq!(rt; bytes[64], 0);
    assert_eq!(rt; [bytes[1024], bytes[1025], bytes[1026]], *b"HI!");
    Ok(())
}
