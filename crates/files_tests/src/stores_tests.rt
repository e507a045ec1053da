use crate::bench::{A, B, C, image_in, one_file, store_words};
use image_check::refusal::Refusal;
use layout::name::Name;
use media::byte_image::ByteImage;
use memory::memory::Memory;
use std::process::Abort;
use std::test::Fail;
use store::stores::{Ready, Unread};

// The store after a restart that found power. Each crate of tests has its own, and its own `recovered`: a library may not abort.
fn with_power<M: Memory + Drop>(rt: &impl Abort, restarted: (Unread<M>, bool)) -> Unread<M> {
    let (store, up) = restarted;
    assert!(rt; up);
    store
}

// Recovers a store in which no call was cut off.
fn recovered<M: Memory + Drop>(rt: &impl Abort, store: Unread<M>) -> Result<Ready<M>, Fail> {
    let (store, put) = store.recover().map_err(|(_, refusal)| refusal)?;
    assert!(rt; !put);
    Ok(store)
}

// Restarts a store and recovers it.
fn back_again<M: Memory + Drop>(rt: &impl Abort, store: Ready<M>) -> Result<Ready<M>, Fail> {
    recovered(rt, with_power(rt, store.restart()))
}

// Checks what a read of eight bytes answers and gives.
fn reads<M: Memory>(
    rt: &impl Abort,
    store: &mut Ready<M>,
    name: Name,
    answer: Result<usize, Refusal>,
    bytes: [u8; 8],
) {
    let mut buffer = [0xa5; 8];
    assert_eq!(rt; store.read(name, 0, &mut buffer), answer);
    assert_eq!(rt; buffer, bytes);
}

#[test]
fn files_outlast_a_restart(rt: HostRuntime) -> Result<(), Fail> {
    let mut bytes = [0xa5; 1536];
    let mut unread = with_power(&rt, Unread::new(ByteImage::new(&mut bytes)).restart());
    assert_eq!(rt; unread.format(), Ok(()));
    let mut store = recovered(&rt, unread)?;
    assert_eq!(rt; store.create(A), Ok(()));
    assert_eq!(rt; store.create(A), Err(Refusal::NameTaken));
    assert_eq!(rt; store.rename(A, B), Ok(()));
    assert_eq!(rt; store.create(C), Ok(()));
    assert_eq!(rt; store.shorten(C, 0), Ok(()));
    assert_eq!(rt; store.shorten(C, 1), Err(Refusal::TooLong));
    assert_eq!(rt; store.remove(C), Ok(()));
    assert_eq!(rt; store.remove(C), Err(Refusal::NoFile));
    let mut store = back_again(&rt, store)?;
    reads(&rt, &mut store, A, Err(Refusal::NoFile), [0; 8]);
    reads(&rt, &mut store, B, Ok(0), [0; 8]);
    reads(&rt, &mut store, C, Err(Refusal::NoFile), [0; 8]);
    Ok(())
}

#[test]
fn bytes_outlast_a_restart(rt: HostRuntime) -> Result<(), Fail> {
    let mut bytes = [0; 1536];
    let mut memory = image_in(&rt, &mut bytes);
    store_words(&mut memory, &one_file(0, A))?;
    let mut store = recovered(&rt, Unread::new(memory))?;
    reads(&rt, &mut store, A, Ok(3), *b"HI!\0\0\0\0\0");
    assert_eq!(rt; store.rename(A, C), Ok(()));
    assert_eq!(rt; store.create(A), Ok(()));
    let mut store = back_again(&rt, store)?;
    reads(&rt, &mut store, C, Ok(3), *b"HI!\0\0\0\0\0");
    reads(&rt, &mut store, A, Ok(0), [0; 8]);
    assert_eq!(rt; store.shorten(C, 2), Ok(()));
    let mut store = back_again(&rt, store)?;
    reads(&rt, &mut store, C, Ok(2), *b"HI\0\0\0\0\0\0");
    assert_eq!(rt; store.remove(C), Ok(()));
    let mut store = back_again(&rt, store)?;
    reads(&rt, &mut store, C, Err(Refusal::NoFile), [0; 8]);
    reads(
        &rt,
        &mut store,
        *b"c\0\0\0\0\0\0\0",
        Err(Refusal::BadName),
        [0; 8],
    );
    reads(&rt, &mut store, A, Ok(0), [0; 8]);
    Ok(())
}
