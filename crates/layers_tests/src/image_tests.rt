use crate::steps::store_across_restart;
use layers::cache::Cache;
use layers::part::{Part, Run};
use media::byte_image::ByteImage;
use memory::memory::Memory;
use std::process::Abort;

// Stores 7 in each of the first words of a cache, and restarts it.
fn store_and_restart(rt: &impl Abort, bytes: &mut [u8], words: u64) {
    let mut cache = Cache::new(ByteImage::new(bytes));
    assert!(rt; cache.restart());
    for at in 0..words {
        assert_eq!(rt; cache.store(at, 7), Ok(()));
        assert_eq!(rt; cache.load(at), Ok(7));
    }
    assert!(rt; cache.restart());
}

#[test]
fn eight_words_wait(rt: HostRuntime) {
    let mut bytes = [0; 80];
    store_and_restart(&rt, &mut bytes, 8);
    assert_eq!(rt; bytes, [0; 80]);
}

#[test]
fn the_ninth_word_sends_the_oldest_below(rt: HostRuntime) {
    let mut bytes = [0; 80];
    store_and_restart(&rt, &mut bytes, 9);
    assert_eq!(rt; bytes[0], 7);
    bytes[0] = 0;
    assert_eq!(rt; bytes, [0; 80]);
}

// Takes those steps in a cache over words 2 to 5 of a cache over the bytes.
fn store_in_part(rt: &impl Abort, bytes: &mut [u8]) {
    let lower = Cache::new(ByteImage::new(bytes));
    let mut memory = Cache::new(Part::new(lower, Run { first: 2, count: 4 }));
    store_across_restart(rt, &mut memory);
}

#[test]
fn a_barrier_reaches_the_bytes(rt: HostRuntime) {
    let mut bytes = [0; 64];
    store_in_part(&rt, &mut bytes);
    assert_eq!(rt; bytes[24], 7);
    bytes[24] = 0;
    assert_eq!(rt; bytes, [0; 64]);
}
