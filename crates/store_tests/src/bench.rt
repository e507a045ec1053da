use media::byte_image::ByteImage;
use memory::fault::Fault;
use memory::memory::Memory;
use std::process::Abort;
use std::test::Fail;

// A memory in these bytes, with power on. Each crate of tests has its own: a library may not abort.
pub(crate) fn image_in<'a>(rt: &impl Abort, bytes: &'a mut [u8]) -> ByteImage<'a> {
    let mut memory = ByteImage::new(bytes);
    assert!(rt; memory.restart());
    memory
}

// Stores words at their places. Each crate of tests has its own: shared, these five lines would want a contract, its proof and an edit.
pub(crate) fn store_words<M: Memory>(memory: &mut M, words: &[(u64, u64)]) -> Result<(), Fault> {
    for (at, value) in words {
        memory.store(*at, *value)?;
    }
    Ok(())
}

// Six blocks with one file, `A`, of three bytes: its map is block 3, and its bytes are in block 4. `files_tests` has its own: a crate for five words is no plainer.
pub(crate) const IMAGE: [(u64, u64); 5] = [
    (0, 6),
    (64, 0x41),
    (65, 0x0000_0003_0000_0003),
    (96, 4),
    (128, 0x21_4948),
];

// Tries a thing with 0, 1, .. `most` operations before power is lost, and answers whether it is not done with none of them and done with `most`.
// Each crate of tests has its own: a public function requires nothing, and so not that its closure can be called.
pub(crate) fn takes_up_to<F: FnMut(u64) -> Result<bool, Fail>>(
    most: u64,
    mut is_done: F,
) -> Result<bool, Fail>
    requires { F.IsAlwaysCallable is_done }
{
    if is_done(0)? {
        return Ok(false);
    }
    for operations in 1..most {
        let _ = is_done(operations)?;
    }
    is_done(most)
}
