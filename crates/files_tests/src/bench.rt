use image_check::refusal::Refusal;
use layout::name::Name;
use media::byte_image::ByteImage;
use memory::fault::Fault;
use memory::memory::Memory;
use std::process::Abort;
use std::test::Fail;
use store::change::Change;
use store::format::format;
use store::read::read;

pub(crate) const A: Name = *b"A\0\0\0\0\0\0\0";

pub(crate) const B: Name = *b"B\0\0\0\0\0\0\0";

pub(crate) const C: Name = *b"C\0\0\0\0\0\0\0";

// A file call: a change, or a read from the beginning.
#[derive(Clone, Copy)]
pub(crate) enum Call {
    Change(Change),
    Read(Name),
}

// Makes a call.
pub(crate) fn make<M: Memory>(memory: &mut M, call: Call) -> Result<(), Refusal> {
    match call {
        Call::Change(change) => change.apply(memory),
        Call::Read(name) => {
            let mut buffer = [0xa5; 8];
            read(memory, name, 0, &mut buffer).map(|_| ())
        }
    }
}

// A memory in these bytes, with power on. Each crate of tests has its own: a library may not abort.
pub(crate) fn image_in<'a>(rt: &impl Abort, bytes: &'a mut [u8]) -> ByteImage<'a> {
    let mut memory = ByteImage::new(bytes);
    assert!(rt; memory.restart());
    memory
}

// Makes an empty store of a memory.
pub(crate) fn make_store<M: Memory>(rt: &impl Abort, memory: &mut M) {
    assert!(rt; memory.restart());
    assert_eq!(rt; format(memory), Ok(()));
}

// Stores words at their places. Each crate of tests has its own: shared, these five lines would want a contract, its proof and an edit.
pub(crate) fn store_words<M: Memory>(memory: &mut M, words: &[(u64, u64)]) -> Result<(), Fault> {
    for (at, value) in words {
        memory.store(*at, *value)?;
    }
    Ok(())
}

// Six blocks with one file, in that slot, of the bytes `HI!`: its map is block 3, and its bytes are in block 4.
pub(crate) fn one_file(slot: u8, name: Name) -> [(u64, u64); 5] {
    let at = 64 + 2 * u64::from(slot);
    [
        (0, 6),
        (at, u64::from_le_bytes(name)),
        (at + 1, 0x0000_0003_0000_0003),
        (96, 4),
        (128, 0x21_4948),
    ]
}

// A file that is to be found, of sixteen bytes at most.
#[derive(Clone, Copy)]
pub(crate) struct File {
    pub name: Name,
    pub bytes: &'static [u8],
}

// The file `B` of the images that have three bytes of it.
pub(crate) const SHORT: File = File {
    name: B,
    bytes: b"HI!",
};

// `A` with no bytes.
pub(crate) const EMPTIED: File = File {
    name: A,
    bytes: &[],
};

// An empty file.
pub(crate) fn empty(name: Name) -> File {
    File { name, ..EMPTIED }
}

// Whether a file is there, with its length and its bytes; a read gives zeros after them.
pub(crate) fn has_file<M: Memory>(memory: &mut M, file: File) -> bool {
    let mut buffer = [0xa5; 16];
    let given = read(memory, file.name, 0, &mut buffer);
    let rest = buffer.strip_prefix(file.bytes);
    given == Ok(file.bytes.len()) && rest.is_some_and(|rest| rest.iter().all(|byte| *byte == 0))
}

// How many slots have a name.
pub(crate) fn count_files<M: Memory>(memory: &mut M) -> Result<usize, Fault> {
    let mut names = [0; 16];
    for (slot, name) in names.iter_mut().enumerate() {
        *name = memory.load(64 + 2 * slot as u64)?;
    }
    Ok(names.iter().filter(|name| **name != 0).count())
}

// Whether these files are there and no others.
pub(crate) fn has_only<M: Memory>(memory: &mut M, files: &[File]) -> Result<bool, Fault> {
    let all = files.iter().all(|file| has_file(memory, *file));
    Ok(all && count_files(memory)? == files.len())
}

// Tries a thing with 0, 1, .. `most` operations before power is lost, and answers whether it is not done with none of them and done with `most`.
// Each crate of tests has its own: a public function requires nothing, and so not that its closure can be called.
pub(crate) fn takes_up_to<F: FnMut(u64) -> Result<bool, Fail>>(
    most: u64,
    mut is_done: F,
) -> Result<bool, Fail>
    requires { F.IsAlwaysCallable is_done }
{
    if is_done(0)? {
        return Ok(false);
    }
    for operations in 1..most {
        let _ = is_done(operations)?;
    }
    is_done(most)
}
