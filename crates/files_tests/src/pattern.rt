use crate::bench::{B, store_words};
use memory::fault::Fault;
use memory::memory::Memory;
use std::array;
use std::process::Abort;
use store::read::read;

// Six blocks with two files: `B`, of 300 bytes, in slot 5, with its map in block 3 and its bytes in blocks 5 and 4;
// and `A`, which is empty, in slot 9.
const IMAGE: [(u64, u64); 6] = [
    (0, 6),
    (74, 0x42),
    (75, 0x0000_012c_0000_0003),
    (82, 0x41),
    (96, 5),
    (97, 4),
];

// Byte `at` of `B`; the bytes of its blocks past its end go on so. None is zero.
fn pattern(at: u64) -> u8 {
    (at % 251 + 1) as u8
}

// Word `k` of `B`.
fn file_word(k: u8) -> u64 {
    let at = 8 * u64::from(k);
    u64::from_le_bytes(array::from_fn(|i| pattern(at + i as u64)))
}

// Makes the image in a memory that is up and otherwise zero.
pub(crate) fn fill<M: Memory>(memory: &mut M) -> Result<(), Fault> {
    store_words(memory, &IMAGE)?;
    for k in 0..32u8 {
        memory.store(160 + u64::from(k), file_word(k))?;
        memory.store(128 + u64::from(k), file_word(32 + k))?;
    }
    Ok(())
}

// What a buffer held before a read.
pub(crate) const OLD: u8 = 0xa5;

// Checks a buffer that a read of `B` from an offset on filled: the bytes that were given, and zeros after them.
pub(crate) fn check_bytes(rt: &impl Abort, buffer: &[u8], offset: u32, given: usize) {
    for (k, byte) in buffer.iter().enumerate() {
        let expected = if k < given {
            pattern(u64::from(offset) + k as u64)
        } else {
            0
        };
        assert_eq!(rt; *byte, expected, "byte {k} from {offset} on");
    }
}

// Reads `B` from an offset on into a buffer of that size, and checks how many bytes are given, what they are, and that those behind the buffer stay.
pub(crate) fn check_given<M: Memory>(
    rt: &impl Abort,
    memory: &mut M,
    offset: u32,
    size: usize,
    given: usize,
) {
    let mut bytes = [OLD; 324];
    assert!(rt; size <= bytes.len());
    let buffer = &mut bytes[..size];
    let answer = read(memory, B, offset, buffer);
    assert_eq!(rt; answer, Ok(given), "{size} from {offset} on");
    check_bytes(rt, buffer, offset, given);
    for (k, byte) in bytes.iter().enumerate().skip(size) {
        assert_eq!(rt; *byte, OLD, "byte {k} from {offset} on");
    }
}

// Reads `B` from an offset on, where it has that length, and checks what is given.
pub(crate) fn check_read<M: Memory>(
    rt: &impl Abort,
    memory: &mut M,
    length: u32,
    offset: u32,
    size: usize,
) {
    let given = size.min(length.saturating_sub(offset) as usize);
    check_given(rt, memory, offset, size, given);
}
