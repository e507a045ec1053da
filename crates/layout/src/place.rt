ghost use Rattle.std.specs.Prelude.{◌≡◌, ◌/◌, ◌%◌};

// the words of a block
pub const BLOCK_WORDS: u64 = 32;

// the bytes of a block
pub const BLOCK_BYTES: u64 = 256;

// the most blocks of a memory, and of a set
pub const MOST_BLOCKS: u64 = 4096;

// the word that holds the count of blocks
pub const BLOCK_COUNT: u64 = 0;

// the first word of the log entry, which holds its state
pub const LOG_STATE: u64 = 8;

// the word that holds its mark
pub const LOG_MARK: u64 = 9;

// the word that holds the root word from before the call
pub const OLD_ROOT: u64 = 10;

// the word that holds its start piece
pub const START_PIECE: u64 = 11;

// the word that holds its end piece
pub const END_PIECE: u64 = 12;

// the first of the words where the log keeps the old ones of the start piece
pub const OLD_START: u64 = 32;

// the first of those of the end piece
pub const OLD_END: u64 = 48;

// the first word of the sixteen slots; the name word of a slot is followed by its root word
pub const SLOTS: u64 = 64;

// the word after the last of the slots
pub const SLOTS_END: u64 = 96;

// The index of the block that a byte of a file lies in, and its place in the block.
pub fn split(offset: u64) -> (u64, u64)
    ensures block { result.0 ≡ offset / 256 }
    ensures place { result.1 ≡ offset % 256 }
{
    (offset / BLOCK_BYTES, offset % BLOCK_BYTES)
}
