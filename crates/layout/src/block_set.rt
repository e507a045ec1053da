ghost use Rattle.std.specs.Prelude.{◌≡◌, ℕ, false, not, ◌&&◌, ◌||◌, ◌==◌, nat_lt};
ghost use Rattle.layout.specs.BlockSet.{has};

use crate::place::MOST_BLOCKS;

// A set of blocks: block b is in it if bit (b mod 64) of word (b / 64) is one. It has 512 bytes; a `bool` for each block would take eight
// times that.
#[derive(Drop)]
pub struct BlockSet {
    words: [u64; 64],
}

impl BlockSet {
    // The empty set.
    pub fn new() -> BlockSet
        ensures { (b : ℕ) → has result b ≡ false }
    {
        BlockSet { words: [0; 64] }
    }

    // Whether the block is in the set; no block past 4,095 is.
    pub fn contains(&self, block: u64) -> bool
        ensures { result ≡ has self.now block }
    {
        block < MOST_BLOCKS && (self.words[(block / 64) as usize] >> (block % 64)) & 1 == 1
    }

    // Puts a block below 4,096 into the set, and answers whether it was not yet there.
    pub fn insert(&mut self, block: u64) -> bool
        ensures value { result ≡ (nat_lt block 4096 && not (has self.old block)) }
        ensures after { (b : ℕ) → has self.new b ≡ (has self.old b || (b == block && nat_lt block 4096)) }
    {
        if block >= MOST_BLOCKS || self.contains(block) {
            return false;
        }
        self.words[(block / 64) as usize] |= 1 << (block % 64);
        true
    }
}
