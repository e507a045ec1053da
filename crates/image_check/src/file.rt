ghost use Rattle.std.specs.Prelude.{◌≡◌, ◌*◌, ◌<◌, ◌≤◌};
ghost use Rattle.memory.specs.Model.{Model};
ghost use Rattle.layout.specs.Image.{in_block, map_of, length_of};
ghost use Rattle.layout.specs.Touch.{blocks_for};
ghost use Rattle.image_check.specs.Check.{AnyBlock};
ghost use Rattle.image_check.specs.Reading.{Looked, Since, Reads};

use crate::reading::load_word;
use crate::refusal::Refusal;
use layout::place::{BLOCK_BYTES, BLOCK_WORDS};
use layout::root::Root;
use memory::memory::Memory;

// A file by its root word, in a memory of so many blocks: its map is one of them, and it is not too long.
// The memory is lent to each method: held in a struct, each would have to say that its loan and its blocks
// stay, which is more than the one clause on its size.
#[derive(Clone, Copy)]
pub(crate) struct File {
    pub root: u64,
    pub blocks: u64,
    ghost few: { blocks ≤ 4096 },
    ghost inside: { map_of root < blocks },
    ghost short: { length_of root ≤ 8192 },
}

impl File {
    // The block of its map.
    pub(crate) fn map(&self) -> u64
        ensures { result ≡ map_of self.now.root }
    {
        u64::from(Root::from(self.root).map)
    }

    // How many blocks hold its bytes.
    pub(crate) fn length_in_blocks(&self) -> u64
        ensures { result ≡ blocks_for (length_of self.now.root) }
    {
        u64::from(Root::from(self.root).length).div_ceil(BLOCK_BYTES)
    }

    // The number of its block k.
    pub(crate) fn load_block<M: Memory>(&self, memory: &mut M, k: u64) -> Result<u64, Refusal>
        ghost first: { Model }
        requires since { Since first (M.Memory.model memory.old) }
        requires size { 32 * self.now.blocks ≤ first.count }
        requires counts { k < blocks_for (length_of self.now.root) }
        ensures reads { Reads first (λ block. block ≡ in_block first.seen (map_of self.now.root) k) result (M.Memory.model memory.new) }
        ensures lent { M.Memory.lent memory.new ≡ M.Memory.lent memory.old }
    {
        load_word(memory, BLOCK_WORDS * self.map() + k)
    }

    // Whether the test holds of one of its blocks. They are loaded in order, up to the first such.
    // A call that passes a closure cannot choose the ghost value `first` for the callee, so the clause holds for every `first`.
    pub(crate) fn any_block<M: Memory, F: Fn(u64) -> bool>(
        &self,
        memory: &mut M,
        test: F,
    ) -> Result<bool, Refusal>
        requires size { 32 * self.now.blocks ≤ (M.Memory.model memory.old).count }
        requires callable { F.IsAlwaysCallable test }
        ensures reads { (first : Model) → Looked first (M.Memory.model memory.old) → Reads first (AnyBlock (F.post test) first.seen self.now.root) result (M.Memory.model memory.new) }
        ensures lent { M.Memory.lent memory.new ≡ M.Memory.lent memory.old }
    {
        for k in 0..self.length_in_blocks() {
            if test(self.load_block(memory, k)?) {
                return Ok(true);
            }
        }
        Ok(false)
    }
}
