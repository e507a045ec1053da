ghost use Rattle.std.specs.Prelude.{◌≡◌, ℕ, ◌*◌, ◌<◌, ◌≤◌, true, false, List, [], ◌∷◌, ◌++◌, MatchResult};
ghost use Rattle.memory.specs.Model.{Model};
ghost use Rattle.layout.specs.Image.{file_blocks, used_blocks, map_of, length_of, Rule4, Rule5};
ghost use Rattle.layout.specs.Lists.{distinct};
ghost use Rattle.image_check.specs.Check.{MapGood, HasAll, HasOnce, Tries};
ghost use Rattle.image_check.specs.Files.{FilesOf};
ghost use Rattle.image_check.specs.Reading.{Looked};
ghost use Rattle.image_check.specs.declared.refusal.Refusal.TheVariants.{BadImage};
ghost use Rattle.image_check.specs.declared.refusal.Rule.TheVariants.{Blocks};

use crate::file::File;
use crate::files::Files;
use crate::refusal::{Refusal, Rule};
use layout::block_set::BlockSet;
use memory::memory::Memory;

// Puts a block into the set of those in use, unless it is there already.
fn add_block(set: &mut BlockSet, block: u64) -> Result<(), Refusal>
    requires { block < 4096 }
    ensures { (xs : List ℕ) → HasOnce set.old xs → MatchResult result (λ _. HasOnce set.new (xs ++ block ∷ [])) (λ e. (e ≡ BadImage Blocks) × (distinct (xs ++ block ∷ []) ≡ false)) }
{
    if !set.insert(block) {
        return Err(Refusal::BadImage(Rule::Blocks));
    }
    Ok(())
}

impl File {
    // Tries rule 5 on a file that is not empty: its map and its blocks are none of the set, and are put into it.
    fn add_blocks<M: Memory>(&self, memory: &mut M, set: &mut BlockSet) -> Result<(), Refusal>
        ghost first: { Model }
        requires looked { Looked first (M.Memory.model memory.old) }
        requires size { 32 * self.now.blocks ≤ first.count }
        requires good { MapGood self.now.blocks first.seen (map_of self.now.root) (length_of self.now.root) }
        ensures tries { (xs : List ℕ) → HasOnce set.old xs → let all = xs ++ map_of self.now.root ∷ file_blocks first.seen self.now.root in Tries first 5 (distinct all ≡ true) (λ _. HasAll set.new all) result (M.Memory.model memory.new) }
        ensures lent { M.Memory.lent memory.new ≡ M.Memory.lent memory.old }
    {
        add_block(set, self.map())?;
        // A loop, and no `any_block`: nothing is known of what a test changed that was passed by value,
        // so what `set` holds afterwards stays open.
        for k in 0..self.length_in_blocks() {
            add_block(set, self.load_block(memory, k)?)?;
        }
        Ok(())
    }
}

impl Files {
    // Tries rule 5 once rule 4 holds, and answers the blocks in use.
    pub(crate) fn used_blocks<M: Memory>(&self, memory: &mut M) -> Result<BlockSet, Refusal>
        ghost first: { Model }
        requires looked { Looked first (M.Memory.model memory.old) }
        requires files { FilesOf first self.now }
        requires maps { Rule4 self.now.blocks first.seen }
        ensures tries { Tries first 5 (Rule5 first.seen) (λ set. HasAll set (used_blocks first.seen)) result (M.Memory.model memory.new) }
        ensures lent { M.Memory.lent memory.new ≡ M.Memory.lent memory.old }
    {
        let mut set = BlockSet::new();
        for slot in &self.directory.slots {
            let Some(file) = self.file_of(slot) else {
                continue;
            };
            if file.root == 0 {
                continue;
            }
            file.add_blocks(memory, &mut set)?;
        }
        Ok(set)
    }
}
