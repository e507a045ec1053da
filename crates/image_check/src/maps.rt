ghost use Rattle.std.specs.Prelude.{◌≡◌, ◌*◌, ◌≤◌, ⊤};
ghost use Rattle.memory.specs.Model.{Model};
ghost use Rattle.layout.specs.Image.{map_of, length_of, Rule4};
ghost use Rattle.image_check.specs.Check.{MapGood, Tries};
ghost use Rattle.image_check.specs.Files.{FilesOf};
ghost use Rattle.image_check.specs.Reading.{Looked};

use crate::directory::is_data_block;
use crate::file::File;
use crate::files::Files;
use crate::refusal::{Refusal, Rule};
use memory::memory::Memory;

impl File {
    // Tries rule 4 on the file: the map words that count are data blocks.
    fn check_map<M: Memory>(&self, memory: &mut M) -> Result<(), Refusal>
        ghost first: { Model }
        requires looked { Looked first (M.Memory.model memory.old) }
        requires size { 32 * self.now.blocks ≤ first.count }
        ensures tries { Tries first 4 (MapGood self.now.blocks first.seen (map_of self.now.root) (length_of self.now.root)) (λ _. ⊤) result (M.Memory.model memory.new) }
        ensures lent { M.Memory.lent memory.new ≡ M.Memory.lent memory.old }
    {
        let blocks = self.blocks;
        if self.any_block(memory, move |block| !is_data_block(block, blocks))? {
            return Err(Refusal::BadImage(Rule::Maps));
        }
        Ok(())
    }
}

impl Files {
    // Tries rule 4 on each file.
    pub(crate) fn check_maps<M: Memory>(&self, memory: &mut M) -> Result<(), Refusal>
        ghost first: { Model }
        requires looked { Looked first (M.Memory.model memory.old) }
        requires files { FilesOf first self.now }
        ensures tries { Tries first 4 (Rule4 self.now.blocks first.seen) (λ _. ⊤) result (M.Memory.model memory.new) }
        ensures lent { M.Memory.lent memory.new ≡ M.Memory.lent memory.old }
    {
        for slot in &self.directory.slots {
            if let Some(file) = self.file_of(slot) {
                file.check_map(memory)?;
            }
        }
        Ok(())
    }
}
