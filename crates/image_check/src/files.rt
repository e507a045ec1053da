ghost use Rattle.std.specs.Prelude.{◌≡◌, ◌<◌, ◌≤◌, ◌≢◌, MatchOption};
ghost use Rattle.image_check.specs.Check.{RootGood, Rooted, Rooted-prop};
ghost use Rattle.image_check.specs.Directory.{slot_at};

use crate::directory::{Directory, Slot};
use crate::file::File;

// The files of a memory of 6 to 4,096 blocks, by root words that are good.
#[derive(Drop)]
pub(crate) struct Files {
    pub directory: Directory,
    pub blocks: u64,
    ghost some: { 6 ≤ blocks },
    ghost few: { blocks ≤ 4096 },
    ghost roots: { Rooted blocks directory } by { Rooted-prop blocks directory },
}

impl Files {
    // The file of a slot, unless the slot is empty.
    pub(crate) fn file_of(&self, slot: &Slot) -> Option<File>
        requires { RootGood self.now.blocks slot.now }
        ensures { MatchOption result (slot.now.name ≡ 0) (λ file. (slot.now.name ≢ 0) × (file.root ≡ slot.now.root) × (file.blocks ≡ self.now.blocks)) }
    {
        if slot.is_empty() {
            return None;
        }
        Some(File {
            root: slot.root,
            blocks: self.blocks,
        })
    }

    // The file in a slot, unless the slot is empty or past the last.
    pub(crate) fn file(&self, slot: usize) -> Option<File>
        ensures { MatchOption result (slot < 16 → (slot_at self.now.directory slot).name ≡ 0) (λ file. (slot < 16) × ((slot_at self.now.directory slot).name ≢ 0) × (file.root ≡ (slot_at self.now.directory slot).root) × (file.blocks ≡ self.now.blocks)) }
    {
        self.file_of(self.directory.slots.get(slot)?)
    }
}
