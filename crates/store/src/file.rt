ghost use Rattle.std.specs.Prelude.{◌≡◌, ◌+◌, ◌*◌, ◌<◌};
ghost use Rattle.layout.specs.Packed.{RootIn};
ghost use Rattle.image_check.specs.Directory.{slot_at};

use image_check::directory::Directory;
use layout::place::SLOTS;
use layout::root::Root;

// A file that a call has found: the directory, and the slot that has its name.
#[derive(Clone, Copy)]
pub(crate) struct OpenFile {
    pub directory: Directory,
    pub slot: usize,
    ghost inside: { slot < 16 },
}

impl OpenFile {
    // The place of its name word.
    pub(crate) fn name_place(&self) -> u64
        ensures { result ≡ 64 + 2 * self.now.slot }
    {
        SLOTS + 2 * self.slot as u64
    }

    // The place of its root word.
    pub(crate) fn root_place(&self) -> u64
        ensures { result ≡ 64 + (2 * self.now.slot + 1) }
    {
        self.name_place() + 1
    }

    // Its map and its length.
    pub(crate) fn root(&self) -> Root
        ensures { RootIn (slot_at self.now.directory self.now.slot).root result }
    {
        Root::from(self.directory.slots[self.slot].root)
    }
}
