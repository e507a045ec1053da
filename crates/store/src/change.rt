ghost use Rattle.std.specs.Prelude.{◌≡◌, []};
ghost use Rattle.store.specs.Calls.{SlotCall, reply};
ghost use Rattle.store.specs.Change.{asks};

use crate::names::{create, remove, rename};
use crate::shorten::shorten;
use image_check::refusal::Refusal;
use layout::name::Name;
use memory::memory::Memory;

// A file call that changes a slot of the directory.
#[derive(Clone, Copy, PartialEq, Eq, Debug)]
pub enum Change {
    // make an empty file of that name
    Create(Name),
    // give a file another name
    Rename { name: Name, new: Name },
    // take a file out
    Remove(Name),
    // keep the first bytes of a file
    Shorten { name: Name, length: u32 },
}

impl Change {
    // Makes the call.
    pub fn apply<M: Memory>(self, memory: &mut M) -> Result<(), Refusal>
        ensures applied { SlotCall (M.Memory.model memory.old) (asks self) (reply (λ _. []) result) (M.Memory.model memory.new) }
        ensures lent { M.Memory.lent memory.new ≡ M.Memory.lent memory.old }
    {
        match self {
            Change::Create(name) => create(memory, name),
            Change::Rename { name, new } => rename(memory, name, new),
            Change::Remove(name) => remove(memory, name),
            Change::Shorten { name, length } => shorten(memory, name, length),
        }
    }
}
