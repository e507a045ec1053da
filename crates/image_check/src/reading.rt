ghost use Rattle.std.specs.Prelude.{◌≡◌, ◌<◌, ◌≤◌};
ghost use Rattle.memory.specs.Model.{Model};
ghost use Rattle.image_check.specs.Reading.{Looked, Since, Reads};
ghost use Rattle.image_check.specs.Directory.{Lists, slot_of};

use crate::directory::{Directory, Slot};
use crate::refusal::Refusal;
use layout::place::SLOTS;
use memory::memory::Memory;

// Power may be lost at each load, and the memory is lent: so that it is as at the first step, and has the words that are loaded, is
// asked of each, and held by no type.

// The value seen in a word of the memory.
pub(crate) fn load_word<M: Memory>(memory: &mut M, at: u64) -> Result<u64, Refusal>
    ghost first: { Model }
    requires since { Since first (M.Memory.model memory.old) }
    requires inside { at < first.count }
    ensures reads { Reads first (λ v. v ≡ first.seen at) result (M.Memory.model memory.new) }
    ensures lent { M.Memory.lent memory.new ≡ M.Memory.lent memory.old }
{
    Ok(memory.load(at)?)
}

// Loads the two words of a slot.
fn load_slot<M: Memory>(memory: &mut M, s: usize) -> Result<Slot, Refusal>
    ghost first: { Model }
    requires looked { Looked first (M.Memory.model memory.old) }
    requires inside { 96 ≤ first.count }
    requires slot { s < 16 }
    ensures reads { Reads first (λ slot. slot ≡ slot_of first.seen s) result (M.Memory.model memory.new) }
    ensures lent { M.Memory.lent memory.new ≡ M.Memory.lent memory.old }
{
    let at = SLOTS + 2 * s as u64;
    let name = load_word(memory, at)?;
    let root = load_word(memory, at + 1)?;
    Ok(Slot { name, root })
}

// Loads the directory of a memory that is up.
pub(crate) fn load_directory<M: Memory>(memory: &mut M) -> Result<Directory, Refusal>
    ghost first: { Model }
    requires looked { Looked first (M.Memory.model memory.old) }
    requires inside { 96 ≤ first.count }
    ensures reads { Reads first (Lists first.seen) result (M.Memory.model memory.new) }
    ensures lent { M.Memory.lent memory.new ≡ M.Memory.lent memory.old }
{
    let mut slots = [Slot { name: 0, root: 0 }; 16];
    for (s, slot) in slots.iter_mut().enumerate() {
        *slot = load_slot(memory, s)?;
    }
    Ok(Directory { slots })
}
