ghost use Rattle.std.specs.Prelude.{◌≡◌, ◌+◌, ◌*◌, ◌^◌, [], if◌then◌else◌, nat_eq};
ghost use Rattle.layout.specs.Table.{shorten};
ghost use Rattle.store.specs.Calls.{SlotCall, reply};

use crate::open::open_file;
use crate::phase::persist_word;
use image_check::refusal::Refusal;
use layout::name::Name;
use layout::root::Root;
use memory::memory::Memory;

// The root word of a file cut to that length; an empty file has no map.
fn short_root(root: Root, length: u32) -> u64
    ensures { result ≡ (if nat_eq length 0 then 0 else root.map + 2 ^ 32 * length) }
{
    if length == 0 {
        return 0;
    }
    u64::from(Root {
        map: root.map,
        length,
    })
}

// Keeps the first bytes of a file.
pub fn shorten<M: Memory>(memory: &mut M, name: Name, length: u32) -> Result<(), Refusal>
    ensures shortened { SlotCall (M.Memory.model memory.old) (shorten name length) (reply (λ _. []) result) (M.Memory.model memory.new) }
    ensures lent { M.Memory.lent memory.new ≡ M.Memory.lent memory.old }
{
    let file = open_file(memory, name)?;
    let root = file.root();
    if length > root.length {
        return Err(Refusal::TooLong);
    }
    persist_word(memory, file.root_place(), short_root(root, length))
}
