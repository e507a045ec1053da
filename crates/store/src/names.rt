ghost use Rattle.std.specs.Prelude.{◌≡◌, []};
ghost use Rattle.layout.specs.Table.{create, rename, remove};
ghost use Rattle.store.specs.Calls.{SlotCall, reply};

use crate::open::{find_empty, find_slot, open, open_file};
use crate::phase::persist_word;
use image_check::refusal::Refusal;
use layout::name::{Name, is_well_formed, name_word};
use layout::place::SLOTS;
use memory::memory::Memory;

// the name word of an empty slot
const EMPTY: u64 = 0;

// Makes an empty file of that name.
pub fn create<M: Memory>(memory: &mut M, name: Name) -> Result<(), Refusal>
    ensures created { SlotCall (M.Memory.model memory.old) (create name) (reply (λ _. []) result) (M.Memory.model memory.new) }
    ensures lent { M.Memory.lent memory.new ≡ M.Memory.lent memory.old }
{
    let directory = open(memory, &name)?;
    let word = name_word(name);
    if find_slot(&directory, word).is_some() {
        return Err(Refusal::NameTaken);
    }
    let Some(slot) = find_empty(&directory) else {
        return Err(Refusal::TooManyFiles);
    };
    persist_word(memory, SLOTS + (2 * slot as u64 + 1), 0)?;
    persist_word(memory, SLOTS + 2 * slot as u64, word)
}

// Gives a file another name.
pub fn rename<M: Memory>(memory: &mut M, name: Name, new: Name) -> Result<(), Refusal>
    ensures renamed { SlotCall (M.Memory.model memory.old) (rename name new) (reply (λ _. []) result) (M.Memory.model memory.new) }
    ensures lent { M.Memory.lent memory.new ≡ M.Memory.lent memory.old }
{
    if !is_well_formed(&new) {
        return Err(Refusal::BadName);
    }
    let file = open_file(memory, name)?;
    let word = name_word(new);
    if find_slot(&file.directory, word).is_some() {
        return Err(Refusal::NameTaken);
    }
    persist_word(memory, file.name_place(), word)
}

// Takes a file out.
pub fn remove<M: Memory>(memory: &mut M, name: Name) -> Result<(), Refusal>
    ensures removed { SlotCall (M.Memory.model memory.old) (remove name) (reply (λ _. []) result) (M.Memory.model memory.new) }
    ensures lent { M.Memory.lent memory.new ≡ M.Memory.lent memory.old }
{
    let file = open_file(memory, name)?;
    persist_word(memory, file.name_place(), EMPTY)
}
