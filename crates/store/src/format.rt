ghost use Rattle.std.specs.Prelude.{◌≡◌, ◌≤◌};
ghost use Rattle.store.specs.Format.{clearing, Formats};
ghost use Rattle.store.specs.Phase.{Persisted};

use crate::phase::{clear_run, persist_word, settle, store_word};
use image_check::refusal::Refusal;
use image_check::size::blocks_in;
use layout::log::LogState;
use layout::place::{BLOCK_COUNT, LOG_STATE, SLOTS, SLOTS_END};
use memory::memory::Memory;

// The phase that clears the state of the log and the slots.
fn clear<M: Memory>(memory: &mut M) -> Result<(), Refusal>
    requires { 96 ≤ (M.Memory.model memory.old).count }
    ensures done { Persisted (M.Memory.model memory.old) clearing result (M.Memory.model memory.new) }
    ensures lent { M.Memory.lent memory.new ≡ M.Memory.lent memory.old }
{
    store_word(memory, LOG_STATE, u64::from(LogState::Free))?;
    clear_run(memory, SLOTS, SLOTS_END)?;
    settle(memory)
}

// Makes an empty store of a memory of 6 to 4,096 whole blocks.
pub fn format<M: Memory>(memory: &mut M) -> Result<(), Refusal>
    ensures formats { Formats (M.Memory.model memory.old) result (M.Memory.model memory.new) }
    ensures lent { M.Memory.lent memory.new ≡ M.Memory.lent memory.old }
{
    let Some(blocks) = blocks_in(memory.count()) else {
        return Err(Refusal::WrongSize);
    };
    persist_word(memory, BLOCK_COUNT, 0)?;
    clear(memory)?;
    persist_word(memory, BLOCK_COUNT, blocks)
}
