ghost use Rattle.std.specs.Prelude.{◌≡◌, ◌+◌, ◌≤◌, true};
ghost use Rattle.layout.specs.Cases.{Every, Right, cases};
ghost use Rattle.layout.specs.Image.{root_word};
ghost use Rattle.layout.specs.Log.{log_slot, undoing};
ghost use Rattle.store.specs.LogEntry.{putting};
ghost use Rattle.store.specs.Phase.{Storing, Persisted};
ghost use Rattle.store.specs.Recover.{Puttable, Undoable, TakenBack, Recovers};

use crate::log_entry::{LogEntry, load_log_entry};
use crate::phase::{copy_run, persist_word, settle};
use image_check::image::survey_image;
use image_check::refusal::Refusal;
use layout::log::{LogState, Piece};
use layout::place::{BLOCK_WORDS, LOG_STATE, OLD_END, OLD_START};
use memory::memory::Memory;

// Puts the words of a piece back from where the log keeps the old ones.
fn put_back<M: Memory>(memory: &mut M, piece: Option<Piece>, old: u64) -> Result<(), Refusal>
    requires up { (M.Memory.model memory.old).up ≡ true }
    requires log { old + 16 ≤ 64 }
    requires piece { Puttable (M.Memory.model memory.old).count piece }
    ensures made { Storing (M.Memory.model memory.old) (putting (M.Memory.model memory.old).seen piece old) result (M.Memory.model memory.new) }
    ensures lent { M.Memory.lent memory.new ≡ M.Memory.lent memory.old }
{
    let Some(piece) = piece else {
        return Ok(());
    };
    let to = BLOCK_WORDS * u64::from(piece.block) + u64::from(piece.first);
    copy_run(memory, old, to, u64::from(piece.count))
}

// The phase that puts both pieces back, the start piece first.
fn undo<M: Memory>(memory: &mut M, entry: &LogEntry) -> Result<(), Refusal>
    requires { Undoable (M.Memory.model memory.old) entry.now }
    ensures done { Persisted (M.Memory.model memory.old) (undoing (M.Memory.model memory.old).seen) result (M.Memory.model memory.new) }
    ensures lent { M.Memory.lent memory.new ≡ M.Memory.lent memory.old }
{
    put_back(memory, entry.start, OLD_START)?;
    put_back(memory, entry.end, OLD_END)?;
    settle(memory)
}

// Puts the pieces back if the call is to be undone, and answers whether there were any.
fn take_back<M: Memory>(memory: &mut M, entry: &LogEntry, root: u64) -> Result<bool, Refusal>
    requires entry { Undoable (M.Memory.model memory.old) entry.now }
    requires root { root ≡ root_word (M.Memory.model memory.old).seen (log_slot (M.Memory.model memory.old).seen) }
    ensures taken { TakenBack (M.Memory.model memory.old) result (M.Memory.model memory.new) }
    ensures lent { M.Memory.lent memory.new ≡ M.Memory.lent memory.old }
{
    if !entry.is_undone(root) {
        return Ok(false);
    }
    undo(memory, entry)?;
    Ok(entry.has_piece())
}

// Makes the image of a memory ready for file calls after power was lost, and answers whether pieces were put back.
pub fn recover<M: Memory>(memory: &mut M) -> Result<bool, Refusal>
    ensures recovers { Recovers (M.Memory.model memory.old) result (M.Memory.model memory.new) }
    ensures cases { Every Right cases }
    ensures lent { M.Memory.lent memory.new ≡ M.Memory.lent memory.old }
{
    let survey = survey_image(memory)?;
    // The check has loaded these words, too; a cut point counts the loads, so they stay.
    let entry = load_log_entry(memory)?;
    if entry.state == LogState::Free {
        return Ok(false);
    }
    let root = survey.directory.slots[usize::from(entry.mark.slot)].root;
    let put = take_back(memory, &entry, root)?;
    persist_word(memory, LOG_STATE, u64::from(LogState::Free))?;
    Ok(put)
}
