ghost use Rattle.std.specs.Prelude.{◌≡◌, ◌≤◌, true, ◌&&◌, ◌||◌, ◌==◌, is_some};
ghost use Rattle.layout.specs.Log.{state};
ghost use Rattle.layout.specs.Packed.{state_number};
ghost use Rattle.image_check.specs.Reading.{Reads};
ghost use Rattle.store.specs.LogEntry.{Tells};

use image_check::refusal::Refusal;
use layout::log::{LogState, Mark, Piece};
use layout::place::{END_PIECE, LOG_MARK, LOG_STATE, OLD_ROOT, START_PIECE};
use memory::memory::Memory;

// The log entry: its state, its mark, the old root word, and the two pieces.
#[derive(Clone, Copy)]
pub(crate) struct LogEntry {
    pub state: LogState,
    pub mark: Mark,
    pub old: u64,
    pub start: Option<Piece>,
    pub end: Option<Piece>,
}

impl LogEntry {
    // Whether the call that the entry tells of is to be undone, where its file has that root word now.
    pub(crate) fn is_undone(&self, root: u64) -> bool
        ensures { result ≡ (state_number self.entry.now.state == 1) || (state_number self.entry.now.state == 2 && self.entry.now.mark.follow && root == self.entry.now.old) }
    {
        match self.state {
            LogState::Free => false,
            LogState::Commit => true,
            LogState::Checkpoint => self.mark.follow && root == self.old,
        }
    }

    // Whether there is a piece.
    pub(crate) fn has_piece(&self) -> bool
        ensures { result ≡ is_some self.entry.now.start || is_some self.entry.now.end }
    {
        self.start.is_some() || self.end.is_some()
    }
}

// Loads the log entry of a memory that is up and whose log has a state.
pub(crate) fn load_log_entry<M: Memory>(memory: &mut M) -> Result<LogEntry, Refusal>
    requires up { (M.Memory.model memory.old).up ≡ true }
    requires inside { 96 ≤ (M.Memory.model memory.old).count }
    requires known { state (M.Memory.model memory.old).seen ≤ 2 }
    ensures reads { Reads (M.Memory.model memory.old) (Tells (M.Memory.model memory.old).seen) result (M.Memory.model memory.new) }
    ensures lent { M.Memory.lent memory.new ≡ M.Memory.lent memory.old }
{
    Ok(LogEntry {
        state: LogState::try_from(memory.load(LOG_STATE)?)?,
        mark: Mark::from(memory.load(LOG_MARK)?),
        old: memory.load(OLD_ROOT)?,
        start: Piece::from_word(memory.load(START_PIECE)?),
        end: Piece::from_word(memory.load(END_PIECE)?),
    })
}
