ghost use Rattle.std.specs.Prelude.{◌≡◌, ◌*◌, ◌≤◌, ⊤};
ghost use Rattle.memory.specs.Model.{Model};
ghost use Rattle.layout.specs.Log.{Rule6};
ghost use Rattle.image_check.specs.Check.{PieceGood, Tries};
ghost use Rattle.image_check.specs.Files.{FilesOf};
ghost use Rattle.image_check.specs.Reading.{Looked};

use crate::file::File;
use crate::files::Files;
use crate::reading::load_word;
use crate::refusal::{Refusal, Rule};
use layout::log::{LogState, Mark, Piece};
use layout::place::{END_PIECE, LOG_MARK, LOG_STATE, START_PIECE};
use memory::memory::Memory;

impl File {
    // Tries rule 6 on a piece: it is none, or one to sixteen words that end inside a block of the file.
    fn check_piece<M: Memory>(&self, memory: &mut M, piece: u64) -> Result<(), Refusal>
        ghost first: { Model }
        requires looked { Looked first (M.Memory.model memory.old) }
        requires size { 32 * self.now.blocks ≤ first.count }
        ensures tries { Tries first 6 (PieceGood first.seen self.now.root piece) (λ _. ⊤) result (M.Memory.model memory.new) }
        ensures lent { M.Memory.lent memory.new ≡ M.Memory.lent memory.old }
    {
        let Some(
            Piece {
                block,
                first,
                count,
            },
        ) = Piece::from_word(piece)
        else {
            return Ok(());
        };
        if count < 1 || count > 16 || u16::from(first) + u16::from(count) > 32 {
            return Err(Refusal::BadImage(Rule::LogEntry));
        }
        let block = u64::from(block);
        if !self.any_block(memory, move |found| found == block)? {
            return Err(Refusal::BadImage(Rule::LogEntry));
        }
        Ok(())
    }

    // Tries rule 6 on both pieces of the log entry.
    fn check_pieces<M: Memory>(&self, memory: &mut M) -> Result<(), Refusal>
        ghost first: { Model }
        requires looked { Looked first (M.Memory.model memory.old) }
        requires size { 32 * self.now.blocks ≤ first.count }
        ensures tries { Tries first 6 (PieceGood first.seen self.now.root (first.seen 11) × PieceGood first.seen self.now.root (first.seen 12)) (λ _. ⊤) result (M.Memory.model memory.new) }
        ensures lent { M.Memory.lent memory.new ≡ M.Memory.lent memory.old }
    {
        let start = load_word(memory, START_PIECE)?;
        let end = load_word(memory, END_PIECE)?;
        self.check_piece(memory, start)?;
        self.check_piece(memory, end)
    }
}

impl Files {
    // Tries rule 6 on the log entry.
    pub(crate) fn check_entry<M: Memory>(&self, memory: &mut M) -> Result<(), Refusal>
        ghost first: { Model }
        requires looked { Looked first (M.Memory.model memory.old) }
        requires files { FilesOf first self.now }
        ensures tries { Tries first 6 (Rule6 first.seen) (λ _. ⊤) result (M.Memory.model memory.new) }
        ensures lent { M.Memory.lent memory.new ≡ M.Memory.lent memory.old }
    {
        let state = LogState::try_from(load_word(memory, LOG_STATE)?)?;
        if state == LogState::Free {
            return Ok(());
        }
        let mark = Mark::from(load_word(memory, LOG_MARK)?);
        let Some(file) = self.file(usize::from(mark.slot)) else {
            return Err(Refusal::BadImage(Rule::LogEntry));
        };
        file.check_pieces(memory)
    }
}
