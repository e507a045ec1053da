ghost use Rattle.std.specs.Prelude.{◌≡◌, Some};
ghost use Rattle.layout.specs.Packed.{state_number, StateIn, unknown_text, MarkIn, MarkWord, PieceIn, PieceWord};

use std::error::Error;
use std::fmt;

// What the log tells of the last call.
#[derive(Clone, Copy, PartialEq, Eq, Debug)]
pub enum LogState {
    // nothing is to be undone
    Free,
    // the call is undone at recovery
    Commit,
    // it is undone if a new root word was to follow, and the old one is still there
    Checkpoint,
}

// A number that is no state's.
#[derive(Clone, Copy, PartialEq, Eq, Debug)]
pub struct UnknownState(pub u64);

impl fmt::Display for UnknownState {
    ghost output = { λ e. Some (unknown_text e) };

    fn fmt<W: fmt::Write>(&self, f: &mut fmt::Formatter<W>) -> fmt::Result {
        write!(f, "no state of the log has number {}", self.0)
    }
}

impl Error for UnknownState {}

// The state of that number, 0 to 2; a larger number is no state.
impl TryFrom<u64> for LogState {
    type Error = UnknownState;

    ghost try_from_gives = { StateIn };

    fn try_from(word: u64) -> Result<LogState, UnknownState> {
        match word {
            0 => Ok(LogState::Free),
            1 => Ok(LogState::Commit),
            2 => Ok(LogState::Checkpoint),
            _ => Err(UnknownState(word)),
        }
    }
}

// The number of the state.
impl From<LogState> for u64 {
    ghost from_gives = { λ state word. word ≡ state_number state };

    fn from(state: LogState) -> u64 {
        match state {
            LogState::Free => 0,
            LogState::Commit => 1,
            LogState::Checkpoint => 2,
        }
    }
}

// The slot of the file that was called on, and whether a new root word was to follow.
#[derive(Clone, Copy, PartialEq, Eq, Debug)]
pub struct Mark {
    pub slot: u8,
    pub follow: bool,
}

// The lowest eight bits are the slot, the next one is the follow mark.
impl From<u64> for Mark {
    ghost from_gives = { MarkIn };

    fn from(word: u64) -> Mark {
        Mark {
            slot: (word & 0xff) as u8,
            follow: (word >> 8) & 1 == 1,
        }
    }
}

// The word of the mark, with zeros above bit 8.
impl From<Mark> for u64 {
    ghost from_gives = { MarkWord };

    fn from(mark: Mark) -> u64 {
        (u64::from(mark.follow) << 8) | u64::from(mark.slot)
    }
}

// Words of a block whose old values the log holds: the first of them, and how many.
#[derive(Clone, Copy, PartialEq, Eq, Debug)]
pub struct Piece {
    pub block: u16,
    pub first: u8,
    pub count: u8,
}

impl Piece {
    // Takes the block from bits 0 to 15, the first word from bits 16 to 23 and the count from bits 24 to 31; none if all are zero, which is no error.
    pub fn from_word(word: u64) -> Option<Piece>
        ensures { PieceIn word result }
    {
        if word & 0xffff_ffff == 0 {
            return None;
        }
        Some(Piece {
            block: (word & 0xffff) as u16,
            first: ((word >> 16) & 0xff) as u8,
            count: ((word >> 24) & 0xff) as u8,
        })
    }
}

// The word of the piece, with zeros above bit 31.
impl From<Piece> for u64 {
    ghost from_gives = { PieceWord };

    fn from(piece: Piece) -> u64 {
        (u64::from(piece.count) << 24) | (u64::from(piece.first) << 16) | u64::from(piece.block)
    }
}
