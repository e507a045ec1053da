ghost use Rattle.std.specs.Prelude.{◌≤◌, vec_items, vec_len};
ghost use Rattle.media.specs.Cells.{AlikeFrom};

use crate::power::Power;

pub mod words;

// A word as it is seen, and as it is kept without power.
#[derive(Clone, Copy)]
struct Cell {
    seen: u64,
    kept: u64,
}

// A memory whose stores lag: the words seen and the words kept lie apart until a barrier.
#[derive(Drop)]
pub struct LaggingMemory {
    cells: Vec<Cell>,
    // how many cells, from the first on, may lag; a barrier and a restart pass the others over
    lag: usize,
    // which words keep their newest value at a restart: word i by bit (i mod 8)
    given: u8,
    power: Power,
    ghost inside: { lag ≤ vec_len cells },
    ghost alike: { AlikeFrom lag (vec_items cells) },
}
