ghost use Rattle.std.specs.Prelude.{◌≡◌, ℕ, ◌<◌, ◌≤◌, List, [], ◌∷◌, ◌++◌, length, IfSome, OnOk, OnErr};
ghost use Rattle.std.specs.Io.KnownBytes.{Appends};
ghost use Rattle.std.specs.List.{concat};
ghost use Rattle.std.specs.Option.{option_map};
ghost use Rattle.console.specs.Turns.{Runs, Turned};

use crate::denial::Denial;
use crate::line::{LINE, write_line};
use crate::session::Session;
use memory::cut_point::CutPoint;
use std::io;
use std::io::Write;

// The length of the line that a turn wrote, and what it left of the input. A slice of the buffer in place of the length would end
// what is known of the buffer's other bytes.
#[derive(Clone, Copy)]
pub struct Turn<'a> {
    pub written: usize,
    pub rest: &'a [u8],
}

// Carries out the first command of the input and writes its line; none without input, or without room for a line.
pub fn take_turn<'a, M: CutPoint, S: Session<M>>(
    session: &mut S,
    memory: &mut M,
    input: &'a [u8],
    out: &mut [u8],
) -> Option<Turn<'a>>
    ensures turns { Turned S.first S.tells session.old memory.old input.now out.old (option_map (λ x. (x.written, x.rest.now)) result) session.new memory.new out.new }
    ensures shorter { IfSome result (λ x. length x.rest.now < length input.now) }
    ensures bound { IfSome result (λ x. x.written ≤ length out.new) }
    ensures lent { M.Memory.lent memory.new ≡ M.Memory.lent memory.old }
{
    if input.is_empty() || out.len() < LINE {
        return None;
    }
    let Some((command, rest)) = S::parse(input) else {
        let written = write_line(out, b'?', u8::from(Denial::BadCommand))?;
        return Some(Turn { written, rest: &[] });
    };
    let written = session.answer(memory, command, out)?;
    Some(Turn { written, rest })
}

// Runs the commands of an input on a memory, and writes the line of each; an error once a line cannot be written, so after a turn.
pub fn run<W: Write, M: CutPoint, S: Session<M>>(
    out: &mut W,
    session: &mut S,
    memory: &mut M,
    input: &[u8],
) -> io::Result<()>
    ensures made { (texts : List (List ℕ)) × (rest : List ℕ) × Runs S.first S.tells texts session.old memory.old input.now session.new memory.new rest }
    ensures says { OnOk result ((texts : List (List ℕ)) × Runs S.first S.tells texts session.old memory.old input.now session.new memory.new [] × Appends (W.contents out.old) (W.contents out.new) (concat texts)) }
    ensures fails { OnErr result ((texts : List (List ℕ)) × (last : List ℕ) × (rest : List ℕ) × Runs S.first S.tells (texts ++ last ∷ []) session.old memory.old input.now session.new memory.new rest) }
    ensures lent { M.Memory.lent memory.new ≡ M.Memory.lent memory.old }
{
    let mut line = [0u8; LINE];
    let mut rest = input;
    while let Some(turn) = take_turn(session, memory, rest, &mut line) {
        out.write_all(&line[..turn.written])?;
        rest = turn.rest;
    }
    Ok(())
}
