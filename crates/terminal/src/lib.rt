// What the programs of the sessions share: a session is served from a reader to a writer.
#![tactic(auto)]

ghost use Rattle.std.specs.Prelude.{◌≡◌, ◌⊎◌, ℕ, List, [], IfOk, OnOk};
ghost use Rattle.std.specs.Io.KnownBytes.{Appends};
ghost use Rattle.std.specs.List.{concat};
ghost use Rattle.terminal.specs.Serving.{Fresh, ReadFrom, Serves};

use console::session::Session;
use console::turn::run;
use layers::cache::Cache;
use media::lagging::LaggingMemory;
use std::alloc::{AllocError, Global};
use std::io;
use std::io::{Read, Write};

// the bytes of input that are read at most
const INPUT: u64 = 65536;

// the words of the memory: 64 blocks of 32
const WORDS: usize = 2048;

// which words of the memory keep their newest value when power is lost
const GIVEN: u8 = 85;

// Reads commands.
fn read<R: Read + Drop>(heap: Global, reader: R) -> io::Result<Vec<u8>>
    ensures { IfOk result (λ input. ReadFrom (R.remaining reader) input.items) }
{
    let mut input = Vec::new(heap);
    reader.take(INPUT).read_to_end(&mut input)?;
    Ok(input)
}

// A memory for a session.
fn fresh(heap: Global) -> Result<Cache<LaggingMemory>, AllocError>
    ensures { IfOk result Fresh }
{
    Ok(Cache::new(LaggingMemory::new(heap, WORDS, GIVEN)?))
}

// Reads commands, runs them in a session on a fresh memory, and writes the line of each.
pub fn serve<S: Session<Cache<LaggingMemory>>, R: Read + Drop, W: Write>(
    heap: Global,
    session: &mut S,
    reader: R,
    out: &mut W,
) -> anyhow::Result<()>
    ensures made { ((session.new ≡ session.old) × (out.new ≡ out.old)) ⊎ ((texts : List (List ℕ)) × (rest : List ℕ) × Serves S.first S.tells (R.remaining reader) texts session.old session.new rest) }
    ensures says { OnOk result ((texts : List (List ℕ)) × Serves S.first S.tells (R.remaining reader) texts session.old session.new [] × Appends (W.contents out.old) (W.contents out.new) (concat texts)) }
{
    let input = read(heap, reader)?;
    let mut memory = fresh(heap)?;
    run(out, session, &mut memory, &input)?;
    Ok(())
}

#[cfg(test)]
mod tests {
    use super::*;
    use console::state::State;
    use std::test::Fail;

    #[test]
    fn a_format_loses_power_at_the_cut_point(rt: HostRuntime) -> Result<(), Fail> {
        let mut out = Vec::new(rt.alloc());
        let commands = b"PFK\x03\x00FF".as_slice();
        serve(rt.alloc(), &mut State::Off, commands, &mut out)?;
        assert_eq!(rt; out.as_slice(), b"P 0\nF 0\nK 0\nF 1\nF 10\n".as_slice());
        Ok(())
    }
}
