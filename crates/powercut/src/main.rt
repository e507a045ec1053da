#![tactic(auto)]

ghost use Rattle.std.specs.Prelude.{List};
ghost use Rattle.life.specs.Life.{Event};

use image_check::refusal::Refusal;
use layers::part::Run;
use life::answer::{Answer, Denial};
use life::call::Call;
use life::live::live;
use life::witness::Witness;
use media::lagging::LaggingMemory;
use memory::cut_point::CutPoint;
use memory::memory::Memory;
use piles::pile::Pile;
use std::alloc::Global;
use std::io::Write;
use store::change::Change;

// the words of the memory: eight blocks of 32
const WORDS: usize = 256;

// the words that the store sees: six blocks, from the second on
const STORE: Run = Run {
    first: 32,
    count: 192,
};

// the operations that format takes of the memory: 35 stores and 3 barriers
const FORMAT: u64 = 38;

// How many calls were told, and how many of them were answered by 2, a bad image.
#[derive(Drop)]
struct Tally {
    told: u64,
    bad: u64,
}

impl<M: Memory> Witness<M> for Tally {
    ghost told = { λ s es. Unit {0} };

    fn note(&mut self, _call: Call, answer: Answer, _buffer: &[u8], _memory: &M) {
        self.told = self.told.saturating_add(1);
        if let Err(Denial::Refused(Refusal::BadImage(_))) = answer {
            self.bad = self.bad.saturating_add(1);
        }
    }
}

// A life in which power is lost after so many operations: files are made, renamed, cut and removed, and looked at after a recovery.
fn live_once(heap: Global, given: u8, operations: u64, tally: &mut Tally) -> anyhow::Result<()> {
    let base = Pile::base(LaggingMemory::new(heap, WORDS, given)?);
    let part = Pile::part_of(heap, base, STORE)?;
    let mut memory = Pile::cached(heap, part)?;
    memory.restart();
    memory.cut_after(Some(operations));
    let a = *b"A\0\0\0\0\0\0\0";
    let b = *b"B\0\0\0\0\0\0\0";
    let calls = [
        Call::Recover,
        Call::Change(Change::Create(a)),
        Call::Change(Change::Rename { name: a, new: b }),
        Call::Change(Change::Create(a)),
        Call::Change(Change::Remove(b)),
        Call::Change(Change::Shorten { name: a, length: 0 }),
        Call::Restart,
        Call::Recover,
        Call::Read { name: a, offset: 0 },
        Call::Read { name: b, offset: 0 },
    ];
    let mut buffer = [0; 4];
    // a format that is refused is no life, and there is nothing to tell
    let _ = live(&mut memory, &calls, &mut buffer, tally);
    Ok(())
}

fn main(rt: HostRuntime) -> anyhow::Result<()> {
    let heap = rt.alloc();
    let mut tally = Tally { told: 0, bad: 0 };
    for given in [0, 85, 170, 255] {
        for operations in FORMAT..FORMAT + 262 {
            live_once(heap, given, operations, &mut tally)?;
        }
    }
    writeln!(
        rt.stdout(),
        "{} calls told, {} bad images",
        tally.told,
        tally.bad
    )?;
    Ok(())
}
