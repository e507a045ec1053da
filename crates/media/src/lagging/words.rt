ghost use Rattle.std.specs.Prelude.{◌≡◌, ℕ, ◌<◌, ◌≤◌, true, false, length, replicate, is_ok, IfOk, if◌then◌else◌, None, vec_len, nat_lt, refl};
ghost use Rattle.std.proofs.Common.{inl};
ghost use Rattle.memory.specs.Model.{Loaded, Stored, Flushed, Restarted};
ghost use Rattle.media.specs.Power.{spent, answer, power_after};
ghost use Rattle.media.specs.Cells.{AlikeFrom, both, cell_at};
ghost use Rattle.media.specs.Lagging.{lagging_model, newest, none_lent, survivor, with_seen};

use crate::lagging::{Cell, LaggingMemory};
use crate::power::Power;
use memory::cut_point::CutPoint;
use memory::fault::Fault;
use memory::memory::Memory;
use std::alloc::{AllocError, Global};

// Whether word i keeps its newest value at a restart.
fn keeps_newest(given: u8, i: usize) -> bool
    ensures { result ≡ newest given i }
{
    (given >> (i % 8)) % 2 == 1
}

// Leaves each word the value that survives, both seen and kept. Where nothing lags they are one value already.
fn settle(cells: &mut [Cell], lag: usize, given: u8)
    requires inside { lag ≤ length cells.old }
    requires alike { AlikeFrom lag cells.old }
    ensures { (i : ℕ) → i < length cells.old → cell_at cells.new i ≡ both (survivor given i (cell_at cells.old i)) }
{
    for (i, cell) in cells[..lag].iter_mut().enumerate() {
        let word = if keeps_newest(given, i) {
            cell.seen
        } else {
            cell.kept
        };
        *cell = Cell {
            seen: word,
            kept: word,
        };
    }
}

// Keeps each word as it is seen. Where nothing lags it is kept so already.
fn keep(cells: &mut [Cell], lag: usize)
    requires inside { lag ≤ length cells.old }
    requires alike { AlikeFrom lag cells.old }
    ensures { (i : ℕ) → i < length cells.old → cell_at cells.new i ≡ both (cell_at cells.old i).seen }
{
    for cell in &mut cells[..lag] {
        cell.kept = cell.seen;
    }
}

impl LaggingMemory {
    // A memory of so many words, all zero, with its power still off.
    pub fn new(heap: Global, count: usize, given: u8) -> Result<LaggingMemory, AllocError>
        ensures cells { IfOk result (λ m. m.cells.items ≡ replicate count (both 0)) }
        ensures given { IfOk result (λ m. m.given ≡ given) }
        ensures power { IfOk result (λ m. m.power ≡ record { up = false; cut = None }) }
    {
        Ok(LaggingMemory {
            cells: vec![in heap; Cell { seen: 0, kept: 0 }; count]?,
            lag: 0,
            given,
            power: Power::OFF,
        })
    }
}

impl Memory for LaggingMemory {
    ghost model = { lagging_model };

    ghost seen_may = { λ s i lt. inl refl };

    ghost lent = { none_lent };

    fn count(&self) -> u64
        ensures { result ≡ vec_len self.now.cells }
    {
        self.cells.len() as u64
    }

    fn is_up(&self) -> bool
        ensures { result ≡ self.now.power.up }
    {
        self.power.up
    }

    fn load(&mut self, at: u64) -> Result<u64, Fault>
        ensures gives { Loaded (lagging_model self.old) at result (lagging_model self.new) }
        ensures same { none_lent self.new ≡ none_lent self.old }
        ensures value { result ≡ answer self.old.power (nat_lt at (vec_len self.old.cells)) (cell_at self.old.cells.items at).seen }
        ensures power { self.new.power ≡ power_after self.old.power (nat_lt at (vec_len self.old.cells)) }
        ensures cells { self.new.cells.items ≡ self.old.cells.items }
        ensures given { self.new.given ≡ self.old.given }
    {
        let inside = at < self.count();
        self.power.admit(inside)?;
        Ok(self.cells[at as usize].seen)
    }

    fn store(&mut self, at: u64, value: u64) -> Result<(), Fault>
        ensures gives { Stored (lagging_model self.old) at value result (lagging_model self.new) }
        ensures same { none_lent self.new ≡ none_lent self.old }
        ensures value { result ≡ answer self.old.power (nat_lt at (vec_len self.old.cells)) tt }
        ensures power { self.new.power ≡ power_after self.old.power (nat_lt at (vec_len self.old.cells)) }
        ensures cells { self.new.cells.items ≡ (if is_ok result then with_seen self.old.cells.items at value else self.old.cells.items) }
        ensures given { self.new.given ≡ self.old.given }
    {
        let inside = at < self.count();
        self.power.admit(inside)?;
        if self.lag <= at as usize {
            self.lag = at as usize + 1;
        }
        self.cells[at as usize].seen = value;
        Ok(())
    }

    fn barrier(&mut self) -> Result<(), Fault>
        ensures gives { Flushed (lagging_model self.old) result (lagging_model self.new) }
        ensures same { none_lent self.new ≡ none_lent self.old }
        ensures value { result ≡ answer self.old.power true tt }
        ensures power { self.new.power ≡ spent self.old.power }
        ensures count { vec_len self.new.cells ≡ vec_len self.old.cells }
        ensures cells { (i : ℕ) → i < vec_len self.old.cells → cell_at self.new.cells.items i ≡ (if is_ok result then both (cell_at self.old.cells.items i).seen else cell_at self.old.cells.items i) }
        ensures given { self.new.given ≡ self.old.given }
    {
        self.power.admit(true)?;
        keep(&mut self.cells, self.lag);
        self.lag = 0;
        Ok(())
    }

    fn restart(&mut self) -> bool
        ensures gives { Restarted (lagging_model self.old) result (lagging_model self.new) }
        ensures same { none_lent self.new ≡ none_lent self.old }
        ensures value { result ≡ true }
        ensures power { self.new.power ≡ record { up = true; cut = None } }
        ensures count { vec_len self.new.cells ≡ vec_len self.old.cells }
        ensures cells { (i : ℕ) → i < vec_len self.old.cells → cell_at self.new.cells.items i ≡ both (survivor self.old.given i (cell_at self.old.cells.items i)) }
        ensures given { self.new.given ≡ self.old.given }
    {
        settle(&mut self.cells, self.lag, self.given);
        self.lag = 0;
        self.power = Power::ON;
        true
    }
}

impl CutPoint for LaggingMemory {
    ghost cut = { λ s. s.power.cut };

    fn cut_after(&mut self, operations: Option<u64>)
        ensures cut { self.new.power.cut ≡ operations }
        ensures same { lagging_model self.new ≡ lagging_model self.old }
        ensures lent { none_lent self.new ≡ none_lent self.old }
        ensures cells { self.new.cells.items ≡ self.old.cells.items }
        ensures given { self.new.given ≡ self.old.given }
    {
        self.power.cut = operations;
    }
}

#[cfg(test)]
mod tests {
    use super::*;
    use std::test::Fail;

    #[test]
    fn a_restart_keeps_the_given_words(rt: HostRuntime) -> Result<(), Fail> {
        let mut memory = LaggingMemory::new(rt.alloc(), 16, 0b0101_0101)?;
        assert!(rt; memory.restart());
        for i in 0..16 {
            memory.store(i, i + 1)?;
        }
        assert!(rt; memory.restart());
        for i in 0..16 {
            let kept = if i % 2 == 0 { i + 1 } else { 0 };
            assert_eq!(rt; memory.load(i)?, kept);
        }
        Ok(())
    }

    #[test]
    fn a_barrier_keeps_every_word(rt: HostRuntime) -> Result<(), Fail> {
        let mut memory = LaggingMemory::new(rt.alloc(), 16, 0b0101_0101)?;
        assert!(rt; memory.restart());
        for i in 0..16 {
            memory.store(i, i + 1)?;
        }
        memory.barrier()?;
        assert!(rt; memory.restart());
        for i in 0..16 {
            assert_eq!(rt; memory.load(i)?, i + 1);
        }
        Ok(())
    }
}
