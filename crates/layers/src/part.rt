ghost use Rattle.std.specs.Prelude.{◌≡◌, ◌-◌, min};
ghost use Rattle.memory.specs.Model.{Loaded, Stored, Flushed, Restarted};
ghost use Rattle.layers.specs.Below.{PartLoads, PartStores};
ghost use Rattle.layers.specs.Layers.{part_model, part-seen-may};
ghost use Rattle.layers.specs.PartOf.{part_of};

use crate::admit::admit;
use memory::cut_point::CutPoint;
use memory::fault::Fault;
use memory::memory::Memory;

// A run of words.
#[derive(Clone, Copy, PartialEq, Eq, Debug)]
pub struct Run {
    pub first: u64,
    pub count: u64,
}

impl Run {
    // How many words of the run lie in a memory of so many words.
    pub fn inside(&self, words: u64) -> u64
        ensures { result ≡ min self.now.count (words - self.now.first) }
    {
        self.count.min(words.saturating_sub(self.first))
    }
}

// A stretch of another memory, shown as a memory of its own.
#[derive(Drop)]
pub struct Part<M: Memory> {
    below: M,
    run: Run,
}

impl<M: Memory> Part<M> {
    // The words of a run, as far as they lie in the memory.
    pub fn new(below: M, run: Run) -> Part<M>
        ensures { result ≡ record { below = below; run = run } }
    {
        Part { below, run }
    }
}

impl<M: Memory> Memory for Part<M> {
    ghost model = { λ s. part_model s.run.first s.run.count (M.Memory.model s.below) };

    ghost seen_may = { λ s. part-seen-may s.run.first s.run.count (M.Memory.model s.below) (M.Memory.seen_may s.below) };

    ghost lent = { λ s. M.Memory.lent s.below };

    fn count(&self) -> u64 {
        self.run.inside(self.below.count())
    }

    fn is_up(&self) -> bool {
        self.below.is_up()
    }

    fn load(&mut self, at: u64) -> Result<u64, Fault>
        ensures gives { Loaded (part_of M.Memory.model self.old) at result (part_of M.Memory.model self.new) }
        ensures same { M.Memory.lent self.new.below ≡ M.Memory.lent self.old.below }
        ensures run { self.new.run ≡ self.old.run }
        ensures below { PartLoads M.Memory.model self.old.run self.old.below at result self.new.below }
    {
        let count = self.run.inside(self.below.count());
        admit(self.is_up(), at, count)?;
        self.below.load(self.run.first + at)
    }

    fn store(&mut self, at: u64, value: u64) -> Result<(), Fault>
        ensures gives { Stored (part_of M.Memory.model self.old) at value result (part_of M.Memory.model self.new) }
        ensures same { M.Memory.lent self.new.below ≡ M.Memory.lent self.old.below }
        ensures run { self.new.run ≡ self.old.run }
        ensures below { PartStores M.Memory.model self.old.run self.old.below at value result self.new.below }
    {
        let count = self.run.inside(self.below.count());
        admit(self.is_up(), at, count)?;
        self.below.store(self.run.first + at, value)
    }

    fn barrier(&mut self) -> Result<(), Fault>
        ensures gives { Flushed (part_of M.Memory.model self.old) result (part_of M.Memory.model self.new) }
        ensures same { M.Memory.lent self.new.below ≡ M.Memory.lent self.old.below }
        ensures run { self.new.run ≡ self.old.run }
        ensures below { Flushed (M.Memory.model self.old.below) result (M.Memory.model self.new.below) }
    {
        self.below.barrier()
    }

    fn restart(&mut self) -> bool
        ensures gives { Restarted (part_of M.Memory.model self.old) result (part_of M.Memory.model self.new) }
        ensures same { M.Memory.lent self.new.below ≡ M.Memory.lent self.old.below }
        ensures run { self.new.run ≡ self.old.run }
        ensures below { Restarted (M.Memory.model self.old.below) result (M.Memory.model self.new.below) }
    {
        self.below.restart()
    }
}

impl<M: CutPoint> CutPoint for Part<M> {
    ghost cut = { λ s. M.CutPoint.cut s.below };

    fn cut_after(&mut self, operations: Option<u64>) {
        self.below.cut_after(operations);
    }
}
