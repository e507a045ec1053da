ghost use Rattle.std.specs.Prelude.{◌≡◌, true, [], is_ok, if◌then◌else◌, None};
ghost use Rattle.memory.specs.Model.{Loaded, Stored, Flushed, Restarted};
ghost use Rattle.waiting.specs.Waits.{waiting, leaving, holding};
ghost use Rattle.layers.specs.Below.{CacheLoads, CacheStores, CacheFlushes};
ghost use Rattle.layers.specs.Cached.{cached};
ghost use Rattle.layers.specs.Layers.{cache-seen-may};
ghost use Rattle.layers.specs.StoredAll.{StoredAll};

use crate::admit::admit;
use crate::outside::unless_outside;
use memory::cut_point::CutPoint;
use memory::fault::Fault;
use memory::memory::Memory;
use memory::word::Word;
use waiting::words::Waiting;

// A cache over any memory: stored words wait in it, up to eight of them.
#[derive(Drop)]
pub struct Cache<M: Memory> {
    below: M,
    waiting: Waiting,
}

impl<M: Memory> Cache<M> {
    // A cache over a memory; nothing waits in it.
    pub fn new(below: M) -> Cache<M>
        ensures below { result.below ≡ below }
        ensures waits { waiting result.waiting ≡ [] }
    {
        Cache {
            below,
            waiting: Waiting::new(),
        }
    }
}

// Stores the words in their order; one past the last word of the memory means nothing.
fn store_all<M: Memory>(memory: &mut M, words: &[Word]) -> Result<(), Fault>
    ensures gives { StoredAll (M.Memory.model memory.old) words.now result (M.Memory.model memory.new) }
    ensures same { M.Memory.lent memory.new ≡ M.Memory.lent memory.old }
{
    for word in words {
        unless_outside(memory.store(word.at, word.value))?;
    }
    Ok(())
}

impl<M: Memory> Memory for Cache<M> {
    ghost model = { cached M.Memory.model };

    ghost seen_may = { λ s. cache-seen-may (waiting s.waiting) (M.Memory.model s.below) (M.Memory.seen_may s.below) };

    ghost lent = { λ s. M.Memory.lent s.below };

    fn count(&self) -> u64 {
        self.below.count()
    }

    fn is_up(&self) -> bool {
        self.below.is_up()
    }

    // What waits stays.
    fn load(&mut self, at: u64) -> Result<u64, Fault>
        ensures gives { Loaded (cached M.Memory.model self.old) at result (cached M.Memory.model self.new) }
        ensures same { M.Memory.lent self.new.below ≡ M.Memory.lent self.old.below }
        ensures waits { waiting self.new.waiting ≡ waiting self.old.waiting }
        ensures below { CacheLoads M.Memory.model (waiting self.old.waiting) self.old.below at result self.new.below }
    {
        admit(self.is_up(), at, self.count())?;
        match self.waiting.value(at) {
            Some(value) => Ok(value),
            None => self.below.load(at),
        }
    }

    // The stored word waits; where eight others wait already, the oldest goes below first.
    fn store(&mut self, at: u64, value: u64) -> Result<(), Fault>
        ensures gives { Stored (cached M.Memory.model self.old) at value result (cached M.Memory.model self.new) }
        ensures same { M.Memory.lent self.new.below ≡ M.Memory.lent self.old.below }
        ensures waits { waiting self.new.waiting ≡ (if is_ok result then holding (waiting self.old.waiting) at value else waiting self.old.waiting) }
        ensures below { leaving (waiting self.old.waiting) at ≡ None → self.new.below ≡ self.old.below }
        ensures oldest { CacheStores M.Memory.model (waiting self.old.waiting) self.old.below at result self.new.below }
    {
        admit(self.is_up(), at, self.count())?;
        if let Some(oldest) = self.waiting.leaving(at) {
            unless_outside(self.below.store(oldest.at, oldest.value))?;
        }
        self.waiting.hold(at, value);
        Ok(())
    }

    // Once done, nothing waits.
    fn barrier(&mut self) -> Result<(), Fault>
        ensures gives { Flushed (cached M.Memory.model self.old) result (cached M.Memory.model self.new) }
        ensures same { M.Memory.lent self.new.below ≡ M.Memory.lent self.old.below }
        ensures waits { is_ok result ≡ true → waiting self.new.waiting ≡ [] }
        ensures below { CacheFlushes M.Memory.model (waiting self.old.waiting) self.old.below result self.new.below }
    {
        if !self.below.is_up() {
            return Err(Fault::Down);
        }
        store_all(&mut self.below, self.waiting.words())?;
        self.waiting = Waiting::new();
        self.below.barrier()
    }

    // What waited is lost.
    fn restart(&mut self) -> bool
        ensures gives { Restarted (cached M.Memory.model self.old) result (cached M.Memory.model self.new) }
        ensures same { M.Memory.lent self.new.below ≡ M.Memory.lent self.old.below }
        ensures waits { waiting self.new.waiting ≡ [] }
        ensures below { Restarted (M.Memory.model self.old.below) result (M.Memory.model self.new.below) }
    {
        self.waiting.clear();
        self.below.restart()
    }
}

impl<M: CutPoint> CutPoint for Cache<M> {
    ghost cut = { λ s. M.CutPoint.cut s.below };

    fn cut_after(&mut self, operations: Option<u64>) {
        self.below.cut_after(operations);
    }
}
