ghost use Rattle.std.specs.Prelude.{◌≡◌, [], IfOk, IfErr};
ghost use Rattle.memory.specs.Model.{Loaded, Stored, Flushed, Restarted};
ghost use Rattle.piles.specs.EachLayer.{PileLoads, PileStores, PileStoresAll, PileFlushes, PileRestarts};
ghost use Rattle.layers.specs.Layers.{cache_model, part_model};
ghost use Rattle.piles.specs.Pile.{pile_model, at_base, depth, pile-seen-may};
ghost use Rattle.layers.specs.StoredAll.{StoredAll};

use crate::pile::Pile;
use layers::admit::admit;
use layers::outside::unless_outside;
use layers::part::Run;
use memory::cut_point::CutPoint;
use memory::fault::Fault;
use memory::memory::Memory;
use memory::word::Word;
use std::alloc::{AllocFailed, Global};
use waiting::words::Waiting;

impl<M: Memory> Pile<M> {
    // A base memory with no layer yet.
    pub fn base(memory: M) -> Pile<M>
        ensures { result ≡ Pile.Base memory }
    {
        Pile::Base(memory)
    }

    // A cache over a pile; nothing waits in it.
    pub fn cached(heap: Global, below: Pile<M>) -> Result<Pile<M>, AllocFailed<Pile<M>>>
        ensures model { IfOk result (λ p. pile_model M.Memory.model p ≡ cache_model [] (pile_model M.Memory.model below)) }
        ensures lent { IfOk result (λ p. at_base M.Memory.lent p ≡ at_base M.Memory.lent below) }
        ensures refused { IfErr result (λ b. b.value ≡ below) }
    {
        Ok(Pile::Cache(Box::new(heap, below)?, Waiting::new()))
    }

    // A run of the words of a pile.
    pub fn part_of(heap: Global, below: Pile<M>, run: Run) -> Result<Pile<M>, AllocFailed<Pile<M>>>
        ensures model { IfOk result (λ p. pile_model M.Memory.model p ≡ part_model run.first run.count (pile_model M.Memory.model below)) }
        ensures lent { IfOk result (λ p. at_base M.Memory.lent p ≡ at_base M.Memory.lent below) }
        ensures refused { IfErr result (λ b. b.value ≡ below) }
    {
        Ok(Pile::Part(Box::new(heap, below)?, run))
    }
}

impl<M: Memory> Memory for Pile<M> {
    ghost model = { pile_model M.Memory.model };

    ghost seen_may = { pile-seen-may M.Memory.model M.Memory.seen_may };

    ghost lent = { at_base M.Memory.lent };

    fn count(&self) -> u64 {
        match self {
            Pile::Base(memory) => memory.count(),
            Pile::Cache(below, _) => below.count(),
            Pile::Part(below, run) => run.inside(below.count()),
        }
    }

    fn is_up(&self) -> bool {
        match self {
            Pile::Base(memory) => memory.is_up(),
            Pile::Cache(below, _) | Pile::Part(below, _) => below.is_up(),
        }
    }

    fn load(&mut self, at: u64) -> Result<u64, Fault>
        ensures gives { Loaded (pile_model M.Memory.model self.old) at result (pile_model M.Memory.model self.new) }
        ensures same { at_base M.Memory.lent self.new ≡ at_base M.Memory.lent self.old }
        ensures each { PileLoads M.Memory.model self.old at result self.new }
    {
        match self {
            Pile::Base(memory) => memory.load(at),
            Pile::Cache(below, waiting) => {
                admit(below.is_up(), at, below.count())?;
                match waiting.value(at) {
                    Some(value) => Ok(value),
                    None => below.load(at),
                }
            }
            Pile::Part(below, run) => {
                admit(below.is_up(), at, run.inside(below.count()))?;
                below.load(run.first + at)
            }
        }
    }

    // The value waits in the uppermost cache; where eight others wait there, the oldest goes below first.
    fn store(&mut self, at: u64, value: u64) -> Result<(), Fault>
        ensures gives { Stored (pile_model M.Memory.model self.old) at value result (pile_model M.Memory.model self.new) }
        ensures same { at_base M.Memory.lent self.new ≡ at_base M.Memory.lent self.old }
        ensures each { PileStores M.Memory.model self.old at value result self.new }
        ensures layers { depth self.new ≡ depth self.old }
    {
        match self {
            Pile::Base(memory) => memory.store(at, value),
            Pile::Cache(below, waiting) => {
                admit(below.is_up(), at, below.count())?;
                if let Some(oldest) = waiting.leaving(at) {
                    unless_outside(below.store(oldest.at, oldest.value))?;
                }
                waiting.hold(at, value);
                Ok(())
            }
            Pile::Part(below, run) => {
                admit(below.is_up(), at, run.inside(below.count()))?;
                below.store(run.first + at, value)
            }
        }
    }

    // Of a cache, what waits goes below first.
    fn barrier(&mut self) -> Result<(), Fault>
        ensures gives { Flushed (pile_model M.Memory.model self.old) result (pile_model M.Memory.model self.new) }
        ensures same { at_base M.Memory.lent self.new ≡ at_base M.Memory.lent self.old }
        ensures each { PileFlushes M.Memory.model self.old result self.new }
    {
        match self {
            Pile::Base(memory) => memory.barrier(),
            Pile::Cache(below, waiting) => {
                if !below.is_up() {
                    return Err(Fault::Down);
                }
                store_all(below, waiting.words())?;
                *waiting = Waiting::new();
                below.barrier()
            }
            Pile::Part(below, _) => below.barrier(),
        }
    }

    // What waits in a cache is lost.
    fn restart(&mut self) -> bool
        ensures gives { Restarted (pile_model M.Memory.model self.old) result (pile_model M.Memory.model self.new) }
        ensures same { at_base M.Memory.lent self.new ≡ at_base M.Memory.lent self.old }
        ensures each { PileRestarts M.Memory.model self.old result self.new }
    {
        match self {
            Pile::Base(memory) => memory.restart(),
            Pile::Cache(below, waiting) => {
                waiting.clear();
                below.restart()
            }
            Pile::Part(below, _) => below.restart(),
        }
    }
}

// Stores the words in their order; one past the last word of the pile means nothing. Unlike that of a cache it tells of every layer.
fn store_all<M: Memory>(pile: &mut Pile<M>, words: &[Word]) -> Result<(), Fault>
    ensures gives { StoredAll (pile_model M.Memory.model pile.old) words.now result (pile_model M.Memory.model pile.new) }
    ensures same { at_base M.Memory.lent pile.new ≡ at_base M.Memory.lent pile.old }
    ensures each { PileStoresAll M.Memory.model pile.old words.now result pile.new }
    ensures layers { depth pile.new ≡ depth pile.old }
{
    for word in words {
        unless_outside(pile.store(word.at, word.value))?;
    }
    Ok(())
}

impl<M: CutPoint> CutPoint for Pile<M> {
    ghost cut = { at_base M.CutPoint.cut };

    fn cut_after(&mut self, operations: Option<u64>) {
        match self {
            Pile::Base(memory) => memory.cut_after(operations),
            Pile::Cache(below, _) => below.cut_after(operations),
            Pile::Part(below, _) => below.cut_after(operations),
        }
    }
}
