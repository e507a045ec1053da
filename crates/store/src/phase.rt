ghost use Rattle.std.specs.Prelude.{◌≡◌, ℕ, ◌+◌, ◌-◌, ◌^◌, ◌<◌, ◌≤◌, true, [], ◌∷◌};
ghost use Rattle.memory.specs.Stores.{word};
ghost use Rattle.store.specs.Phase.{Within, zeros, copies, Storing, Persisted};

use image_check::refusal::Refusal;
use memory::memory::Memory;
use memory::word::Word;

// Stores a value in a word of the memory.
pub(crate) fn store_word<M: Memory>(memory: &mut M, at: u64, value: u64) -> Result<(), Refusal>
    requires { at < (M.Memory.model memory.old).count }
    ensures made { Storing (M.Memory.model memory.old) (word at value ∷ []) result (M.Memory.model memory.new) }
    ensures lent { M.Memory.lent memory.new ≡ M.Memory.lent memory.old }
{
    Ok(memory.store(at, value)?)
}

// Power may be lost at each step of a routine, so that a memory is up is asked of those that go on with it, and held by no type.

// Stores zero in each word from `first` to just before `end`, in a memory that is up.
pub(crate) fn clear_run<M: Memory>(memory: &mut M, first: u64, end: u64) -> Result<(), Refusal>
    requires up { (M.Memory.model memory.old).up ≡ true }
    requires forward { first ≤ end }
    requires inside { end ≤ (M.Memory.model memory.old).count }
    ensures made { Storing (M.Memory.model memory.old) (zeros first (end - first)) result (M.Memory.model memory.new) }
    ensures lent { M.Memory.lent memory.new ≡ M.Memory.lent memory.old }
{
    for at in first..end {
        store_word(memory, at, 0)?;
    }
    Ok(())
}

// Copies words to a run that lies apart from them, in a memory that is up.
pub(crate) fn copy_run<M: Memory>(
    memory: &mut M,
    from: u64,
    to: u64,
    count: u64,
) -> Result<(), Refusal>
    requires up { (M.Memory.model memory.old).up ≡ true }
    requires apart { from + count ≤ to }
    requires inside { to + count ≤ (M.Memory.model memory.old).count }
    requires fits { to + count < 2 ^ 64 }
    ensures made { Storing (M.Memory.model memory.old) (copies (M.Memory.model memory.old).seen from to count) result (M.Memory.model memory.new) }
    ensures lent { M.Memory.lent memory.new ≡ M.Memory.lent memory.old }
{
    for j in 0..count {
        let value = memory.load(from + j)?;
        store_word(memory, to + j, value)?;
    }
    Ok(())
}

// Ends a phase: a barrier settles what was stored.
pub(crate) fn settle<M: Memory>(memory: &mut M) -> Result<(), Refusal>
    ensures done { Persisted (M.Memory.model memory.old) [] result (M.Memory.model memory.new) }
    ensures lent { M.Memory.lent memory.new ≡ M.Memory.lent memory.old }
{
    Ok(memory.barrier()?)
}

// A whole phase: stores each value at its place, and lets a barrier settle them.
pub(crate) fn persist<M: Memory>(memory: &mut M, words: &[Word]) -> Result<(), Refusal>
    requires { Within (M.Memory.model memory.old).count words.now }
    ensures done { Persisted (M.Memory.model memory.old) words.now result (M.Memory.model memory.new) }
    ensures lent { M.Memory.lent memory.new ≡ M.Memory.lent memory.old }
{
    for word in words {
        store_word(memory, word.at, word.value)?;
    }
    settle(memory)
}

// A phase of one word.
pub(crate) fn persist_word<M: Memory>(memory: &mut M, at: u64, value: u64) -> Result<(), Refusal>
    requires { at < (M.Memory.model memory.old).count }
    ensures done { Persisted (M.Memory.model memory.old) (word at value ∷ []) result (M.Memory.model memory.new) }
    ensures lent { M.Memory.lent memory.new ≡ M.Memory.lent memory.old }
{
    persist(memory, &[Word { at, value }])
}
