ghost use Rattle.std.specs.Prelude.{◌≡◌, ℕ, Option};

use crate::memory::Memory;

// A memory whose power a bench can cut: after a number of further loads, stores and barriers the next one finds it lost.
pub trait CutPoint: Memory {
    // how many more operations find power, if there is a limit
    ghost cut: { Self → Option ℕ };

    fn cut_after(&mut self, operations: Option<u64>)
        ensures cut { cut self.new ≡ operations }
        ensures same { Self.Memory.model self.new ≡ Self.Memory.model self.old }
        ensures lent { Self.Memory.lent self.new ≡ Self.Memory.lent self.old };
}
