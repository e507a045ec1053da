ghost use Rattle.std.specs.Prelude.{List, ◌∷◌};
ghost use Rattle.life.specs.Life.{Event};
ghost use Rattle.life.specs.Told.{event};

use crate::answer::Answer;
use crate::call::Call;
use memory::memory::Memory;

// Is shown each call of a life with its answer, the read buffer, and the memory at that moment.
pub trait Witness<M: Memory> {
    // the events that it may have been told, the newest first; one that keeps them all has one such list
    ghost told: { Self → List Event → Type 0 };

    // Takes note of a call.
    fn note(&mut self, call: Call, answer: Answer, buffer: &[u8], memory: &M)
        ensures { (es : List Event) → told self.old es → told self.new (event call answer buffer.now (M.Memory.model memory.now) ∷ es) };
}
