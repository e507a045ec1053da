ghost use Rattle.std.specs.Prelude.{◌≡◌, ℕ};
ghost use Rattle.memory.specs.Model.{Model, Loaded, Stored, Flushed, Restarted, SeenMay};

use crate::fault::Fault;

// A memory of 64-bit words that holds without power.
pub trait Memory {
    // what the memory means
    ghost model: { Self → Model };

    // the value seen in a word is always among its candidates
    ghost seen_may: { (s : Self) → SeenMay (model s) };

    // the name of the bytes that the memory is lent, or 0: no call changes it, and each says so for itself, since what two models
    // have to do with each other is told by their words alone
    ghost lent: { Self → ℕ };

    // How many words there are.
    fn count(&self) -> u64
        ensures { result ≡ (model self.now).count };

    // Whether there is power.
    fn is_up(&self) -> bool
        ensures { result ≡ (model self.now).up };

    // The value seen in a word.
    fn load(&mut self, at: u64) -> Result<u64, Fault>
        ensures gives { Loaded (model self.old) at result (model self.new) }
        ensures same { lent self.new ≡ lent self.old };

    // Makes the value the one seen in a word. It may outlast a loss of power from now on.
    fn store(&mut self, at: u64, value: u64) -> Result<(), Fault>
        ensures gives { Stored (model self.old) at value result (model self.new) }
        ensures same { lent self.new ≡ lent self.old };

    // Once done, each word outlasts a loss of power as it is seen.
    fn barrier(&mut self) -> Result<(), Fault>
        ensures gives { Flushed (model self.old) result (model self.new) }
        ensures same { lent self.new ≡ lent self.old };

    // Turns power off and on again, and answers whether there is power then.
    fn restart(&mut self) -> bool
        ensures gives { Restarted (model self.old) result (model self.new) }
        ensures same { lent self.new ≡ lent self.old };
}
