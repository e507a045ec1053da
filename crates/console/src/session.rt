ghost use Rattle.std.specs.Prelude.{◌≡◌, ℕ, ◌<◌, ◌≤◌, List, Option, length, IfSome};
ghost use Rattle.std.specs.Option.{option_map};
ghost use Rattle.console.specs.Lines.{Wrote};

use memory::cut_point::CutPoint;

// A session on a memory: its commands, and the state that it keeps between them.
pub trait Session<M: CutPoint> {
    type Command: Copy;

    // the first command of an input, and what follows it
    ghost first: { List ℕ → Option (Self.Command × List ℕ) };

    // a command that is carried out in a state on a memory, the line that answers it, and the state and the memory then
    ghost tells: { Self → Self.Command → M → List ℕ → Self → M → Type 0 };

    // The first command of the input, and what follows it; none if it is unknown or short. That the rest is shorter ends a run; no type
    // of a slice says it.
    fn parse(input: &[u8]) -> Option<(Self::Command, &[u8])>
        ensures value { option_map (λ x. (x.0, x.1.now)) result ≡ first input.now }
        ensures shorter { IfSome result (λ x. length x.1.now < length input.now) };

    // Carries out a command on a memory, writes its whole line at the start of a buffer, and answers its length; or none, with nothing
    // written, and that only in a buffer of fewer than 72 bytes.
    fn answer(&mut self, memory: &mut M, command: Self::Command, out: &mut [u8]) -> Option<usize>
        ensures tells { (text : List ℕ) × tells self.old command memory.old text self.new memory.new × Wrote out.old text result out.new }
        ensures bound { IfSome result (λ n. n ≤ length out.new) }
        ensures lent { M.Memory.lent memory.new ≡ M.Memory.lent memory.old };
}
