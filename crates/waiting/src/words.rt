ghost use Rattle.std.specs.Prelude.{◌≡◌, ◌<◌, ◌≤◌, [], length, IfSome};

use memory::word::Word;

// The words that wait in a cache, which has no heap: of eight words those from `free` on, the oldest first.
// The kit's `ArrayVec` has no heap either, but it is not `Copy`.
#[derive(Clone, Copy)]
pub struct Waiting {
    words: [Word; 8],
    free: usize,
}

impl Waiting {
    ghost use Rattle.waiting.specs.Waits.{waiting, newest, waiting_value, leaving, holding};

    // No word waits.
    pub fn new() -> Waiting
        ensures { waiting result ≡ [] }
    {
        Waiting {
            words: [Word { at: 0, value: 0 }; 8],
            free: 8,
        }
    }

    // Where among the waiting words the newest one for a place stands.
    fn find(&self, at: u64) -> Option<usize>
        ensures newest { result ≡ newest (waiting self.now) at }
        ensures inside { IfSome result (λ k. k < length (waiting self.now)) }
    {
        self.words().iter().rposition(|word| word.at == at)
    }

    // The value that waits for a place.
    pub fn value(&self, at: u64) -> Option<u64>
        ensures { result ≡ waiting_value (waiting self.now) at }
    {
        self.find(at).map(|k| self.words()[k].value)
    }

    // The words that wait, the oldest first.
    pub fn words(&self) -> &[Word]
        ensures { result.now ≡ waiting self.now }
    {
        &self.words[self.free.min(8)..]
    }

    // The word that has to go below before one for this place can wait.
    pub fn leaving(&self, at: u64) -> Option<Word>
        ensures { result ≡ leaving (waiting self.now) at }
    {
        // where there is room none has to, and none is looked for
        if self.free > 0 {
            return None;
        }
        match self.find(at) {
            Some(_) => None,
            None => Some(self.words[0]),
        }
    }

    // Holds a value for a place; where eight others wait, the oldest is let go.
    pub fn hold(&mut self, at: u64, value: u64)
        ensures { waiting self.new ≡ holding (waiting self.old) at value }
    {
        let word = Word { at, value };
        match self.find(at) {
            Some(k) => self.words[self.free + k] = word,
            None => {
                self.words.rotate_left(1);
                self.words[7] = word;
                self.free = self.free.saturating_sub(1).min(7);
            }
        }
    }

    // Lets all words go.
    pub fn clear(&mut self)
        ensures { waiting self.new ≡ [] }
    {
        self.free = 8;
    }
}
