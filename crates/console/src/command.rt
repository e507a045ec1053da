ghost use Rattle.std.specs.Prelude.{◌≡◌, ◌<◌, length, IfSome};
ghost use Rattle.std.specs.Option.{option_map};
ghost use Rattle.console.specs.Commands.{parsed, letter};

// What a session is told to do.
#[derive(Clone, Copy, PartialEq, Eq, Debug)]
pub enum Command {
    // turn power off and on again
    Restart,
    // make an empty store of the memory
    Format,
    // lose power after so many further loads, stores and barriers
    CutPoint(u16),
}

impl Command {
    // The byte that a command begins with.
    pub fn letter(&self) -> u8
        ensures { result ≡ letter self.now }
    {
        match self {
            Command::Restart => b'P',
            Command::Format => b'F',
            Command::CutPoint(_) => b'K',
        }
    }
}

// The first command of the input, and what follows it; none if it is unknown or short.
pub fn parse(input: &[u8]) -> Option<(Command, &[u8])>
    ensures value { option_map (λ x. (x.0, x.1.now)) result ≡ parsed input.now }
    ensures shorter { IfSome result (λ x. length x.1.now < length input.now) }
{
    let (letter, rest) = input.split_first()?;
    match letter {
        b'P' => Some((Command::Restart, rest)),
        b'F' => Some((Command::Format, rest)),
        b'K' => {
            let (bytes, rest) = rest.split_first_chunk()?;
            Some((Command::CutPoint(u16::from_le_bytes(*bytes)), rest))
        }
        _ => None,
    }
}
