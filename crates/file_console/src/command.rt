ghost use Rattle.std.specs.Prelude.{◌≡◌, ◌<◌, ◌≤◌, length, IfSome};
ghost use Rattle.std.specs.Option.{option_map};
ghost use Rattle.file_console.specs.Commands.{parsed, letter, asks_too_much, first_bytes, number, cut_points, shortens, renames, reads};

use layout::name::Name;
use store::change::Change;

// the bytes that a read gives at most
pub const SHOWN: usize = 32;

// The bytes that a read gives.
pub type Given = [u8; SHOWN];

// What a session is told to do. Three commands are those of `console` too; as one case here, each match would take it apart again.
#[derive(Clone, Copy, PartialEq, Eq, Debug)]
pub enum Command {
    // turn power off and on again
    Restart,
    // make an empty store of the memory
    Format,
    // make the store ready for file calls
    Recover,
    // lose power after so many further loads, stores and barriers
    CutPoint(u16),
    // make a file call that changes a slot of the directory
    Change(Change),
    // show bytes of a file, from an offset on
    Read { name: Name, offset: u32, count: u8 },
}

impl Command {
    // The byte that a command begins with.
    pub fn letter(&self) -> u8
        ensures { result ≡ letter self.now }
    {
        match self {
            Command::Restart => b'P',
            Command::Format => b'F',
            Command::Recover => b'R',
            Command::CutPoint(_) => b'K',
            Command::Change(Change::Create(_)) => b'C',
            Command::Change(Change::Remove(_)) => b'D',
            Command::Change(Change::Shorten { .. }) => b'S',
            Command::Change(Change::Rename { .. }) => b'N',
            Command::Read { .. } => b'G',
        }
    }

    // Whether a command asks for more bytes than a line can show.
    pub fn asks_too_much(&self) -> bool
        ensures { result ≡ asks_too_much self.now }
    {
        match self {
            Command::Read { count, .. } => usize::from(*count) > SHOWN,
            _ => false,
        }
    }
}

// The name in the first eight bytes of the input, and what follows it; none if there are fewer.
fn take_name(input: &[u8]) -> Option<(Name, &[u8])>
    ensures value { option_map (λ x. (x.0, x.1.now)) result ≡ first_bytes 8 input.now }
    ensures shorter { IfSome result (λ x. length x.1.now ≤ length input.now) }
{
    let (name, rest) = input.split_first_chunk()?;
    Some((*name, rest))
}

// The number in the first four bytes of the input, the lowest first, and what follows it; none if there are fewer.
fn take_number(input: &[u8]) -> Option<(u32, &[u8])>
    ensures value { option_map (λ x. (x.0, x.1.now)) result ≡ number 4 input.now }
    ensures shorter { IfSome result (λ x. length x.1.now ≤ length input.now) }
{
    let (bytes, rest) = input.split_first_chunk()?;
    Some((u32::from_le_bytes(*bytes), rest))
}

// A cut point: the number of operations, two bytes.
fn parse_cut_point(input: &[u8]) -> Option<(Command, &[u8])>
    ensures value { option_map (λ x. (x.0, x.1.now)) result ≡ cut_points input.now }
    ensures shorter { IfSome result (λ x. length x.1.now ≤ length input.now) }
{
    let (bytes, rest) = input.split_first_chunk()?;
    Some((Command::CutPoint(u16::from_le_bytes(*bytes)), rest))
}

// A shorten: the name and the length.
fn parse_shorten(input: &[u8]) -> Option<(Command, &[u8])>
    ensures value { option_map (λ x. (x.0, x.1.now)) result ≡ shortens input.now }
    ensures shorter { IfSome result (λ x. length x.1.now ≤ length input.now) }
{
    let (name, rest) = take_name(input)?;
    let (length, rest) = take_number(rest)?;
    Some((Command::Change(Change::Shorten { name, length }), rest))
}

// A rename: the name and the new one.
fn parse_rename(input: &[u8]) -> Option<(Command, &[u8])>
    ensures value { option_map (λ x. (x.0, x.1.now)) result ≡ renames input.now }
    ensures shorter { IfSome result (λ x. length x.1.now ≤ length input.now) }
{
    let (name, rest) = take_name(input)?;
    let (new, rest) = take_name(rest)?;
    Some((Command::Change(Change::Rename { name, new }), rest))
}

// A read: the name, the offset and the count.
fn parse_read(input: &[u8]) -> Option<(Command, &[u8])>
    ensures value { option_map (λ x. (x.0, x.1.now)) result ≡ reads input.now }
    ensures shorter { IfSome result (λ x. length x.1.now ≤ length input.now) }
{
    let (name, rest) = take_name(input)?;
    let (offset, rest) = take_number(rest)?;
    let (&count, rest) = rest.split_first()?;
    let command = Command::Read {
        name,
        offset,
        count,
    };
    Some((command, rest))
}

// The first command of the input, and what follows it; none if it is unknown or short.
pub fn parse(input: &[u8]) -> Option<(Command, &[u8])>
    ensures value { option_map (λ x. (x.0, x.1.now)) result ≡ parsed input.now }
    ensures shorter { IfSome result (λ x. length x.1.now < length input.now) }
{
    let (letter, rest) = input.split_first()?;
    match letter {
        b'P' => Some((Command::Restart, rest)),
        b'F' => Some((Command::Format, rest)),
        b'R' => Some((Command::Recover, rest)),
        b'K' => parse_cut_point(rest),
        b'C' => take_name(rest).map(|(name, rest)| (Command::Change(Change::Create(name)), rest)),
        b'D' => take_name(rest).map(|(name, rest)| (Command::Change(Change::Remove(name)), rest)),
        b'S' => parse_shorten(rest),
        b'N' => parse_rename(rest),
        b'G' => parse_read(rest),
        _ => None,
    }
}
