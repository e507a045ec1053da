ghost use Rattle.std.specs.Prelude.{◌≡◌, ℕ, ◌+◌, ◌<◌, ◌≤◌, length, IfSome, IsTrue, if◌then◌else◌, Some, None, decimal, nat_le, nat_lt};
ghost use Rattle.console.specs.Lines.{MayShow, Writes, answer_line, carried_part, line, shown_part, written};

use hex::encode_to_slice;
use itoa::Buffer;

// the bytes that any line needs at most
pub const LINE: usize = 72;

// Writes a text into a buffer from a place on, and answers the place after it. With both in a struct, each function of a part of a
// line would have to say that the loan of the buffer stays, too.
fn put(out: &mut [u8], at: usize, text: &[u8]) -> usize
    requires { at + length text.now ≤ length out.old }
    ensures value { result ≡ at + length text.now }
    ensures after { out.new ≡ written out.old at text.now }
{
    let end = at + text.len();
    out[at..end].copy_from_slice(text);
    end
}

// Writes a space and the value carried, if there is one, and answers the place after them.
fn put_carried(out: &mut [u8], at: usize, carried: Option<u16>) -> usize
    requires { at + length (carried_part carried) ≤ length out.old }
    ensures value { result ≡ at + length (carried_part carried) }
    ensures after { out.new ≡ written out.old at (carried_part carried) }
{
    let Some(value) = carried else {
        return at;
    };
    let mut digits = Buffer::new();
    let next = put(out, at, b" ");
    put(out, next, digits.format(value).as_bytes())
}

// Writes a space and the bytes shown, if there are any, and answers the place after them.
fn put_shown(out: &mut [u8], at: usize, shown: &[u8]) -> usize
    requires { at + length (shown_part shown.now) ≤ length out.old }
    ensures value { result ≡ at + length (shown_part shown.now) }
    ensures after { out.new ≡ written out.old at (shown_part shown.now) }
{
    if shown.is_empty() {
        return at;
    }
    let next = put(out, at, b" ");
    let end = next + 2 * shown.len();
    let _ = encode_to_slice(shown, &mut out[next..end]);
    end
}

// How many digits a number has.
fn number_length(number: u8) -> usize
    ensures value { result ≡ length (decimal number) }
    ensures few { result ≤ 3 }
{
    let mut digits = Buffer::new();
    digits.format(number).len()
}

// How many bytes the part of a line takes that has the value carried.
fn carried_length(carried: Option<u16>) -> usize
    ensures value { result ≡ length (carried_part carried) }
    ensures few { result ≤ 6 }
{
    let mut digits = Buffer::new();
    match carried {
        Some(value) => 1 + digits.format(value).len(),
        None => 0,
    }
}

// Whether the line of a number, the value carried and the bytes shown fits into so many bytes.
fn fits(room: usize, number: u8, carried: Option<u16>, shown: &[u8]) -> bool
    ensures value { (letter : ℕ) → result ≡ nat_le (length (answer_line letter number carried shown.now)) room }
    ensures room { IsTrue result → 3 + length (decimal number) + length (carried_part carried) + length (shown_part shown.now) ≤ room }
    ensures few { (letter : ℕ) → MayShow number carried (length shown.now) → length (answer_line letter number carried shown.now) ≤ 72 }
{
    let front = 3 + number_length(number) + carried_length(carried);
    if room < front {
        return false;
    }
    shown.is_empty() || 2 * shown.len() < room - front
}

// Writes the line of an answer at the start of a buffer, and answers its length; none, and nothing written, if it does not fit.
// The answer comes as a number, since there is a line of every number; and a length is answered, since a slice would end what is known
// of the buffer's other bytes.
pub fn write_answer(
    out: &mut [u8],
    letter: u8,
    number: u8,
    carried: Option<u16>,
    shown: &[u8],
) -> Option<usize>
    ensures writes { Writes out.old (answer_line letter number carried shown.now) result out.new }
    ensures bound { IfSome result (λ n. n ≤ length out.new) }
    ensures few { MayShow number carried (length shown.now) → length (answer_line letter number carried shown.now) ≤ 72 }
{
    if !fits(out.len(), number, carried, shown) {
        return None;
    }
    let mut digits = Buffer::new();
    let at = put(out, 0, &[letter, b' ']);
    let at = put(out, at, digits.format(number).as_bytes());
    let at = put_carried(out, at, carried);
    let at = put_shown(out, at, shown);
    Some(put(out, at, b"\n"))
}

// Writes the line of an answer that carries and shows nothing, and answers its length; none, and nothing written, if the buffer is
// short. A buffer of fewer than 72 bytes is short even for a short line. It is of every number, too.
pub fn write_line(out: &mut [u8], letter: u8, number: u8) -> Option<usize>
    ensures value { result ≡ (if nat_lt (length out.old) 72 then None else Some (length (line letter number))) }
    ensures bound { IfSome result (λ n. n ≤ length out.new) }
    ensures after { out.new ≡ (if nat_lt (length out.old) 72 then out.old else written out.old 0 (line letter number)) }
{
    if out.len() < LINE {
        return None;
    }
    write_answer(out, letter, number, None, &[])
}
