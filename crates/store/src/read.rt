ghost use Rattle.std.specs.Prelude.{◌≡◌, ◌-◌, ◌<◌, ◌≤◌, true, [], ◌∷◌, length, replicate};
ghost use Rattle.layout.specs.Table.{read};
ghost use Rattle.image_check.specs.Reading.{Reads};
ghost use Rattle.store.specs.Calls.{FileCall, reply};
ghost use Rattle.store.specs.Read.{GoodFile, byte_at, bytes_from, Quiet, Given, Filled};

use crate::open::open_file;
use image_check::refusal::Refusal;
use layout::name::Name;
use layout::place::{BLOCK_WORDS, split};
use layout::root::Root;
use memory::memory::Memory;

// Byte `at` of a file.
fn load_byte<M: Memory>(memory: &mut M, root: Root, at: u64) -> Result<u8, Refusal>
    requires file { GoodFile (M.Memory.model memory.old) root }
    requires within { at < root.length }
    ensures reads { Reads (M.Memory.model memory.old) (λ b. b ≡ byte_at (M.Memory.model memory.old).seen root.map at) result (M.Memory.model memory.new) }
    ensures lent { M.Memory.lent memory.new ≡ M.Memory.lent memory.old }
{
    let (k, place) = split(at);
    let block = memory.load(BLOCK_WORDS * u64::from(root.map) + k)?;
    let word = memory.load(BLOCK_WORDS * block + place / 8)?;
    Ok(word.to_le_bytes()[(place % 8) as usize])
}

// Fills a slice with the bytes of a file from an offset on; the file has that many, and the memory is up.
fn load_bytes<M: Memory>(
    memory: &mut M,
    root: Root,
    offset: u64,
    out: &mut [u8],
) -> Result<(), Refusal>
    requires up { (M.Memory.model memory.old).up ≡ true }
    requires file { GoodFile (M.Memory.model memory.old) root }
    requires inside { length out.old ≤ root.length - offset }
    ensures reads { Reads (M.Memory.model memory.old) (λ _. out.new ≡ bytes_from (M.Memory.model memory.old).seen root.map offset (length out.old)) result (M.Memory.model memory.new) }
    ensures lent { M.Memory.lent memory.new ≡ M.Memory.lent memory.old }
{
    for (k, byte) in out.iter_mut().enumerate() {
        *byte = load_byte(memory, root, offset + k as u64)?;
    }
    Ok(())
}

// Fills a slice with zeros.
fn clear_bytes(out: &mut [u8])
    ensures { out.new ≡ replicate (length out.old) 0 }
{
    out.fill(0);
}

// As `read`, but a refusal may leave anything in the buffer.
fn read_into<M: Memory>(
    memory: &mut M,
    name: Name,
    offset: u32,
    buffer: &mut [u8],
) -> Result<usize, Refusal>
    ensures called { FileCall (M.Memory.model memory.old) (read name offset (length buffer.old)) (reply (λ n. n ∷ []) result) (M.Memory.model memory.new) }
    ensures quiet { Quiet (M.Memory.model memory.old) (M.Memory.model memory.new) }
    ensures given { Given (M.Memory.model memory.old) name offset result buffer.old buffer.new }
    ensures lent { M.Memory.lent memory.new ≡ M.Memory.lent memory.old }
{
    let file = open_file(memory, name)?;
    let root = file.root();
    let rest = root.length.saturating_sub(offset);
    let given = buffer.len().min(rest as usize);
    clear_bytes(&mut buffer[given..]);
    load_bytes(memory, root, u64::from(offset), &mut buffer[..given])?;
    Ok(given)
}

// Fills the buffer with the bytes of a file from an offset on, and then with zeros; answers how many the file gave.
// Refused, the buffer is zero.
pub fn read<M: Memory>(
    memory: &mut M,
    name: Name,
    offset: u32,
    buffer: &mut [u8],
) -> Result<usize, Refusal>
    ensures called { FileCall (M.Memory.model memory.old) (read name offset (length buffer.old)) (reply (λ n. n ∷ []) result) (M.Memory.model memory.new) }
    ensures quiet { Quiet (M.Memory.model memory.old) (M.Memory.model memory.new) }
    ensures filled { Filled (M.Memory.model memory.old) name offset result buffer.old buffer.new }
    ensures lent { M.Memory.lent memory.new ≡ M.Memory.lent memory.old }
{
    let answer = read_into(memory, name, offset, buffer);
    if answer.is_err() {
        clear_bytes(buffer);
    }
    answer
}
