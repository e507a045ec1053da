ghost use Rattle.std.specs.Prelude.{◌≡◌, map, length};
ghost use Rattle.piles.specs.Pile.{pile_model, at_base};
ghost use Rattle.life.specs.Asked.{asked};
ghost use Rattle.life.specs.Told.{Lives};

use crate::call::Call;
use crate::step::step;
use crate::witness::Witness;
use image_check::refusal::Refusal;
use memory::memory::Memory;
use piles::pile::Pile;
use store::format::format;

// Formats a pile and, once that is done, makes the calls on it one after another, each told to the witness with its answer.
pub fn live<M: Memory, W: Witness<Pile<M>>>(
    memory: &mut Pile<M>,
    calls: &[Call],
    buffer: &mut [u8],
    witness: &mut W,
) -> Result<(), Refusal>
    ensures lives { Lives (pile_model M.Memory.model memory.old) (map (asked (length buffer.old)) calls.now) result (W.Witness.told witness.old) (W.Witness.told witness.new) (pile_model M.Memory.model memory.new) }
    ensures lent { at_base M.Memory.lent memory.new ≡ at_base M.Memory.lent memory.old }
{
    format(memory)?;
    let mut ready = false;
    for call in calls {
        let answer = step(memory, &mut ready, *call, buffer);
        witness.note(*call, answer, buffer, memory);
    }
    Ok(())
}
