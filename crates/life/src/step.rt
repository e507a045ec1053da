ghost use Rattle.std.specs.Prelude.{◌≡◌, length};
ghost use Rattle.life.specs.Asked.{asked};
ghost use Rattle.life.specs.Life.{is_done, ready_after};
ghost use Rattle.life.specs.Step.{Did};
ghost use Rattle.life.specs.Told.{reply_of};

use crate::answer::{Answer, Denial};
use crate::call::Call;
use image_check::refusal::Refusal;
use memory::memory::Memory;
use store::read::read;
use store::recover::recover;

// Makes a call on a store, and keeps whether the store is ready; a read fills the whole buffer. A session carries out like calls, but
// by three states and with what it shows, so that one function for both would be told which of them asks.
pub(crate) fn step<M: Memory>(
    memory: &mut M,
    ready: &mut bool,
    call: Call,
    buffer: &mut [u8],
) -> Answer
    ensures did { Did (M.Memory.model memory.old) ready.old (asked (length buffer.old) call) (reply_of result) buffer.new (M.Memory.model memory.new) }
    ensures ready { ready.new ≡ ready_after (asked (length buffer.old) call) (is_done (reply_of result)) ready.old }
    ensures long { length buffer.new ≡ length buffer.old }
    ensures lent { M.Memory.lent memory.new ≡ M.Memory.lent memory.old }
{
    match (call, *ready) {
        (Call::Restart, _) => {
            *ready = false;
            if memory.restart() {
                Ok(None)
            } else {
                Err(Denial::Refused(Refusal::PowerLost))
            }
        }
        (Call::Recover, false) => {
            let put_back = recover(memory)?;
            *ready = true;
            Ok(Some(u64::from(put_back)))
        }
        (Call::Change(change), true) => {
            change.apply(memory)?;
            Ok(None)
        }
        (Call::Read { name, offset }, true) => {
            let count = read(memory, name, offset, buffer)?;
            Ok(Some(count as u64))
        }
        (Call::Recover, true) | (Call::Change(_) | Call::Read { .. }, false) => {
            Err(Denial::NotAllowed)
        }
    }
}
