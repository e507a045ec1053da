ghost use Rattle.std.specs.Prelude.{◌≡◌, [], ◌∷◌, length};
ghost use Rattle.memory.specs.Model.{Restarted};
ghost use Rattle.layout.specs.Table.{create, read, shorten, rename, remove};
ghost use Rattle.store.specs.Calls.{FileCall, SlotCall, reply};
ghost use Rattle.store.specs.Format.{Formats};
ghost use Rattle.store.specs.Moved.{answered, left};
ghost use Rattle.store.specs.Read.{Quiet, Filled};
ghost use Rattle.store.specs.Recover.{Recovers};

use crate::format::format;
use crate::names::{create, remove, rename};
use crate::read::read;
use crate::recover::recover;
use crate::shorten::shorten;
use image_check::refusal::Refusal;
use layout::name::Name;
use memory::memory::Memory;

// A store whose image was not read since the last restart: it can be formatted, recovered or restarted.
#[derive(Drop)]
pub struct Unread<M: Memory> {
    memory: M,
}

// A store that is recovered and was not restarted since.
#[derive(Drop)]
pub struct Ready<M: Memory> {
    memory: M,
}

impl<M: Memory> Unread<M> {
    // A store begins unread.
    pub fn new(memory: M) -> Unread<M>
        ensures { result.memory ≡ memory }
    {
        Unread { memory }
    }

    // Makes an empty store of the memory.
    pub fn format(&mut self) -> Result<(), Refusal>
        ensures formats { Formats (M.Memory.model self.old.memory) result (M.Memory.model self.new.memory) }
        ensures lent { M.Memory.lent self.new.memory ≡ M.Memory.lent self.old.memory }
    {
        format(&mut self.memory)
    }

    // Makes a ready store and tells whether pieces were put back; refused, it gives the unread store back. Each arm moves the memory into
    // another type, so no `?` can stand for the match.
    pub fn recover(self) -> Result<(Ready<M>, bool), (Unread<M>, Refusal)>
        ensures recovers { Recovers (M.Memory.model self.memory) (answered result) (M.Memory.model (left result)) }
        ensures lent { M.Memory.lent (left result) ≡ M.Memory.lent self.memory }
    {
        let Unread { mut memory } = self;
        match recover(&mut memory) {
            Ok(put_back) => Ok((Ready { memory }, put_back)),
            Err(refusal) => Err((Unread { memory }, refusal)),
        }
    }

    // Turns power off and on again, and tells whether there is power then.
    pub fn restart(self) -> (Unread<M>, bool)
        ensures gives { Restarted (M.Memory.model self.memory) result.1 (M.Memory.model result.0.memory) }
        ensures lent { M.Memory.lent result.0.memory ≡ M.Memory.lent self.memory }
    {
        let Unread { mut memory } = self;
        let up = memory.restart();
        (Unread { memory }, up)
    }
}

impl<M: Memory> Ready<M> {
    // Makes an empty file of that name.
    pub fn create(&mut self, name: Name) -> Result<(), Refusal>
        ensures created { SlotCall (M.Memory.model self.old.memory) (create name) (reply (λ _. []) result) (M.Memory.model self.new.memory) }
        ensures lent { M.Memory.lent self.new.memory ≡ M.Memory.lent self.old.memory }
    {
        create(&mut self.memory, name)
    }

    // Gives a file another name.
    pub fn rename(&mut self, name: Name, new: Name) -> Result<(), Refusal>
        ensures renamed { SlotCall (M.Memory.model self.old.memory) (rename name new) (reply (λ _. []) result) (M.Memory.model self.new.memory) }
        ensures lent { M.Memory.lent self.new.memory ≡ M.Memory.lent self.old.memory }
    {
        rename(&mut self.memory, name, new)
    }

    // Takes a file out.
    pub fn remove(&mut self, name: Name) -> Result<(), Refusal>
        ensures removed { SlotCall (M.Memory.model self.old.memory) (remove name) (reply (λ _. []) result) (M.Memory.model self.new.memory) }
        ensures lent { M.Memory.lent self.new.memory ≡ M.Memory.lent self.old.memory }
    {
        remove(&mut self.memory, name)
    }

    // Keeps the first bytes of a file.
    pub fn shorten(&mut self, name: Name, length: u32) -> Result<(), Refusal>
        ensures shortened { SlotCall (M.Memory.model self.old.memory) (shorten name length) (reply (λ _. []) result) (M.Memory.model self.new.memory) }
        ensures lent { M.Memory.lent self.new.memory ≡ M.Memory.lent self.old.memory }
    {
        shorten(&mut self.memory, name, length)
    }

    // Fills the buffer with the bytes of a file from an offset on, and then with zeros; answers how many the file gave.
    pub fn read(&mut self, name: Name, offset: u32, buffer: &mut [u8]) -> Result<usize, Refusal>
        ensures called { FileCall (M.Memory.model self.old.memory) (read name offset (length buffer.old)) (reply (λ n. n ∷ []) result) (M.Memory.model self.new.memory) }
        ensures quiet { Quiet (M.Memory.model self.old.memory) (M.Memory.model self.new.memory) }
        ensures filled { Filled (M.Memory.model self.old.memory) name offset result buffer.old buffer.new }
        ensures lent { M.Memory.lent self.new.memory ≡ M.Memory.lent self.old.memory }
    {
        read(&mut self.memory, name, offset, buffer)
    }

    // Turns power off and on again, and tells whether there is power then. What the store knew is gone.
    pub fn restart(self) -> (Unread<M>, bool)
        ensures gives { Restarted (M.Memory.model self.memory) result.1 (M.Memory.model result.0.memory) }
        ensures lent { M.Memory.lent result.0.memory ≡ M.Memory.lent self.memory }
    {
        Unread::new(self.memory).restart()
    }
}
