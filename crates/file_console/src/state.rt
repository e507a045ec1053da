ghost use Rattle.std.specs.Prelude.{◌≡◌, ◌≤◌, false};
ghost use Rattle.file_console.specs.Answers.{carried_of};
ghost use Rattle.file_console.specs.Outcomes.{count_of, said, shown_of};
ghost use Rattle.file_console.specs.Commands.{asks_too_much, parsed};
ghost use Rattle.file_console.specs.Session.{Does, Reads, Steps, Tells, allows, next};

use crate::answer::{Done, carried};
use crate::command::{Command, Given, SHOWN, parse};
use console::denial::{Denial, number};
use console::line::write_answer;
use console::session::Session;
use image_check::refusal::Refusal;
use layout::name::Name;
use memory::cut_point::CutPoint;
use store::format::format;
use store::read::read;
use store::recover::recover;

// What a session allows: nothing but a restart, what an unread store allows, or what a recovered one does, which `console` never has.
#[derive(Clone, Copy, PartialEq, Eq, Debug)]
pub enum State {
    // there is no power
    Off,
    // there is power, and the store was not recovered since
    Unread,
    // the store is recovered
    Ready,
}

// Reads bytes of a file into the buffer; those that the file gave are shown.
fn show_file<M: CutPoint>(
    memory: &mut M,
    name: Name,
    offset: u32,
    count: u8,
    buffer: &mut Given,
) -> Result<Done, Denial>
    requires { count ≤ 32 }
    ensures reads { Reads (M.Memory.model memory.old) name offset count (said result) (shown_of result buffer.new) (M.Memory.model memory.new) }
    ensures lent { M.Memory.lent memory.new ≡ M.Memory.lent memory.old }
{
    let given = read(memory, name, offset, &mut buffer[..usize::from(count)])?;
    Ok(Done {
        carried: Some(given as u16),
        shown: given,
    })
}

// Carries out a command that is allowed.
fn carry_out<M: CutPoint>(
    memory: &mut M,
    command: Command,
    buffer: &mut Given,
) -> Result<Done, Denial>
    requires { asks_too_much command ≡ false }
    ensures does { Does M.Memory.model M.CutPoint.cut command memory.old (said result) (shown_of result buffer.new) memory.new }
    ensures lent { M.Memory.lent memory.new ≡ M.Memory.lent memory.old }
{
    let mut carried = None;
    match command {
        Command::Restart => {
            if !memory.restart() {
                return Err(Denial::Refused(Refusal::PowerLost));
            }
        }
        Command::Format => format(memory)?,
        Command::Recover => carried = Some(u16::from(recover(memory)?)),
        Command::CutPoint(operations) => memory.cut_after(Some(u64::from(operations))),
        Command::Change(change) => change.apply(memory)?,
        Command::Read {
            name,
            offset,
            count,
        } => return show_file(memory, name, offset, count, buffer),
    }
    Ok(Done { carried, shown: 0 })
}

impl State {
    // Whether a command is allowed.
    fn allows(self, command: Command) -> bool
        ensures { result ≡ allows self command }
    {
        match command {
            Command::Restart => true,
            Command::Format | Command::Recover => self == State::Unread,
            Command::CutPoint(_) => self != State::Off,
            Command::Change(_) | Command::Read { .. } => self == State::Ready,
        }
    }

    // The state after a command that was allowed and then answered.
    fn next(self, command: Command, done: &Result<Done, Denial>) -> State
        ensures { result ≡ next self command (said done.now) }
    {
        match (command, done) {
            (_, Err(Denial::Refused(Refusal::PowerLost))) => State::Off,
            (Command::Restart, _) => State::Unread,
            (Command::Recover, Ok(_)) => State::Ready,
            _ => self,
        }
    }

    // Carries out a command on a memory; the bytes that it shows are put into the buffer.
    pub fn step<M: CutPoint>(
        &mut self,
        memory: &mut M,
        command: Command,
        buffer: &mut Given,
    ) -> Result<Done, Denial>
        ensures steps { Steps M.Memory.model M.CutPoint.cut self.old command memory.old (said result) (shown_of result buffer.new) self.new memory.new }
        ensures lent { M.Memory.lent memory.new ≡ M.Memory.lent memory.old }
    {
        if command.asks_too_much() {
            return Err(Denial::BadCommand);
        }
        if !self.allows(command) {
            return Err(Denial::NotAllowed);
        }
        let done = carry_out(memory, command, buffer);
        *self = self.next(command, &done);
        done
    }
}

// The value that an answer carries, and how many bytes of the buffer it shows.
fn told(answer: &Result<Done, Denial>) -> (Option<u16>, usize)
    ensures carried { result.0 ≡ carried_of (said answer.now) }
    ensures shown { result.1 ≡ count_of answer.now }
{
    match answer {
        Ok(done) => (done.carried, done.shown),
        Err(denial) => (carried(*denial), 0),
    }
}

impl<M: CutPoint> Session<M> for State {
    type Command = Command;

    ghost first = { parsed };

    ghost tells = { Tells M.Memory.model M.CutPoint.cut };

    fn parse(input: &[u8]) -> Option<(Command, &[u8])> {
        parse(input)
    }

    fn answer(&mut self, memory: &mut M, command: Command, out: &mut [u8]) -> Option<usize> {
        let mut buffer = [0u8; SHOWN];
        let answer = self.step(memory, command, &mut buffer);
        let (carried, shown) = told(&answer);
        write_answer(
            out,
            command.letter(),
            number(&answer),
            carried,
            &buffer[..shown],
        )
    }
}
