ghost use Rattle.std.specs.Prelude.{◌≡◌};
ghost use Rattle.console.specs.Commands.{parsed};
ghost use Rattle.console.specs.Session.{Steps, Tells};

use crate::command::{Command, parse};
use crate::denial::{Denial, number};
use crate::line::write_line;
use crate::session::Session;
use image_check::refusal::Refusal;
use memory::cut_point::CutPoint;
use store::format::format;

// What a session allows: nothing but a restart, or what an unread store allows.
#[derive(Clone, Copy, PartialEq, Eq, Debug)]
pub enum State {
    // there is no power
    Off,
    // there is power, and the store was not recovered since
    Unread,
}

impl State {
    // Carries out a command on a memory, and answers it.
    pub fn step<M: CutPoint>(&mut self, memory: &mut M, command: Command) -> Result<(), Denial>
        ensures steps { Steps M.Memory.model M.CutPoint.cut self.old command memory.old result self.new memory.new }
        ensures lent { M.Memory.lent memory.new ≡ M.Memory.lent memory.old }
    {
        match (*self, command) {
            (_, Command::Restart) => {
                *self = State::Off;
                if !memory.restart() {
                    return Err(Denial::Refused(Refusal::PowerLost));
                }
                *self = State::Unread;
                Ok(())
            }
            (State::Unread, Command::Format) => {
                let answer = format(memory);
                if let Err(Refusal::PowerLost) = answer {
                    *self = State::Off;
                }
                Ok(answer?)
            }
            (State::Unread, Command::CutPoint(operations)) => {
                memory.cut_after(Some(u64::from(operations)));
                Ok(())
            }
            (State::Off, _) => Err(Denial::NotAllowed),
        }
    }
}

impl<M: CutPoint> Session<M> for State {
    type Command = Command;

    ghost first = { parsed };

    ghost tells = { Tells M.Memory.model M.CutPoint.cut };

    fn parse(input: &[u8]) -> Option<(Command, &[u8])> {
        parse(input)
    }

    fn answer(&mut self, memory: &mut M, command: Command, out: &mut [u8]) -> Option<usize> {
        let answer = self.step(memory, command);
        write_line(out, command.letter(), number(&answer))
    }
}
