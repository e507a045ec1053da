ghost use Rattle.std.specs.Prelude.{◌≡◌, Some};
ghost use Rattle.life.specs.Denials.{denied, denial_text};
ghost use Rattle.life.specs.declared.answer.Denial.TheVariants.{Refused};

use image_check::refusal::Refusal;
use std::error::Error;
use std::fmt;

// Why a call of a life was not done. A session can deny a command for one reason more, that no life has, so `console` has its own:
// with this one inside it, each refusal there would be wrapped twice.
#[derive(Clone, Copy, PartialEq, Eq, Debug)]
pub enum Denial {
    // the store refused it
    Refused(Refusal),
    // the state of the store does not allow it
    NotAllowed,
}

impl From<Refusal> for Denial {
    ghost from_gives = { λ refusal denial. denial ≡ Refused refusal };

    fn from(refusal: Refusal) -> Denial {
        Denial::Refused(refusal)
    }
}

// The number that stands for the denial.
impl From<Denial> for u8 {
    ghost from_gives = { λ denial n. n ≡ denied denial };

    fn from(denial: Denial) -> u8 {
        match denial {
            Denial::Refused(refusal) => u8::from(refusal),
            Denial::NotAllowed => 10,
        }
    }
}

impl fmt::Display for Denial {
    ghost output = { λ denial. Some (denial_text denial) };

    fn fmt<W: fmt::Write>(&self, f: &mut fmt::Formatter<W>) -> fmt::Result {
        match self {
            Denial::Refused(refusal) => write!(f, "{refusal}"),
            Denial::NotAllowed => f.write_str("the state of the store does not allow the call"),
        }
    }
}

impl Error for Denial {}

// What a call is answered by: what a call that is done carries, if anything, or why it was not done.
pub type Answer = Result<Option<u64>, Denial>;
