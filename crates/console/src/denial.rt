ghost use Rattle.std.specs.Prelude.{◌≡◌, Some};
ghost use Rattle.console.specs.Denials.{denial_text, denied, number_of};
ghost use Rattle.console.specs.declared.denial.Denial.TheVariants.{Refused};

use image_check::refusal::Refusal;
use std::error::Error;
use std::fmt;

// Why a command was not done.
#[derive(Clone, Copy, PartialEq, Eq, Debug)]
pub enum Denial {
    // the call was refused
    Refused(Refusal),
    // the state does not allow the command
    NotAllowed,
    // the command is unknown, short or too large
    BadCommand,
}

impl From<Refusal> for Denial {
    ghost from_gives = { λ refusal d. d ≡ Refused refusal };

    fn from(refusal: Refusal) -> Denial {
        Denial::Refused(refusal)
    }
}

// The number that stands for the denial.
impl From<Denial> for u8 {
    ghost from_gives = { λ d n. n ≡ denied d };

    fn from(denial: Denial) -> u8 {
        match denial {
            Denial::Refused(refusal) => u8::from(refusal),
            Denial::NotAllowed => 10,
            Denial::BadCommand => 11,
        }
    }
}

impl fmt::Display for Denial {
    ghost output = { λ denial. Some (denial_text denial) };

    fn fmt<W: fmt::Write>(&self, f: &mut fmt::Formatter<W>) -> fmt::Result {
        match self {
            Denial::Refused(refusal) => write!(f, "{refusal}"),
            Denial::NotAllowed => f.write_str("the state does not allow the command"),
            Denial::BadCommand => f.write_str("the command is unknown, short or too large"),
        }
    }
}

impl Error for Denial {}

// The number of an answer: 0 for done. Neither `Result` nor `u8` is declared here, so it is no `From`.
pub fn number<T>(answer: &Result<T, Denial>) -> u8
    ensures { result ≡ number_of answer.now }
{
    match answer {
        Ok(_) => 0,
        Err(denial) => u8::from(*denial),
    }
}
