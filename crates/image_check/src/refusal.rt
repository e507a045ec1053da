ghost use Rattle.std.specs.Prelude.{◌≡◌, Some};
ghost use Rattle.image_check.specs.Answers.{number, rule_number, refusal_text};
ghost use Rattle.image_check.specs.declared.refusal.Refusal.TheVariants.{PowerLost, BadImage};
ghost use Rattle.image_check.specs.declared.refusal.Rule.TheVariants.{LogEntry};

use layout::log::UnknownState;
use memory::fault::Fault;
use std::error::Error;
use std::fmt;

// A rule of the image, in the order in which they are tried.
#[derive(Clone, Copy, PartialEq, Eq, Debug)]
pub enum Rule {
    // word 0 is the count of blocks
    BlockCount,
    // names are well formed and differ
    Names,
    // a named slot has a good root word
    Roots,
    // map words are data blocks
    Maps,
    // no block is used twice
    Blocks,
    // the log entry is good
    LogEntry,
}

// Why a call was not done.
#[derive(Clone, Copy, PartialEq, Eq, Debug)]
pub enum Refusal {
    // power was lost
    PowerLost,
    // the first image rule that fails
    BadImage(Rule),
    // a name is not well formed
    BadName,
    // no file has the name
    NoFile,
    // a file has the new name already
    NameTaken,
    // sixteen files exist
    TooManyFiles,
    // a length is above the file's
    TooLong,
    // the memory's words do not make 6 to 4,096 whole blocks
    WrongSize,
}

// The number of the rule.
impl From<Rule> for u8 {
    ghost from_gives = { λ rule n. n ≡ rule_number rule };

    fn from(rule: Rule) -> u8 {
        match rule {
            Rule::BlockCount => 1,
            Rule::Names => 2,
            Rule::Roots => 3,
            Rule::Maps => 4,
            Rule::Blocks => 5,
            Rule::LogEntry => 6,
        }
    }
}

// The number that stands for the refusal.
impl From<Refusal> for u8 {
    ghost from_gives = { λ refusal n. n ≡ number refusal };

    fn from(refusal: Refusal) -> u8 {
        match refusal {
            Refusal::PowerLost => 1,
            Refusal::BadImage(_) => 2,
            Refusal::BadName => 3,
            Refusal::NoFile => 4,
            Refusal::NameTaken => 5,
            Refusal::TooManyFiles => 6,
            Refusal::TooLong => 7,
            Refusal::WrongSize => 9,
        }
    }
}

// A call asks for no place outside the memory, so a fault tells it that power was lost.
impl From<Fault> for Refusal {
    ghost from_gives = { λ fault refusal. refusal ≡ PowerLost };

    fn from(fault: Fault) -> Refusal {
        match fault {
            Fault::Down | Fault::Outside => Refusal::PowerLost,
        }
    }
}

// A log whose state is none of the three breaks the last rule.
impl From<UnknownState> for Refusal {
    ghost from_gives = { λ state refusal. refusal ≡ BadImage LogEntry };

    fn from(_state: UnknownState) -> Refusal {
        Refusal::BadImage(Rule::LogEntry)
    }
}

impl fmt::Display for Refusal {
    ghost output = { λ refusal. Some (refusal_text refusal) };

    fn fmt<W: fmt::Write>(&self, f: &mut fmt::Formatter<W>) -> fmt::Result {
        match self {
            Refusal::PowerLost => f.write_str("power was lost"),
            Refusal::BadImage(rule) => write!(f, "rule {} of the image fails", u8::from(*rule)),
            Refusal::BadName => f.write_str("a name is not well formed"),
            Refusal::NoFile => f.write_str("no file has the name"),
            Refusal::NameTaken => f.write_str("a file has the new name"),
            Refusal::TooManyFiles => f.write_str("sixteen files exist"),
            Refusal::TooLong => f.write_str("the length is above that of the file"),
            Refusal::WrongSize => f.write_str("the words do not make 6 to 4096 whole blocks"),
        }
    }
}

impl Error for Refusal {}
