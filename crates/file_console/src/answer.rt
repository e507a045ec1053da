ghost use Rattle.std.specs.Prelude.{◌≡◌, ◌<◌, ◌≤◌, Some};
ghost use Rattle.file_console.specs.Answers.{denial_carries};

use console::denial::Denial;
use image_check::refusal::Refusal;

// What a command gives that was done: the value that it carries, and how many bytes of the buffer it shows. A slice in place of the
// count would end what is known of the buffer; an enum of three kinds is longer, since a variant has no ghost field for the bound.
#[derive(Clone, Copy, PartialEq, Eq, Debug)]
pub struct Done {
    pub carried: Option<u16>,
    pub shown: usize,
    // a command that shows bytes carries how many
    pub ghost counted: { 0 < shown → carried ≡ Some shown },
    pub ghost few: { shown ≤ 32 },
}

// The value that a denial carries: of a bad image the rule that fails.
pub fn carried(denial: Denial) -> Option<u16>
    ensures { result ≡ denial_carries denial }
{
    match denial {
        Denial::Refused(Refusal::BadImage(rule)) => Some(u16::from(u8::from(rule))),
        _ => None,
    }
}
