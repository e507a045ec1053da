use layout::name::Name;
use store::change::Change;

// What a store is asked in a life.
#[derive(Clone, Copy, PartialEq, Eq, Debug)]
pub enum Call {
    // turn power off and on again
    Restart,
    // make the store ready for file calls
    Recover,
    // change the directory
    Change(Change),
    // read a file from an offset on
    Read { name: Name, offset: u32 },
}
