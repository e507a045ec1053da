// A value and the place of the word that holds it, or is to hold it.
#[derive(Clone, Copy, PartialEq, Eq, Debug)]
pub struct Word {
    pub at: u64,
    pub value: u64,
}
