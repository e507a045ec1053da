ghost use Rattle.std.specs.Prelude.{◌≡◌};
ghost use Rattle.memory.specs.Bytes.{little_endian, bytes_of};
ghost use Rattle.layout.specs.Names.{letter, well_formed};

// The eight bytes of a name.
pub type Name = [u8; 8];

// Whether the byte is one that names are made of: A to Z, 0 to 9 or hyphen.
fn is_letter(byte: u8) -> bool
    ensures { result ≡ letter byte }
{
    matches!(byte, b'A'..=b'Z' | b'0'..=b'9' | b'-')
}

// Whether these are eight bytes: one or more of those, and then zeros.
pub fn is_well_formed(name: &[u8]) -> bool
    ensures { result ≡ well_formed name.now }
{
    if name.len() != 8 || !is_letter(name[0]) {
        return false;
    }
    let mut ended = false;
    for &byte in &name[1..8] {
        if byte == 0 {
            ended = true;
        } else if ended || !is_letter(byte) {
            return false;
        }
    }
    true
}

// The word that holds a name, its first byte lowest. Neither type is this crate's own, so it is a function and no `From`.
pub fn name_word(name: Name) -> u64
    ensures value { result ≡ little_endian name }
    ensures bytes { bytes_of result ≡ name }
{
    u64::from_le_bytes(name)
}

// The eight bytes of a name word.
pub fn name_bytes(word: u64) -> Name
    ensures value { result ≡ bytes_of word }
    ensures back { little_endian result ≡ word }
{
    word.to_le_bytes()
}
