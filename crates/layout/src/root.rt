ghost use Rattle.std.specs.Prelude.{◌≡◌};
ghost use Rattle.layout.specs.Packed.{RootIn, RootWord};

// What a root word tells of a file: the block of its map, and its length in bytes.
#[derive(Clone, Copy, PartialEq, Eq, Debug)]
pub struct Root {
    pub map: u16,
    pub length: u32,
}

// The lowest sixteen bits are the map's block, the upper half is the length. The word zero is that of an empty file and tells of a root
// too, so it is none of an `Option`'s.
impl From<u64> for Root {
    ghost from_gives = { RootIn };

    fn from(word: u64) -> Root {
        Root {
            map: (word & 0xffff) as u16,
            length: (word >> 32) as u32,
        }
    }
}

// The root word, with zeros in bits 16 to 31.
impl From<Root> for u64 {
    ghost from_gives = { RootWord };

    fn from(root: Root) -> u64 {
        (u64::from(root.length) << 32) | u64::from(root.map)
    }
}
