ghost use Rattle.std.specs.Prelude.{◌≡◌, ◌<◌, Decides};
ghost use Rattle.layout.specs.Image.{DataBlock, GoodRoot};
ghost use Rattle.image_check.specs.Check.{NameGood, RootGood, Formed, Single, Differ, Rooted};

use layout::name::{is_well_formed, name_bytes};
use layout::root::Root;

// The two words of a slot; one whose name word is zero is empty.
#[derive(Clone, Copy, PartialEq, Eq, Debug)]
pub struct Slot {
    pub name: u64,
    pub root: u64,
}

// The words of the sixteen slots.
#[derive(Clone, Copy, PartialEq, Eq, Debug)]
pub struct Directory {
    pub slots: [Slot; 16],
}

// Whether a block may hold a map or file bytes, in a memory of so many blocks.
pub(crate) fn is_data_block(block: u64, blocks: u64) -> bool
    ensures { Decides result (DataBlock blocks block) }
{
    3 <= block && block < blocks
}

// Whether a root word is zero, or has a map among the data blocks and a length.
fn root_is_good(word: u64, blocks: u64) -> bool
    ensures { Decides result (GoodRoot blocks word) }
{
    if word == 0 {
        return true;
    }
    let root = Root::from(word);
    let map = u64::from(root.map);
    word >> 16 & 0xffff == 0
        && is_data_block(map, blocks)
        && 1 <= root.length
        && root.length <= 8192
}

impl Slot {
    // Whether no file is in the slot.
    pub fn is_empty(&self) -> bool
        ensures { Decides result (self.now.name ≡ 0) }
    {
        self.name == 0
    }

    // Whether the slot is empty, or its name is well formed.
    fn has_good_name(&self) -> bool
        ensures { Decides result (NameGood self.now) }
    {
        self.is_empty() || is_well_formed(&name_bytes(self.name))
    }

    // Whether the slot is empty, or its root word is good.
    fn has_good_root(&self, blocks: u64) -> bool
        ensures { Decides result (RootGood blocks self.now) }
    {
        self.is_empty() || root_is_good(self.root, blocks)
    }
}

impl Directory {
    // Whether each name is well formed.
    fn names_formed(&self) -> bool
        ensures { Decides result (Formed self.now) }
    {
        self.slots.iter().all(|slot| slot.has_good_name())
    }

    // Whether the name in a slot stands in no later slot.
    fn name_is_single(&self, s: usize) -> bool
        requires { s < 16 }
        ensures { Decides result (Single self.now s) }
    {
        let name = self.slots[s].name;
        // With `any` the goal `returns` stays open: nothing says there that a slot's name word is below 2 ^ 64.
        for later in &self.slots[s + 1..] {
            if later.name == name {
                return false;
            }
        }
        true
    }

    // Whether no name stands twice.
    fn names_differ(&self) -> bool
        ensures { Decides result (Differ self.now) }
    {
        for (s, slot) in self.slots.iter().enumerate() {
            if !slot.is_empty() && !self.name_is_single(s) {
                return false;
            }
        }
        true
    }

    // Whether each name is well formed, and none stands twice.
    pub(crate) fn names_good(&self) -> bool
        ensures { Decides result (Formed self.now × Differ self.now) }
    {
        self.names_formed() && self.names_differ()
    }

    // Whether each named slot has a good root word.
    pub(crate) fn roots_good(&self, blocks: u64) -> bool
        ensures { Decides result (Rooted blocks self.now) }
    {
        self.slots.iter().all(|slot| slot.has_good_root(blocks))
    }
}
