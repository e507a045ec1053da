ghost use Rattle.std.specs.Prelude.{◌≡◌, ◌/◌, if◌then◌else◌, Some, None};
ghost use Rattle.image_check.specs.Size.{suits};

use layout::place::{BLOCK_WORDS, MOST_BLOCKS};

// The count of blocks in a memory of so many words, if the store takes such a memory.
pub fn blocks_in(words: u64) -> Option<u64>
    ensures { result ≡ (if suits words then Some (words / 32) else None) }
{
    let blocks = words / BLOCK_WORDS;
    if words % BLOCK_WORDS == 0 && blocks >= 6 && blocks <= MOST_BLOCKS {
        Some(blocks)
    } else {
        None
    }
}
