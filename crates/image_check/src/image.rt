ghost use Rattle.std.specs.Prelude.{◌≡◌, ◌*◌, ◌≤◌};
ghost use Rattle.memory.specs.Model.{Model};
ghost use Rattle.image_check.specs.Check.{Surveyed, Checks, Surveys};
ghost use Rattle.image_check.specs.Files.{Listed};
ghost use Rattle.image_check.specs.Reading.{Since};

use crate::directory::Directory;
use crate::files::Files;
use crate::reading::{load_directory, load_word};
use crate::refusal::{Refusal, Rule};
use crate::size::blocks_in;
use layout::block_set::BlockSet;
use layout::place::BLOCK_COUNT;
use memory::memory::Memory;

// What the check finds in a sound image: the words of the slots, and the blocks in use.
#[derive(Drop)]
pub struct Survey {
    pub directory: Directory,
    pub used: BlockSet,
}

// Tries rules 1 to 3 on a memory of so many blocks, and answers its files.
fn check_directory<M: Memory>(memory: &mut M, blocks: u64) -> Result<Files, Refusal>
    ghost first: { Model }
    requires since { Since first (M.Memory.model memory.old) }
    requires some { 6 ≤ blocks }
    requires few { blocks ≤ 4096 }
    requires size { 32 * blocks ≤ first.count }
    ensures listed { Listed blocks first result (M.Memory.model memory.new) }
    ensures lent { M.Memory.lent memory.new ≡ M.Memory.lent memory.old }
{
    if load_word(memory, BLOCK_COUNT)? != blocks {
        return Err(Refusal::BadImage(Rule::BlockCount));
    }
    let directory = load_directory(memory)?;
    if !directory.names_good() {
        return Err(Refusal::BadImage(Rule::Names));
    }
    if !directory.roots_good(blocks) {
        return Err(Refusal::BadImage(Rule::Roots));
    }
    Ok(Files { directory, blocks })
}

// Tries the rules in their order on a memory of so many blocks.
fn survey_blocks<M: Memory>(memory: &mut M, blocks: u64) -> Result<Survey, Refusal>
    ghost first: { Model }
    requires since { Since first (M.Memory.model memory.old) }
    requires some { 6 ≤ blocks }
    requires few { blocks ≤ 4096 }
    requires size { 32 * blocks ≤ first.count }
    ensures surveyed { Surveyed blocks first result (M.Memory.model memory.new) }
    ensures lent { M.Memory.lent memory.new ≡ M.Memory.lent memory.old }
{
    let files = check_directory(memory, blocks)?;
    files.check_maps(memory)?;
    let used = files.used_blocks(memory)?;
    files.check_entry(memory)?;
    Ok(Survey {
        directory: files.directory,
        used,
    })
}

// Tries the image rules in their order, and answers what a sound image has or the first rule that fails.
pub fn survey_image<M: Memory>(memory: &mut M) -> Result<Survey, Refusal>
    ensures surveys { Surveys (M.Memory.model memory.old) result (M.Memory.model memory.new) }
    ensures lent { M.Memory.lent memory.new ≡ M.Memory.lent memory.old }
{
    let Some(blocks) = blocks_in(memory.count()) else {
        return Err(Refusal::WrongSize);
    };
    survey_blocks(memory, blocks)
}

// Tries the image rules in their order, and answers the blocks in use or the first rule that fails.
pub fn check_image<M: Memory>(memory: &mut M) -> Result<BlockSet, Refusal>
    ensures checks { Checks (M.Memory.model memory.old) result (M.Memory.model memory.new) }
    ensures lent { M.Memory.lent memory.new ≡ M.Memory.lent memory.old }
{
    Ok(survey_image(memory)?.used)
}
