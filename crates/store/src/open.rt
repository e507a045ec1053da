ghost use Rattle.std.specs.Prelude.{◌≡◌, ℕ, ◌<◌, None, MatchOption, ◌≢◌};
ghost use Rattle.memory.specs.Bytes.{bytes_of};
ghost use Rattle.layout.specs.Image.{files_of};
ghost use Rattle.layout.specs.Table.{find};
ghost use Rattle.image_check.specs.Directory.{slot_at, Lists};
ghost use Rattle.store.specs.Calls.{Opens, FileOf};

use crate::file::OpenFile;
use image_check::directory::Directory;
use image_check::image::survey_image;
use image_check::refusal::{Refusal, Rule};
use layout::log::LogState;
use layout::name::{Name, is_well_formed, name_word};
use layout::place::LOG_STATE;
use memory::memory::Memory;

// The directory for a call on that name; it takes a well-formed one, and a sound image whose log is free.
pub(crate) fn open<M: Memory>(memory: &mut M, name: &Name) -> Result<Directory, Refusal>
    ensures opens { Opens (M.Memory.model memory.old) name.now (Lists (M.Memory.model memory.old).seen) ⊥ result (M.Memory.model memory.new) }
    ensures lent { M.Memory.lent memory.new ≡ M.Memory.lent memory.old }
{
    if !is_well_formed(name) {
        return Err(Refusal::BadName);
    }
    let survey = survey_image(memory)?;
    // The check has loaded the state, too; a cut point counts the loads, so it stays.
    if LogState::try_from(memory.load(LOG_STATE)?)? != LogState::Free {
        return Err(Refusal::BadImage(Rule::LogEntry));
    }
    Ok(survey.directory)
}

// The first slot that has the name word.
pub(crate) fn find_slot(directory: &Directory, name: u64) -> Option<usize>
    ensures { MatchOption result ((s : ℕ) → s < 16 → bytes_of (slot_at directory.now s).name ≢ bytes_of name) (λ s. (s < 16) × ((slot_at directory.now s).name ≡ name)) }
{
    directory.slots.iter().position(|slot| slot.name == name)
}

// The first slot that is empty.
pub(crate) fn find_empty(directory: &Directory) -> Option<usize>
    ensures { MatchOption result ((s : ℕ) → s < 16 → (slot_at directory.now s).name ≢ 0) (λ s. (s < 16) × ((slot_at directory.now s).name ≡ 0)) }
{
    directory.slots.iter().position(|slot| slot.is_empty())
}

// The file of that name, for a call on it.
pub(crate) fn open_file<M: Memory>(memory: &mut M, name: Name) -> Result<OpenFile, Refusal>
    ensures opens { Opens (M.Memory.model memory.old) name (FileOf (M.Memory.model memory.old).seen name) (find name (files_of (M.Memory.model memory.old).seen) ≡ None) result (M.Memory.model memory.new) }
    ensures lent { M.Memory.lent memory.new ≡ M.Memory.lent memory.old }
{
    let directory = open(memory, &name)?;
    let Some(slot) = find_slot(&directory, name_word(name)) else {
        return Err(Refusal::NoFile);
    };
    Ok(OpenFile { directory, slot })
}
