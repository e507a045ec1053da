ghost use Rattle.std.specs.Prelude.{◌≡◌, ◌<◌, true, false, is_ok, if◌then◌else◌, None, nat_lt, refl};
ghost use Rattle.std.proofs.Common.{inl};
ghost use Rattle.memory.specs.Model.{Loaded, Stored, Flushed, Restarted};
ghost use Rattle.memory.specs.Bytes.{word_at};
ghost use Rattle.media.specs.Power.{spent, answer, power_after};
ghost use Rattle.media.specs.ByteImage.{held, words_in, image_model, with_word};

use crate::power::Power;
use memory::cut_point::CutPoint;
use memory::fault::Fault;
use memory::memory::Memory;

// A memory in lent bytes: a store is in the bytes at once.
#[derive(Drop)]
pub struct ByteImage<'a> {
    bytes: &'a mut [u8],
    power: Power,
}

impl<'a> ByteImage<'a> {
    // A memory in these bytes, with its power still off.
    pub fn new(bytes: &'a mut [u8]) -> ByteImage<'a>
        ensures bytes { result.bytes ≡ bytes.entry }
        ensures power { result.power ≡ record { up = false; cut = None } }
    {
        ByteImage {
            bytes,
            power: Power::OFF,
        }
    }

    // The word at a place inside.
    fn word_at(&self, at: usize) -> u64
        requires { at < words_in (held self.now) }
        ensures { result ≡ word_at (held self.now) at }
    {
        let (words, _) = self.bytes.as_chunks::<8>();
        u64::from_le_bytes(words[at])
    }
}

// Stores a word at a place inside. Of the library's `as_chunks_mut` it is not known what the bytes are in the end, so this writes a range.
fn set_word(bytes: &mut [u8], at: usize, value: u64)
    requires { at < words_in bytes.old }
    ensures { bytes.new ≡ with_word bytes.old at value }
{
    let i = 8 * at;
    bytes[i..i + 8].copy_from_slice(&value.to_le_bytes());
}

impl<'a> Memory for ByteImage<'a> {
    ghost model = { image_model };

    ghost seen_may = { λ s i lt. inl refl };

    ghost lent = { λ s. s.bytes.ghost_name };

    fn count(&self) -> u64
        ensures { result ≡ words_in (held self.now) }
    {
        (self.bytes.len() / 8) as u64
    }

    fn is_up(&self) -> bool
        ensures { result ≡ self.now.power.up }
    {
        self.power.up
    }

    fn load(&mut self, at: u64) -> Result<u64, Fault>
        ensures gives { Loaded (image_model self.old) at result (image_model self.new) }
        ensures same { self.new.bytes.ghost_name ≡ self.old.bytes.ghost_name }
        ensures value { result ≡ answer self.old.power (nat_lt at (words_in (held self.old))) (word_at (held self.old) at) }
        ensures power { self.new.power ≡ power_after self.old.power (nat_lt at (words_in (held self.old))) }
        ensures bytes { held self.new ≡ held self.old }
    {
        let inside = at < self.count();
        self.power.admit(inside)?;
        Ok(self.word_at(at as usize))
    }

    fn store(&mut self, at: u64, value: u64) -> Result<(), Fault>
        ensures gives { Stored (image_model self.old) at value result (image_model self.new) }
        ensures same { self.new.bytes.ghost_name ≡ self.old.bytes.ghost_name }
        ensures value { result ≡ answer self.old.power (nat_lt at (words_in (held self.old))) tt }
        ensures power { self.new.power ≡ power_after self.old.power (nat_lt at (words_in (held self.old))) }
        ensures bytes { held self.new ≡ (if is_ok result then with_word (held self.old) at value else held self.old) }
    {
        let inside = at < self.count();
        self.power.admit(inside)?;
        set_word(self.bytes, at as usize, value);
        Ok(())
    }

    fn barrier(&mut self) -> Result<(), Fault>
        ensures gives { Flushed (image_model self.old) result (image_model self.new) }
        ensures same { self.new.bytes.ghost_name ≡ self.old.bytes.ghost_name }
        ensures value { result ≡ answer self.old.power true tt }
        ensures power { self.new.power ≡ spent self.old.power }
        ensures bytes { held self.new ≡ held self.old }
    {
        self.power.admit(true)
    }

    fn restart(&mut self) -> bool
        ensures gives { Restarted (image_model self.old) result (image_model self.new) }
        ensures same { self.new.bytes.ghost_name ≡ self.old.bytes.ghost_name }
        ensures value { result ≡ true }
        ensures power { self.new.power ≡ record { up = true; cut = None } }
        ensures bytes { held self.new ≡ held self.old }
    {
        self.power = Power::ON;
        true
    }
}

impl<'a> CutPoint for ByteImage<'a> {
    ghost cut = { λ s. s.power.cut };

    fn cut_after(&mut self, operations: Option<u64>)
        ensures cut { self.new.power.cut ≡ operations }
        ensures same { image_model self.new ≡ image_model self.old }
        ensures lent { self.new.bytes.ghost_name ≡ self.old.bytes.ghost_name }
        ensures bytes { held self.new ≡ held self.old }
    {
        self.power.cut = operations;
    }
}

#[cfg(test)]
mod tests {
    use super::*;
    use std::test::Fail;

    #[test]
    fn a_store_is_in_the_bytes_lowest_first(rt: HostRuntime) -> Result<(), Fail> {
        let mut bytes = [0; 12];
        let mut image = ByteImage::new(&mut bytes);
        assert!(rt; image.restart());
        image.store(0, 0x0807_0605_0403_0201)?;
        assert_eq!(rt; bytes, [1, 2, 3, 4, 5, 6, 7, 8, 0, 0, 0, 0]);
        Ok(())
    }

    #[test]
    fn a_place_outside_is_told_at_the_cut_point(rt: HostRuntime) {
        let mut bytes = [0; 16];
        let mut image = ByteImage::new(&mut bytes);
        assert!(rt; image.restart());
        image.cut_after(Some(0));
        assert_eq!(rt; image.load(2), Err(Fault::Outside));
        assert_eq!(rt; image.load(1), Err(Fault::Down));
    }
}
