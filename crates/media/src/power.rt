ghost use Rattle.std.specs.Prelude.{◌≡◌, true, false, None};
ghost use Rattle.media.specs.Power.{spent, answer, power_after};

use memory::fault::Fault;

// Whether there is power, and how many loads, stores and barriers are still taken before it is lost. A cut point can be set without
// power, so the two stand beside each other.
#[derive(Clone, Copy)]
pub struct Power {
    pub up: bool,
    pub cut: Option<u64>,
}

impl Power {
    pub const OFF: Power = Power {
        up: false,
        cut: None,
    };

    // no cut point is set
    pub const ON: Power = Power {
        up: true,
        cut: None,
    };

    // Takes a load, a store or a barrier, or loses power at it.
    pub fn spend(&mut self) -> Result<(), Fault>
        ensures value { result ≡ answer self.old true tt }
        ensures after { self.new ≡ spent self.old }
    {
        if !self.up {
            return Err(Fault::Down);
        }
        match self.cut {
            None => Ok(()),
            Some(0) => {
                self.up = false;
                Err(Fault::Down)
            }
            Some(left) => {
                self.cut = Some(left - 1);
                Ok(())
            }
        }
    }

    // Takes an operation on a place inside or past the last word, or says why not.
    pub fn admit(&mut self, inside: bool) -> Result<(), Fault>
        ensures value { result ≡ answer self.old inside tt }
        ensures after { self.new ≡ power_after self.old inside }
    {
        if self.up && !inside {
            return Err(Fault::Outside);
        }
        self.spend()
    }
}
