ghost use Rattle.std.specs.Prelude.{◌≡◌};
ghost use Rattle.layers.specs.StoredAll.{unless_outside};

use memory::fault::Fault;

// Of a store that went below: one past the last word there means nothing.
pub fn unless_outside(stored: Result<(), Fault>) -> Result<(), Fault>
    ensures { result ≡ unless_outside stored }
{
    match stored {
        Ok(()) | Err(Fault::Outside) => Ok(()),
        Err(Fault::Down) => Err(Fault::Down),
    }
}
