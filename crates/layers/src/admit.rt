ghost use Rattle.std.specs.Prelude.{◌≡◌};
ghost use Rattle.layers.specs.Admitted.{admitted};

use memory::fault::Fault;

// Whether a layer of so many words takes a load or a store at a place: without power it takes none.
pub fn admit(up: bool, at: u64, count: u64) -> Result<(), Fault>
    ensures { result ≡ admitted up at count }
{
    if !up {
        Err(Fault::Down)
    } else if at >= count {
        Err(Fault::Outside)
    } else {
        Ok(())
    }
}
