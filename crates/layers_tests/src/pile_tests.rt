use crate::steps::store_across_restart;
use layers::part::Run;
use media::lagging::LaggingMemory;
use piles::pile::Pile;
use std::alloc::{AllocError, Global};

// A cache over words 2 to 5 of a cache over eight words that lag.
fn three_layers(heap: Global) -> Result<Pile<LaggingMemory>, AllocError> {
    let base = Pile::base(LaggingMemory::new(heap, 8, 0)?);
    let lower = Pile::cached(heap, base)?;
    let part = Pile::part_of(heap, lower, Run { first: 2, count: 4 })?;
    Ok(Pile::cached(heap, part)?)
}

#[test]
fn a_barrier_reaches_the_base(rt: HostRuntime) -> Result<(), AllocError> {
    let mut pile = three_layers(rt.alloc())?;
    store_across_restart(&rt, &mut pile);
    Ok(())
}
