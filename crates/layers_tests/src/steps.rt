use memory::fault::Fault;
use memory::memory::Memory;
use std::process::Abort;

// Stores 7 in word 1 of a memory of four words and then a barrier, and after it 8 in word 2, which a restart forgets.
pub(crate) fn store_across_restart<M: Memory>(rt: &impl Abort, memory: &mut M) {
    assert!(rt; memory.restart());
    assert_eq!(rt; memory.count(), 4);
    assert_eq!(rt; memory.store(1, 7), Ok(()));
    assert_eq!(rt; memory.load(1), Ok(7));
    assert_eq!(rt; memory.barrier(), Ok(()));
    assert_eq!(rt; memory.store(2, 8), Ok(()));
    assert!(rt; memory.restart());
    assert_eq!(rt; memory.load(1), Ok(7));
    assert_eq!(rt; memory.load(2), Ok(0));
    assert_eq!(rt; memory.store(4, 9), Err(Fault::Outside));
}
