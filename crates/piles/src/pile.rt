use layers::part::Run;
use memory::memory::Memory;
use waiting::words::Waiting;

pub mod calls;

// Any number of layers in any order over a base memory. Its calls tell of every layer, those of `Cache` and `Part` of the one below.
#[derive(Drop)]
pub enum Pile<M: Memory> {
    Base(M),
    Cache(Box<Pile<M>>, Waiting),
    Part(Box<Pile<M>>, Run),
}
