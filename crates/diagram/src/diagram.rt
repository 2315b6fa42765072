// A tensor decision diagram: its nodes in a lent store, and the results that are remembered in a lent cache.
use crate::make::State;

// (Nodes have numbers, and places in lent bytes: document 01 says so, and has no heap. `IsSound` stands at each method
// and in no invariant of the type, since it is not true before `start`, within a collection and after `Full`; and
// `KeepsLoans` speaks of the diagram before a method and after it.)
#[derive(Drop)]
pub struct Diagram<'a> {
    pub store: &'a mut [u8],
    pub cache: &'a mut [u64],
    pub state: State,
}

// The nodes would be more than the store holds.
#[derive(Clone, Copy, Drop)]
pub struct Full;
