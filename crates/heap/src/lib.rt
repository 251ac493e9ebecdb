// A heap of records, layouts and maps over any memory and scheme.
#![tactic(auto)]

use memory::Memory;
use scheme::Scheme;
use space::{Bounds, Space};

mod aside;
mod checks;
mod closing;
mod collecting;
mod drawing;
mod fields;
mod giving;
mod handles;
mod making;
mod opening;
mod parts;
mod reading;
mod steps;

pub use aside::{Aside, Phase};

/// The most words that a heap uses, whatever its memory has.
pub const WORDS: usize = space::WORDS as usize;

// Each inner step says that the scheme stays. A struct of space and bounds alone would spare them the clause, and lengthen each path to a handle.
/// A heap at rest: its words and handles, its scheme, and where its two sides end.
pub struct Heap<M: Memory, S: Scheme> {
    space: Space<M>,
    scheme: S,
    bounds: Bounds,
}

/// A heap whose collection is begun: exactly its reachable objects are marked. It takes no call; draw it, or give the collection up.
pub struct Begun<M: Memory, S: Scheme> {
    heap: Heap<M, S>,
    live: u32,
}

/// A heap whose references are threaded. It takes no call: close it.
pub struct Drawn<M: Memory, S: Scheme> {
    heap: Heap<M, S>,
    live: u32,
}
