// Loads over the two memories. A memory is dirty when a heap is made in it, and is looked at again afterwards.
use crate::answered::Answered;
use crate::beside::Beside;
use crate::load::{Load, Manner};
use crate::schemes::Modelled;
use crate::tally::Tally;
use heap::{Heap, WORDS};
use memory::Memory;
use std::alloc::{AllocError, Global};
use std::fmt;

/// The loads that each memory and scheme has to bear: a manner and a seed.
const LOADS: [(Manner, u64); 6] = [
    (Manner::Wild, 1),
    (Manner::Scarce, 2),
    (Manner::Thicket, 3),
    (Manner::Wild, 20_001),
    (Manner::Scarce, 20_002),
    (Manner::Thicket, 20_003),
];

/// The calls of a load.
const CALLS: u32 = 12_000;

/// What a memory holds before the first heap is made in it.
const WORD: u32 = 0x5eed_beef;

const BYTE: u8 = 0xa5;

/// What a memory is made of, and how much of it there is.
#[derive(Clone, Copy)]
pub enum Extent {
    Words(u32),
    /// Four bytes for each word, and some more, which make no word.
    Bytes { words: u32, left: u32 },
}

impl Extent {
    /// How many words the memory has.
    fn words(self) -> u32 {
        match self {
            Extent::Words(words) | Extent::Bytes { words, .. } => words,
        }
    }

    /// How many of them a heap uses.
    pub fn used(self) -> usize {
        (self.words() as usize).min(WORDS)
    }
}

impl fmt::Display for Extent {
    fn fmt<W: fmt::Write>(&self, f: &mut fmt::Formatter<W>) -> fmt::Result {
        match self {
            Extent::Words(words) => write!(f, "{words} words"),
            Extent::Bytes { words, left } => write!(f, "bytes of {words} words and {left} more"),
        }
    }
}

/// A memory that was dirty, and what stands in it behind a heap's words.
// An impl for each slice: one impl over a trait of cells would need two constants of each kind of cell, in place of one line of each.
trait Dirty: Memory + Drop {
    /// Whether everything behind so many words is as it was.
    fn stays_behind(&self, used: usize) -> bool;
}

impl Dirty for &mut [u32] {
    fn stays_behind(&self, used: usize) -> bool {
        self.iter().skip(used).all(|word| *word == WORD)
    }
}

impl Dirty for &mut [u8] {
    fn stays_behind(&self, used: usize) -> bool {
        self.iter()
            .skip(used.saturating_mul(4))
            .all(|byte| *byte == BYTE)
    }
}

/// Gives a load to a new heap in the memory, and to the model beside it, and gives the memory back.
fn run<M: Memory + Drop, S: Modelled>(
    memory: M,
    scheme: S,
    mut beside: Beside,
    mut load: Load,
    tally: &mut Tally,
) -> M {
    let mut heap = Heap::new(memory, scheme);
    for _ in 0..CALLS {
        let call = load.next_call();
        let (next, answer) = heap.run(call);
        heap = next;
        let answered = Answered { call, answer };
        tally.count(answered);
        tally.find(beside.compare(&heap, answered));
    }
    let (memory, _) = heap.into_parts();
    memory
}

/// All loads over the memory.
fn run_all<M: Dirty, S: Modelled>(
    alloc: Global,
    mut memory: M,
    scheme: S,
    extent: Extent,
) -> Result<Tally, AllocError> {
    let mut tally = Tally::default();
    for (manner, seed) in LOADS {
        let beside = Beside::new(alloc, extent.words(), S::RULES)?;
        let load = Load::new(manner, seed);
        tally.begin();
        memory = run(memory, scheme, beside, load, &mut tally);
        tally.find_behind(memory.stays_behind(extent.used()));
    }
    Ok(tally)
}

/// All loads over a memory of this extent.
pub fn over<S: Modelled>(alloc: Global, extent: Extent, scheme: S) -> Result<Tally, AllocError> {
    match extent {
        Extent::Words(words) => {
            let mut memory = vec![in alloc; WORD; words as usize]?;
            run_all(alloc, memory.as_mut_slice(), scheme, extent)
        }
        Extent::Bytes { words, left } => {
            let bytes = (words as usize)
                .saturating_mul(4)
                .saturating_add(left as usize);
            let mut memory = vec![in alloc; BYTE; bytes]?;
            run_all(alloc, memory.as_mut_slice(), scheme, extent)
        }
    }
}
