// The examples of the rules, and long random loads, to the heap and to the model beside it, over both memories, both schemes and heaps of many sizes.
#![tactic(auto)]

mod answered;
mod beside;
mod course;
mod examples;
mod load;
mod picture;
mod schemes;
mod tally;

use course::{Extent, over};
use examples::EXAMPLES;
use scheme::{Mask, Prefix};
use schemes::Modelled;
use std::io;

/// The memories: how many words they have, and how many bytes more where they are bytes.
const LENGTHS: [(u32, u32); 9] = [
    (0, 3),
    (1, 1),
    (5, 2),
    (16, 3),
    (40, 1),
    (64, 2),
    (200, 3),
    (16_384, 1),
    (20_000, 2),
];

fn verdict_of(holds: bool) -> &'static str {
    if holds { "holds" } else { "DOES NOT HOLD" }
}

/// The examples, each over both memories.
fn try_examples(rt: &HostRuntime) -> io::Result<()> {
    for example in EXAMPLES {
        let name = example.name;
        let verdict = verdict_of(example.holds(rt.alloc())?);
        println!(rt; "{name}: {verdict}")?;
    }
    Ok(())
}

/// The loads under the scheme, over memories of these extents.
fn try_loads<S: Modelled>(rt: &HostRuntime, scheme: S, extents: &[Extent]) -> io::Result<()> {
    for extent in extents {
        let tally = over(rt.alloc(), *extent, scheme)?;
        println!(rt; "{}, {extent}, W {}: {tally}", S::NAME, extent.used())?;
    }
    Ok(())
}

fn main(rt: HostRuntime) -> io::Result<()> {
    let words = LENGTHS.map(|(words, _)| Extent::Words(words));
    let bytes = LENGTHS.map(|(words, left)| Extent::Bytes { words, left });
    try_examples(&rt)?;
    try_loads(&rt, Prefix, &words)?;
    try_loads(&rt, Mask, &words)?;
    try_loads(&rt, Prefix, &bytes)?;
    try_loads(&rt, Mask, &bytes)
}
