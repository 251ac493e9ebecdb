// The first calls of a heap, as README.md shows them: between the two lines that name it, this file and README.md are the same.
#![tactic(auto)]

// README.md from here
use graph::Refusal;
use heap::Heap;
use memory::Memory;
use scheme::{Prefix, Scheme};
use std::io;

/// Makes a record of three fields with −7 in one of them; tells the live words.
fn make_record<M: Memory, S: Scheme>(heap: &mut Heap<M, S>) -> Result<u32, Refusal> {
    heap.map(0, 1, 31, 31)?; // handle 0: a map of rule 1, with no name and no parent
    heap.layout(1, 3, 0)?; // handle 1: a layout of three fields, the first of them raw
    heap.record(2, 1)?; // handle 2: a record of that layout
    heap.num(3, -7)?;
    heap.save(2, 1, 3)?; // its field 1 is now −7
    Ok(heap.collect()) // 14 words are live
}

fn main(rt: HostRuntime) -> io::Result<()> {
    let mut words = [0u32; 64];
    let mut heap = Heap::new(&mut words[..], Prefix);
    let made = make_record(&mut heap);
    // The same by steps. A heap may not be let go: at the end it is taken apart.
    let (heap, live) = heap.begin().draw().close();
    let (_, _) = heap.into_parts();
    match made {
        Ok(collected) => println!(rt; "{collected} words are live, and by steps {live}"),
        Err(refusal) => println!(rt;
            "refused with {} at {}",
            refusal.number(),
            refusal.position()
        ),
    }
}
// README.md to here
