// A heap put aside: between two calls that come from outside it is its memory, its scheme and a few words.
ghost use Rattle.std.specs.Prelude.{◌≡◌};
ghost use Rattle.heap.specs.Asides.{heap_of, Resumes, Suspends};

use crate::{Begun, Drawn, Heap};
use memory::Memory;
use scheme::Scheme;
use space::{Bounds, Space};

// C keeps the phase as a number, and may hand back any.
const RESTING: u32 = 0;

const BEGUN: u32 = 1;

const DRAWN: u32 = 2;

// Each end for itself and not as `Bounds`, so that the layout that C sees stands here whole.
/// All that a heap is beside its memory and its scheme, with its phase. Only a heap that is put aside makes one.
#[repr(C)]
#[derive(Clone, Copy)]
pub struct Aside {
    phase: u32,
    low: u32,
    high: u32,
    limit: u32,
    live: u32,
    handles: [u32; 32],
}

/// A heap in whichever of its phases it is.
pub enum Phase<M: Memory, S: Scheme> {
    Resting(Heap<M, S>),
    Begun(Begun<M, S>),
    Drawn(Drawn<M, S>),
}

impl<M: Memory, S: Scheme> Phase<M, S> {
    /// The heap that was put aside, over the memory and with the scheme.
    pub fn resume(memory: M, scheme: S, aside: &Aside) -> Self
        ensures { Resumes memory scheme aside.now result }
    {
        let heap = Heap {
            space: Space {
                memory,
                handles: aside.handles,
            },
            scheme,
            bounds: Bounds {
                low: aside.low,
                high: aside.high,
                limit: aside.limit,
            },
        };
        let live = aside.live;
        match aside.phase {
            RESTING => Phase::Resting(heap),
            BEGUN => Phase::Begun(Begun { heap, live }),
            _ => Phase::Drawn(Drawn { heap, live }),
        }
    }

    /// Puts the heap aside: what comes back of it with `resume` is as it was, in the same phase, which stands there by its number.
    pub fn suspend(self) -> (M, S, Aside)
        ensures { Suspends self result.0 result.1 result.2 }
    {
        match self {
            Phase::Resting(heap) => apart(heap, RESTING, 0),
            Phase::Begun(Begun { heap, live }) => apart(heap, BEGUN, live),
            Phase::Drawn(Drawn { heap, live }) => apart(heap, DRAWN, live),
        }
    }
}

fn apart<M: Memory, S: Scheme>(heap: Heap<M, S>, phase: u32, live: u32) -> (M, S, Aside)
    ensures { (heap ≡ heap_of result.0 result.1 result.2) × (result.2.phase ≡ phase) × (result.2.live ≡ live) }
{
    let Heap {
        space,
        scheme,
        bounds,
    } = heap;
    let Space { memory, handles } = space;
    let aside = Aside {
        phase,
        low: bounds.low,
        high: bounds.high,
        limit: bounds.limit,
        live,
        handles,
    };
    (memory, scheme, aside)
}
