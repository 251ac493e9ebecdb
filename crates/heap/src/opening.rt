// A new heap, and its parts handed back.
ghost use Rattle.std.specs.Prelude.{◌≡◌, ℕ, ◌+◌, ◌*◌, ◌<◌, ◌≤◌, min, List, [], ◌∷◌, ◌++◌, length, drop, replicate};
ghost use Rattle.graph.specs.Graph.{bare};
ghost use Rattle.heap.specs.Views.{view, Stands};

use crate::{Heap, WORDS};
use memory::Memory;
use scheme::Scheme;
use space::{Bounds, Space};

impl<M: Memory, S: Scheme> Heap<M, S> {
    /// A new heap over the first words of the memory, at most 16,384: 0 in each, and empty handles. Later words stay.
    pub fn new(mut memory: M, scheme: S) -> Self
        ensures zeros { M.Memory.words result.space.memory ≡ replicate result.bounds.limit 0 ++ drop result.bounds.limit (M.Memory.words memory) }
        ensures limit { result.bounds.limit ≡ min (length (M.Memory.words memory)) 16384 }
        ensures scheme { result.scheme ≡ scheme }
        ensures stands { Stands (S.Scheme.meaning scheme) (view M.Memory.words result) bare [] }
    {
        let limit = memory.length().min(WORDS);
        memory.clear(0, limit);
        Heap {
            space: Space {
                memory,
                handles: [0; 32],
            },
            scheme,
            bounds: Bounds {
                low: 0,
                high: limit as u32,
                limit: limit as u32,
            },
        }
    }

    /// The memory and the scheme, handed back.
    pub fn into_parts(self) -> (M, S)
        ensures { (result.0 ≡ self.space.memory) × (result.1 ≡ self.scheme) }
    {
        let Heap {
            space: Space { memory, handles: _ },
            scheme,
            bounds: _,
        } = self;
        (memory, scheme)
    }
}
