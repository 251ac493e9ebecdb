// A heap whose references are threaded: it is closed.
ghost use Rattle.std.specs.Prelude.{◌≡◌};
ghost use Rattle.heap.specs.Views.{view};
ghost use Rattle.heap.specs.Collected.{ClosesCollected};
ghost use Rattle.heap.specs.Phases.{Closes};

use crate::{Drawn, Heap};
use memory::Memory;
use scheme::Scheme;

impl<M: Memory, S: Scheme> Drawn<M, S> {
    /// The live words, as the graph has them.
    pub fn live_words(&self) -> u32
        ensures { result ≡ self.now.live }
    {
        self.live
    }

    /// The backward update: the heap rests again, packed. Answers the live words. Each reachable object has slid
    /// from where it stood when the collection was begun, with the words that it had then, its references renewed.
    pub fn close(self) -> (Heap<M, S>, u32)
        ensures collected { ClosesCollected (S.Scheme.meaning self.heap.scheme)
            (view M.Memory.words self.heap) (view M.Memory.words result.0) }
        ensures closes { Closes (S.Scheme.meaning self.heap.scheme) (view M.Memory.words self.heap) (view M.Memory.words result.0) }
        ensures live { result.1 ≡ self.live }
        ensures scheme { result.0.scheme ≡ self.heap.scheme }
    {
        let Drawn { mut heap, live } = self;
        heap.slide_marked();
        (heap, live)
    }
}
