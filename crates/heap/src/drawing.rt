// A heap whose collection is begun: it is drawn, or given up.
ghost use Rattle.std.specs.Prelude.{◌≡◌, slice_index};
ghost use Rattle.heap.specs.Views.{view};
ghost use Rattle.heap.specs.Phases.{Draws, GivesUp};

use crate::{Begun, Drawn, Heap};
use memory::Memory;
use scheme::Scheme;

impl<M: Memory, S: Scheme> Begun<M, S> {
    /// The live words, as the graph has them.
    pub fn live_words(&self) -> u32
        ensures { result ≡ self.now.live }
    {
        self.live
    }

    /// Updates the references forward: each then has its object's new place, or stands in the list at its object's header.
    pub fn draw(self) -> Drawn<M, S>
        ensures draws { Draws (S.Scheme.meaning self.heap.scheme) (view M.Memory.words self.heap) (view M.Memory.words result.heap) }
        ensures live { result.live ≡ self.live }
        ensures scheme { result.heap.scheme ≡ self.heap.scheme }
    {
        let Begun { mut heap, live } = self;
        heap.thread_marked();
        Drawn { heap, live }
    }

    /// Gives the collection up: without its marks the heap is what it was before begin.
    pub fn give_up(self) -> Heap<M, S>
        ensures rests { GivesUp (S.Scheme.meaning self.heap.scheme) (view M.Memory.words self.heap) (view M.Memory.words result) }
        ensures scheme { result.scheme ≡ self.heap.scheme }
    {
        let Begun { mut heap, live: _ } = self;
        heap.unmark();
        heap
    }

    /// The word that the memory has at the place, with the mark in a header that has one; 0 where it has none.
    pub fn word(&self, place: u32) -> u32
        ensures { result ≡ slice_index (M.Memory.words self.now.heap.space.memory) place }
    {
        self.heap.word(place)
    }
}
