// Words of a heap at rest, as they lie: for those who compare or draw them. They alter nothing.
ghost use Rattle.std.specs.Prelude.{◌≡◌, slice_index};

use crate::Heap;
use memory::Memory;
use scheme::Scheme;

impl<M: Memory, S: Scheme> Heap<M, S> {
    /// The word that the memory has at the place, or 0 where it has none.
    pub fn word(&self, place: u32) -> u32
        ensures { result ≡ slice_index (M.Memory.words self.now.space.memory) place }
    {
        self.space.memory.read(place as usize)
    }

    /// The word of the handle, or 0 where there is no such handle.
    pub fn handle_word(&self, handle: u32) -> u32
        ensures { result ≡ slice_index self.now.space.handles handle }
    {
        word_at(&self.space.handles, handle)
    }
}

/// The word that stands at the place, or 0 where there is none.
fn word_at(words: &[u32], place: u32) -> u32
    ensures { result ≡ slice_index words.now place }
{
    words.get(place as usize).copied().unwrap_or(0)
}
