// One address space: address p below 16,384 is word p of the memory, 16,384 + h is handle h.
ghost use Rattle.std.specs.Prelude.{◌≡◌, length, min, replicate};
ghost use Rattle.space.specs.Weave.{view, Stored};

use crate::{ADDRESSES, Space, WORDS};
use memory::Memory;

impl<M: Memory> Space<M> {
    /// A space with empty handles.
    pub fn new(memory: M) -> Self
        ensures { (M.Memory.words result.memory ≡ M.Memory.words memory) × (result.handles ≡ replicate 32 0) }
    {
        Space {
            memory,
            handles: [0; 32],
        }
    }

    /// How many words of the memory a heap may use.
    pub fn limit(&self) -> u32
        ensures { result ≡ min (length (M.Memory.words self.now.memory)) 16384 }
    {
        self.memory.length().min(WORDS as usize) as u32
    }

    /// The word at an address, 0 past the last.
    pub fn look(&self, address: u32) -> u32
        ensures { result ≡ view (M.Memory.words self.now.memory) self.now.handles address }
    {
        if address < WORDS {
            self.memory.read(address as usize)
        } else if address < ADDRESSES {
            self.handles[(address - WORDS) as usize]
        } else {
            0
        }
    }

    /// Sets the word at an address; past the last, or past the memory's words, it does nothing.
    pub fn store(&mut self, address: u32, word: u32)
        ensures { Stored (M.Memory.words self.old.memory) self.old.handles address word (M.Memory.words self.new.memory) self.new.handles }
    {
        if address < WORDS {
            self.memory.write(address as usize, word);
        } else if address < ADDRESSES {
            self.handles[(address - WORDS) as usize] = word;
        }
    }
}
