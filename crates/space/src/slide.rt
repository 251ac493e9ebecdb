// Sliding: the words of an object go to its new place, and freed words become 0.
ghost use Rattle.std.specs.Prelude.{◌≡◌, ◌+◌, ◌≤◌, false, length, min};
ghost use Rattle.space.specs.Keeping.{KeptIn};
ghost use Rattle.space.specs.Pass.{Moved};
ghost use Rattle.space.specs.Collect.{Wiped};

use crate::{Object, Side, Space, WORDS};
use memory::Memory;

impl<M: Memory> Space<M> {
    // Moves the words of an object of a side, if it is to lie elsewhere. In wild words it need not end within those to use.
    #[inline(always)]
    pub(crate) fn slide<T: Side>(&mut self, limit: u32, object: Object, to: u32)
        requires limit { limit ≡ min (length (M.Memory.words self.old.memory)) 16384 }
        requires old { object.place ≤ limit }
        requires down { T.Side.upward ≡ false → object.place + object.size ≤ limit }
        requires new { object.place + object.size ≤ limit → to + object.size ≤ limit }
        ensures moved { Moved (M.Memory.words self.old.memory) self.old.handles object.place to object.size (M.Memory.words self.new.memory) self.new.handles }
        ensures kept { KeptIn M.Memory.words self.old self.new }
    {
        if object.place != to && T::fits(limit, object) {
            self.memory
                .shift_within(object.place as usize, to as usize, object.size as usize);
        }
    }

    // Writes 0 into the words from one place up to another, as far as the heap's words go.
    pub(crate) fn wipe(&mut self, from: u32, end: u32)
        ensures wiped { Wiped (M.Memory.words self.old.memory) self.old.handles from end (M.Memory.words self.new.memory) self.new.handles }
        ensures kept { KeptIn M.Memory.words self.old self.new }
    {
        self.memory.clear(from as usize, end.min(WORDS) as usize);
    }
}
