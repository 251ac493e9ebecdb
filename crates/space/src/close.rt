// The backward update: records, then classes.
ghost use Rattle.std.specs.Prelude.{◌≡◌, ◌+◌, ◌<◌, ◌≤◌, false, length, min};
ghost use Rattle.space.specs.Keeping.{KeptIn};
ghost use Rattle.space.specs.Pass.{Bounded, Closed, ClosedSide};
ghost use Rattle.space.specs.Collect.{Closes};

use crate::thread::Slot;
use crate::{Bounds, Classes, Object, Records, Side, Space};
use codec::header::has_mark;
use memory::Memory;

impl<M: Memory> Space<M> {
    // A marked object, whose list is taken off: it is moved and unmarked.
    #[inline(always)]
    fn close_object<T: Side>(&mut self, limit: u32, object: Object, new_place: u32)
        requires limit { limit ≡ min (length (M.Memory.words self.old.memory)) 16384 }
        requires place { object.place ≤ limit }
        requires down { T.Side.upward ≡ false → object.place + object.size ≤ limit }
        requires new { new_place < limit }
        requires slides { object.place + object.size ≤ limit → new_place + object.size ≤ limit }
        ensures closed { Closed (M.Memory.words self.old.memory) self.old.handles object.place new_place object.size object.header (M.Memory.words self.new.memory) self.new.handles }
        ensures kept { KeptIn M.Memory.words self.old self.new }
    {
        self.slide::<T>(limit, object, new_place);
        // Two less: the mark. By `unmarked` it would be tested once more.
        self.fill(Slot::Word(new_place), object.header.saturating_sub(2));
    }

    // Goes over a side, and answers where it now ends.
    fn close_side<T: Side>(&mut self, limit: u32, from: u32, end: u32) -> u32
        requires limit { limit ≡ min (length (M.Memory.words self.old.memory)) 16384 }
        requires ends { Bounded T.Side.upward limit from end }
        ensures closed { ClosedSide T.Side.upward (M.Memory.words self.old.memory) self.old.handles from end result (M.Memory.words self.new.memory) self.new.handles }
        ensures kept { KeptIn M.Memory.words self.old self.new }
    {
        let mut cursor = from;
        let mut to = from;
        'walk: while T::is_before(cursor, end) {
            let Some(object) = self.unthread::<T>(limit, cursor, to) else {
                break;
            };
            if has_mark(object.header) {
                self.close_object::<T>(limit, object, T::place(to, object.size));
                to = T::next(to, object.size);
            }
            cursor = T::next(cursor, object.size);
        }
        to
    }

    /// The backward update; answers where the sides now end.
    pub fn close(&mut self, bounds: Bounds) -> Bounds
        ensures closed { Closes (M.Memory.words self.old.memory) self.old.handles bounds.limit bounds.low bounds.high result.low result.high (M.Memory.words self.new.memory) self.new.handles }
        ensures limit { result.limit ≡ bounds.limit }
        ensures kept { KeptIn M.Memory.words self.old self.new }
    {
        let limit = self.limit();
        let low = self.close_side::<Records>(limit, 0, bounds.low.min(limit));
        let high = self.close_side::<Classes>(limit, bounds.limit.min(limit), bounds.high);
        // The words between the sides were free, and so are 0.
        self.wipe(low, bounds.low);
        self.wipe(bounds.high, high);
        Bounds {
            low,
            high,
            ..bounds
        }
    }
}
