// The forward update: handles, then records, then classes.
ghost use Rattle.std.specs.Prelude.{◌≡◌, ◌+◌, ◌/◌, ◌%◌, ◌≤◌, false, length, min};
ghost use Rattle.space.specs.Keeping.{KeptIn};
ghost use Rattle.space.specs.Pass.{ThreadedWords, ThreadedHandles, Visited, DrawnSide, Bounded};
ghost use Rattle.space.specs.Slots.{values_of};
ghost use Rattle.space.specs.Collect.{DrawsRecords, DrawsClasses, Draws};

use crate::thread::Slot;
use crate::{Bounds, Classes, Object, Records, Side, Slots, Space};
use codec::header::has_mark;
use codec::value::refers;
use memory::Memory;
use scheme::Scheme;

impl<M: Memory> Space<M> {
    // Threads each reference of the object at the place, lowest first.
    #[inline(always)]
    fn thread_words(&mut self, limit: u32, place: u32, size: u32, slots: Slots)
        requires limit { limit ≡ min (length (M.Memory.words self.old.memory)) 16384 }
        requires within { place + size ≤ limit }
        ensures threaded { ThreadedWords (values_of slots) (M.Memory.words self.old.memory) self.old.handles place size (M.Memory.words self.new.memory) self.new.handles }
        ensures kept { KeptIn M.Memory.words self.old self.new }
    {
        let mut left = slots.below(size);
        // By number: each word is looked up in a space that its threading alters.
        while let Some(i) = left.pop_first() {
            let word = self.memory.read_within((place + i) as usize);
            if refers(word) {
                self.thread(limit, Slot::Word(place + i), word);
            }
        }
    }

    // Threads each reference of the handle table, by its handle: the words go with their index.
    fn thread_handles(&mut self, limit: u32)
        requires { limit ≡ min (length (M.Memory.words self.old.memory)) 16384 }
        ensures threaded { ThreadedHandles (M.Memory.words self.old.memory) self.old.handles (M.Memory.words self.new.memory) self.new.handles }
        ensures kept { KeptIn M.Memory.words self.old self.new }
    {
        // Over a copy of the table, since threading a handle's reference alters no other handle.
        let table = self.handles;
        for (h, word) in table.iter().enumerate() {
            if refers(*word) {
                self.thread(limit, Slot::Handle(h as u32), *word);
            }
        }
    }

    // A marked object, whose list is taken off: its references are threaded.
    #[inline(always)]
    fn visit<T: Side, S: Scheme>(&mut self, scheme: &S, limit: u32, object: Object)
        requires limit { limit ≡ min (length (M.Memory.words self.old.memory)) 16384 }
        requires place { object.place ≤ limit }
        requires down { T.Side.upward ≡ false → object.place + object.size ≤ limit }
        ensures visited { Visited (S.Scheme.meaning scheme.now) T.Side.upward (M.Memory.words self.old.memory) self.old.handles object.place object.size (object.header / 4 % 4) (M.Memory.words self.new.memory) self.new.handles }
        ensures kept { KeptIn M.Memory.words self.old self.new }
    {
        // In wild words it need not end within the heap's.
        if T::fits(limit, object) {
            let slots = T::slots(self, scheme, limit, object);
            self.thread_words(limit, object.place, object.size, slots);
        }
    }

    // Goes over a side.
    fn draw_side<T: Side, S: Scheme>(&mut self, scheme: &S, limit: u32, from: u32, end: u32)
        requires limit { limit ≡ min (length (M.Memory.words self.old.memory)) 16384 }
        requires ends { Bounded T.Side.upward limit from end }
        ensures drawn { DrawnSide (S.Scheme.meaning scheme.now) T.Side.upward (M.Memory.words self.old.memory) self.old.handles from end (M.Memory.words self.new.memory) self.new.handles }
        ensures kept { KeptIn M.Memory.words self.old self.new }
    {
        let mut cursor = from;
        let mut to = from;
        'walk: while T::is_before(cursor, end) {
            let Some(object) = self.unthread::<T>(limit, cursor, to) else {
                break;
            };
            if has_mark(object.header) {
                self.visit::<T, S>(scheme, limit, object);
                to = T::next(to, object.size);
            }
            cursor = T::next(cursor, object.size);
        }
    }

    /// The forward update of the handles and the records.
    pub fn draw_records<S: Scheme>(&mut self, scheme: &S, bounds: Bounds)
        ensures drawn { DrawsRecords (S.Scheme.meaning scheme.now) (M.Memory.words self.old.memory) self.old.handles bounds.low (M.Memory.words self.new.memory) self.new.handles }
        ensures kept { KeptIn M.Memory.words self.old self.new }
    {
        let limit = self.limit();
        self.thread_handles(limit);
        self.draw_side::<Records, S>(scheme, limit, 0, bounds.low.min(limit));
    }

    /// The forward update of the classes, once all records are done: until then every word of a class but its header is as it was.
    pub fn draw_classes<S: Scheme>(&mut self, scheme: &S, bounds: Bounds)
        ensures drawn { DrawsClasses (S.Scheme.meaning scheme.now) (M.Memory.words self.old.memory) self.old.handles bounds.limit bounds.high (M.Memory.words self.new.memory) self.new.handles }
        ensures kept { KeptIn M.Memory.words self.old self.new }
    {
        let limit = self.limit();
        self.draw_side::<Classes, S>(scheme, limit, bounds.limit.min(limit), bounds.high);
    }

    /// The forward update.
    pub fn draw<S: Scheme>(&mut self, scheme: &S, bounds: Bounds)
        ensures drawn { Draws (S.Scheme.meaning scheme.now) (M.Memory.words self.old.memory) self.old.handles bounds.limit bounds.low bounds.high (M.Memory.words self.new.memory) self.new.handles }
        ensures kept { KeptIn M.Memory.words self.old self.new }
    {
        self.draw_records(scheme, bounds);
        self.draw_classes(scheme, bounds);
    }
}
