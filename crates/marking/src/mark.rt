// The marking of objects, by pending places and, where these run out, by scans of the sides.
ghost use Rattle.std.specs.Prelude.{◌≡◌, ◌/◌, ◌%◌, ◌<◌, ◌≤◌, ◌==◌, false, length, min};
ghost use Rattle.scheme.specs.Meaning.{Meaning};
ghost use Rattle.space.specs.Pass.{Bounded};
ghost use Rattle.space.specs.Keeping.{KeptIn};
ghost use Rattle.marking.specs.Begins.{Begins};
ghost use Rattle.marking.specs.Marks.{MarkedAt, NamedAt, Noted, Scanned, Drained, Rescanned, Rooted, Settled};

use crate::Pending;
use arrayvec::ArrayVec;
use codec::header::{Shape, has_mark, is_map, is_record, marked, shape_in, size_in};
use codec::value::{place_of, refers};
use memory::Memory;
use scheme::Scheme;
use space::{Bounds, Classes, Records, Side, Slots, Space, WORDS, scan};

impl Pending {
    // Marks the object at a place, and keeps the place while there is room. The limit is that of the words to use.
    #[inline(always)]
    fn mark_at<M: Memory>(&mut self, space: &mut Space<M>, limit: u32, place: u32)
        requires { limit ≡ min (length (M.Memory.words space.old.memory)) 16384 }
        ensures marked { MarkedAt (M.Memory.words space.old.memory) space.old.handles self.old place (M.Memory.words space.new.memory) space.new.handles self.new }
        ensures kept { KeptIn M.Memory.words space.old space.new }
    {
        if place >= limit {
            return;
        }
        let header = space.memory.read_within(place as usize);
        if !has_mark(header) {
            // The new header alone is used on, so that the old one need not be kept for what is rare.
            let header = marked(header);
            space.memory.write_within(place as usize, header);
            self.live = self.live.wrapping_add(size_in(header));
            if self.places.try_push(place).is_err() {
                self.note_dropped(place, header);
            }
        }
    }

    // Has the next round meet the object at a place, which has that header: it found no room. That is rare, so it is no part of the marking above.
    #[cold]
    #[inline(never)]
    fn note_dropped(&mut self, place: u32, header: u32)
        ensures { Noted self.old place header self.new }
    {
        match shape_in(header) {
            Some(Shape::Record) => self.records_from = self.records_from.min(place),
            _ => {
                // In wild words the end need not be a number of 32 bits.
                self.classes_from = self.classes_from.max(place.saturating_add(size_in(header)));
            }
        }
    }

    // Marks what the word at a place names.
    #[inline(always)]
    fn mark_named<M: Memory>(&mut self, space: &mut Space<M>, limit: u32, place: u32)
        requires limit { limit ≡ min (length (M.Memory.words space.old.memory)) 16384 }
        ensures named { NamedAt limit (M.Memory.words space.old.memory) space.old.handles self.old place (M.Memory.words space.new.memory) space.new.handles self.new }
        ensures kept { KeptIn M.Memory.words space.old space.new }
    {
        if place >= limit {
            return;
        }
        let word = space.memory.read_within(place as usize);
        if refers(word) {
            self.mark_at(space, limit, place_of(word));
        }
    }

    // Marks what a class refers to: words 2 and 3 of a map, word 2 of a layout.
    #[inline(always)]
    fn scan_class<M: Memory>(&mut self, space: &mut Space<M>, limit: u32, place: u32, header: u32)
        requires limit { limit ≡ min (length (M.Memory.words space.old.memory)) 16384 }
        requires place { place ≤ limit }
        requires kind { (header / 4 % 4 == 0) ≡ false }
        requires some { 3 < header / 16 }
        ensures scanned { (m : Meaning) → Scanned m (M.Memory.words space.old.memory) space.old.handles self.old place header (M.Memory.words space.new.memory) space.new.handles self.new }
        ensures kept { KeptIn M.Memory.words space.old space.new }
    {
        self.mark_named(space, limit, place + 2);
        if is_map(header) {
            self.mark_named(space, limit, place + 3);
        }
    }

    // Marks what the object at a place names, by the set of its words that hold values.
    #[inline(always)]
    fn scan_slots<M: Memory, S: Scheme>(
        &mut self,
        space: &mut Space<M>,
        scheme: &S,
        limit: u32,
        place: u32,
        header: u32,
    )
        requires limit { limit ≡ min (length (M.Memory.words space.old.memory)) 16384 }
        requires place { place ≤ limit }
        ensures scanned { Scanned (S.Scheme.meaning scheme.now) (M.Memory.words space.old.memory) space.old.handles self.old place header (M.Memory.words space.new.memory) space.new.handles self.new }
        ensures kept { KeptIn M.Memory.words space.old space.new }
    {
        let size = size_in(header);
        // In wild words it need not end within the heap's.
        if place + size > limit {
            return;
        }
        let mut left = space.slots_of(scheme, limit, place, header).below(size);
        // By number: each word is read from a space that marking alters.
        while let Some(i) = left.pop_first() {
            let word = space.memory.read_within((place + i) as usize);
            if refers(word) {
                self.mark_at(space, limit, place_of(word));
            }
        }
    }

    // Marks what the object at a place names, which has that header. Of a class two words are all: to go over a set would take longer.
    #[inline(always)]
    fn scan<M: Memory, S: Scheme>(
        &mut self,
        space: &mut Space<M>,
        scheme: &S,
        limit: u32,
        place: u32,
        header: u32,
    )
        requires limit { limit ≡ min (length (M.Memory.words space.old.memory)) 16384 }
        requires place { place ≤ limit }
        ensures scanned { Scanned (S.Scheme.meaning scheme.now) (M.Memory.words space.old.memory) space.old.handles self.old place header (M.Memory.words space.new.memory) space.new.handles self.new }
        ensures kept { KeptIn M.Memory.words space.old space.new }
    {
        if !is_record(header) && size_in(header) > 3 {
            self.scan_class(space, limit, place, header);
        } else {
            self.scan_slots(space, scheme, limit, place, header);
        }
    }

    // Scans until nothing is pending.
    #[inline(always)]
    fn drain<M: Memory, S: Scheme>(&mut self, space: &mut Space<M>, scheme: &S, limit: u32)
        requires { limit ≡ min (length (M.Memory.words space.old.memory)) 16384 }
        ensures drained { Drained (S.Scheme.meaning scheme.now) (M.Memory.words space.old.memory) space.old.handles self.old (M.Memory.words space.new.memory) space.new.handles self.new }
        ensures kept { KeptIn M.Memory.words space.old space.new }
    {
        // Turns are counted, since only a sound heap bounds how often a place becomes pending.
        for turn in 0..WORDS {
            let Some(place) = self.places.pop() else {
                break;
            };
            if place < limit {
                let header = space.memory.read_within(place as usize);
                self.scan(space, scheme, limit, place, header);
            }
        }
    }

    // Scans each marked object of a side again, from one that the walk comes to on.
    fn rescan<T: Side, M: Memory, S: Scheme>(
        &mut self,
        space: &mut Space<M>,
        scheme: &S,
        limit: u32,
        from: u32,
        end: u32,
    )
        requires limit { limit ≡ min (length (M.Memory.words space.old.memory)) 16384 }
        requires ends { Bounded T.Side.upward limit from end }
        ensures rescanned { Rescanned (S.Scheme.meaning scheme.now) T.Side.upward from end (M.Memory.words space.old.memory) space.old.handles self.old (M.Memory.words space.new.memory) space.new.handles self.new }
        ensures kept { KeptIn M.Memory.words space.old space.new }
    {
        let mut cursor = from;
        'walk: while T::is_before(cursor, end) {
            let Some(object) = scan::<T, M>(&space.memory, cursor) else {
                break;
            };
            if has_mark(object.header) {
                self.scan(space, scheme, limit, object.place, object.header);
                self.drain(space, scheme, limit);
            }
            cursor = T::next(cursor, object.size);
        }
    }

    // Marks what the handles name.
    fn mark_handles<M: Memory>(&mut self, space: &mut Space<M>, limit: u32)
        requires { limit ≡ min (length (M.Memory.words space.old.memory)) 16384 }
        ensures rooted { Rooted (M.Memory.words space.old.memory) space.old.handles self.old (M.Memory.words space.new.memory) space.new.handles self.new }
        ensures kept { KeptIn M.Memory.words space.old space.new }
    {
        let mut left = Slots::of_handles(&space.handles);
        while let Some(h) = left.pop_first() {
            self.mark_at(space, limit, place_of(space.handles[h as usize]));
        }
    }

    // Marks all that the marked objects lead to: each round over a side goes on from the marks, and there is another while an object is dropped. It begins at
    // the first dropped object of the side, since what the walk meets before has nothing left to scan.
    fn settle<M: Memory, S: Scheme>(
        &mut self,
        space: &mut Space<M>,
        scheme: &S,
        limit: u32,
        bounds: Bounds,
    )
        requires { limit ≡ min (length (M.Memory.words space.old.memory)) 16384 }
        ensures settled { Settled (S.Scheme.meaning scheme.now) bounds.limit bounds.low bounds.high (M.Memory.words space.old.memory) space.old.handles self.old (M.Memory.words space.new.memory) space.new.handles self.new }
        ensures kept { KeptIn M.Memory.words space.old space.new }
    {
        self.drain(space, scheme, limit);
        let low = bounds.low.min(limit);
        // Rounds are counted, since only a sound heap bounds how often the places run out. Classes first: they are what records name.
        for round in 0..WORDS {
            if self.classes_from > bounds.high {
                let from = self.classes_from.min(limit);
                self.classes_from = 0;
                self.rescan::<Classes, M, S>(space, scheme, limit, from, bounds.high);
            } else if self.records_from < low {
                let from = self.records_from;
                self.records_from = WORDS;
                self.rescan::<Records, M, S>(space, scheme, limit, from, low);
            } else {
                break;
            }
        }
    }
}

/// Marks the reachable objects, and tells how many words they take. The order of marking is left free: here what the
/// handles name comes first, then what the latest pending object names, and at last, where the places ran out, what
/// the classes and the records that are met again name. Whatever the order, the same objects are marked.
pub fn begin<M: Memory, S: Scheme>(space: &mut Space<M>, scheme: &S, bounds: Bounds) -> u32
    ensures { Begins (S.Scheme.meaning scheme.now) bounds.limit bounds.low bounds.high (M.Memory.words space.old.memory) space.old.handles (M.Memory.words space.new.memory) space.new.handles result }
{
    let mut pending = Pending {
        places: ArrayVec::new(),
        records_from: WORDS,
        classes_from: 0,
        live: 0,
    };
    let limit = space.limit();
    pending.mark_handles(space, limit);
    pending.settle(space, scheme, limit, bounds);
    pending.live
}
