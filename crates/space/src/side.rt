// The two sides of a heap: records from the left by their headers, classes from the right by their
// boundary tags.
ghost use Rattle.std.specs.Prelude.{◌≡◌, ◌+◌, ◌*◌, ◌/◌, ◌%◌, ◌^◌, ◌<◌, ◌≤◌, ◌==◌, Bool, false, true, length, min, nat_le};
ghost use Rattle.space.specs.Ends.{innermost, taken, tag_by};
ghost use Rattle.space.specs.Pass.{place_by, next_by, before};
ghost use Rattle.space.specs.Slots.{Reads};
ghost use Rattle.space.specs.Met.{Among, FindsHeader, size_by, Sees};

use crate::{Bounds, Slots, Space};
use memory::Memory;
use scheme::Scheme;

/// An object as a walk meets it: where it lies, how many words it takes, and the header at the end of its list.
// That it lies within the words is no fact of the type: in wild words it need not.
#[derive(Clone, Copy)]
pub struct Object {
    pub place: u32,
    pub size: u32,
    pub header: u32,
}

// A side of the heap: the way in which a cursor goes over its objects.
pub trait Side {
    ghost upward: { Bool };

    // Whether the cursor is still on its way to the end.
    fn is_before(cursor: u32, end: u32) -> bool
        ensures { result ≡ before upward cursor end };

    // Where the header lies of the object that the cursor has come to, be references threaded or
    // not. None if its boundary tag would not lead on, as in wild words.
    fn header_place<M: Memory>(memory: &M, cursor: u32) -> Option<u32>
        requires { Among upward (min (length (M.Memory.words memory.now)) 16384) cursor }
        ensures { FindsHeader upward (M.Memory.words memory.now) cursor result };

    // The size of the object with that header at that place, which the cursor has come to.
    fn size(cursor: u32, place: u32, header: u32) -> u32
        requires { upward ≡ false → place ≤ cursor }
        ensures { result ≡ size_by upward cursor place header };

    // Whether the object ends within the words to use. Going down it does, since the cursor stood at its end.
    fn fits(limit: u32, object: Object) -> bool
        requires place { object.place ≤ limit }
        requires down { upward ≡ false → object.place + object.size ≤ limit }
        ensures { result ≡ nat_le (object.place + object.size) limit };

    // Which words of an object of the side hold values.
    fn slots<M: Memory, S: Scheme>(
        space: &Space<M>,
        scheme: &S,
        limit: u32,
        object: Object,
    ) -> Slots
        requires limit { limit ≡ min (length (M.Memory.words space.now.memory)) 16384 }
        requires place { object.place ≤ limit }
        ensures { (object.header / 4 % 4 == 0) ≡ upward → Reads (S.Scheme.meaning scheme.now) (M.Memory.words space.now.memory) object.place object.header result };

    // Where an object of that size lies.
    fn place(cursor: u32, size: u32) -> u32
        ensures { result ≡ place_by upward cursor size };

    // Where the cursor goes after it. Down it is told always, up where the sum fits in 32 bits.
    fn next(cursor: u32, size: u32) -> u32
        ensures { (upward ≡ true → cursor + size < 2 ^ 32)
            → result ≡ next_by upward cursor size };

    // The place of a new object of that size, innermost on the side; the bounds then have it within.
    fn take(bounds: &mut Bounds, size: u32) -> u32
        ensures place { result ≡ innermost upward bounds.old size }
        ensures bounds { bounds.new ≡ taken upward bounds.old size };

    // The reference to the object of the side at a place.
    fn reference(place: u32) -> u32
        ensures { place < 1073741824 → result ≡ place * 4 + tag_by upward };
}

/// The object that the cursor has come to, where nothing is threaded. None if its size would not
/// lead on, as in wild words.
#[inline(always)]
pub fn scan<T: Side, M: Memory>(memory: &M, cursor: u32) -> Option<Object>
    requires { Among T.Side.upward (min (length (M.Memory.words memory.now)) 16384) cursor }
    ensures { Sees T.Side.upward (M.Memory.words memory.now) cursor result }
{
    let place = T::header_place(memory, cursor)?;
    let header = memory.read_within(place as usize);
    let size = T::size(cursor, place, header);
    if size == 0 {
        return None;
    }
    Some(Object {
        place,
        size,
        header,
    })
}
