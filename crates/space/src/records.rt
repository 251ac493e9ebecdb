// The records' side.
ghost use Rattle.std.specs.Prelude.{Bool, true};

use crate::{Bounds, Object, Side, Slots, Space};
use codec::header::size_in;
use codec::value::to_record;
use memory::Memory;
use scheme::Scheme;

/// Records: by their headers, from the left.
pub struct Records;

impl Side for Records {
    ghost upward = { true };

    fn is_before(cursor: u32, end: u32) -> bool {
        cursor < end
    }

    fn header_place<M: Memory>(memory: &M, cursor: u32) -> Option<u32> {
        Some(cursor)
    }

    fn size(cursor: u32, place: u32, header: u32) -> u32 {
        size_in(header)
    }

    fn fits(limit: u32, object: Object) -> bool {
        object.size <= limit - object.place
    }

    #[inline(always)]
    fn slots<M: Memory, S: Scheme>(
        space: &Space<M>,
        scheme: &S,
        limit: u32,
        object: Object,
    ) -> Slots {
        space.slots_of_record(scheme, limit, object.place)
    }

    fn place(cursor: u32, size: u32) -> u32 {
        cursor
    }

    fn next(cursor: u32, size: u32) -> u32 {
        cursor.wrapping_add(size)
    }

    fn take(bounds: &mut Bounds, size: u32) -> u32 {
        let place = bounds.low;
        bounds.low = place.saturating_add(size);
        place
    }

    fn reference(place: u32) -> u32 {
        to_record(place)
    }
}
