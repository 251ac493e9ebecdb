// The classes' side.
ghost use Rattle.std.specs.Prelude.{Bool, false};

use crate::slot::slots_of_class;
use crate::{Bounds, Object, Side, Slots, Space};
use codec::value::to_class;
use memory::Memory;
use scheme::Scheme;

/// Classes: by their boundary tags, from the right.
pub struct Classes;

impl Side for Classes {
    ghost upward = { false };

    fn is_before(cursor: u32, end: u32) -> bool {
        end < cursor
    }

    #[inline(always)]
    fn header_place<M: Memory>(memory: &M, cursor: u32) -> Option<u32> {
        let size = memory.read_within(cursor as usize - 1);
        // One test for a size of 0 and for one that goes below word 0: either way the place would not be lower.
        let place = cursor.wrapping_sub(size);
        if place >= cursor {
            return None;
        }
        Some(place)
    }

    fn size(cursor: u32, place: u32, header: u32) -> u32 {
        cursor - place
    }

    fn fits(limit: u32, object: Object) -> bool {
        true
    }

    #[inline(always)]
    fn slots<M: Memory, S: Scheme>(
        space: &Space<M>,
        scheme: &S,
        limit: u32,
        object: Object,
    ) -> Slots {
        slots_of_class(object.header)
    }

    // Stopping at 0, so that place and next are told of any size.
    fn place(cursor: u32, size: u32) -> u32 {
        cursor.saturating_sub(size)
    }

    fn next(cursor: u32, size: u32) -> u32 {
        cursor.saturating_sub(size)
    }

    fn take(bounds: &mut Bounds, size: u32) -> u32 {
        bounds.high = bounds.high.saturating_sub(size);
        bounds.high
    }

    fn reference(place: u32) -> u32 {
        to_class(place)
    }
}
