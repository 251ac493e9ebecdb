// A collection given up: every mark is taken off.
ghost use Rattle.std.specs.Prelude.{length, min};
ghost use Rattle.space.specs.Pass.{Bounded};
ghost use Rattle.space.specs.Keeping.{KeptIn};
ghost use Rattle.marking.specs.Unmarks.{UnmarkedSide};
ghost use Rattle.marking.specs.Begins.{GivesUp};

use codec::header::{has_mark, unmarked};
use memory::Memory;
use space::{Bounds, Classes, Records, Side, Space, scan};

// Takes the marks off a side.
fn unmark_side<T: Side, M: Memory>(space: &mut Space<M>, from: u32, end: u32)
    requires { Bounded T.Side.upward (min (length (M.Memory.words space.old.memory)) 16384) from end }
    ensures unmarked { UnmarkedSide T.Side.upward from end (M.Memory.words space.old.memory) space.old.handles (M.Memory.words space.new.memory) space.new.handles }
    ensures kept { KeptIn M.Memory.words space.old space.new }
{
    let mut cursor = from;
    'walk: while T::is_before(cursor, end) {
        let Some(object) = scan::<T, M>(&space.memory, cursor) else {
            break;
        };
        if has_mark(object.header) {
            space
                .memory
                .write_within(object.place as usize, unmarked(object.header));
        }
        cursor = T::next(cursor, object.size);
    }
}

/// Takes every mark off.
pub fn give_up<M: Memory>(space: &mut Space<M>, bounds: Bounds)
    ensures { GivesUp bounds.limit bounds.low bounds.high (M.Memory.words space.old.memory) space.old.handles (M.Memory.words space.new.memory) space.new.handles }
{
    let limit = space.limit();
    unmark_side::<Records, M>(space, 0, bounds.low.min(limit));
    unmark_side::<Classes, M>(space, bounds.limit.min(limit), bounds.high);
}
