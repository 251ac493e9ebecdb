// Marking: each object that can be reached gets its mark, and no other. Besides the heap's own words it takes a list of 64 places.
#![tactic(auto)]

use arrayvec::ArrayVec;

mod mark;
mod unmark;

pub use mark::begin;
pub use unmark::give_up;

/// Places of marked objects whose references are still to be marked. One that found no room is dropped: another round goes over the records from
/// `records_from` on, the lowest place of a dropped one, or over the classes below `classes_from`, the highest end of a dropped one. `live` is the words of
/// the objects marked so far.
#[derive(Drop)]
struct Pending {
    places: ArrayVec<u32, 64>,
    records_from: u32,
    classes_from: u32,
    live: u32,
}
