// A second implementation of the still graph, as plain code over `Vec`. It is written from docs/HEAP.md and shares
// nothing with the heap but the types of calls and answers: trials run the two beside each other.
#![tactic(auto)]

mod object;
mod packed;
mod reach;
mod rules;
mod still;

pub use object::{Field, Layout, Map, Object, Record, Value};
pub use packed::Packed;
pub use rules::Rules;
pub use still::Still;
