// Words at rest as code: the words of values, the headers of objects, and threaded links.
#![tactic(auto)]

pub mod header;
pub mod link;
pub mod value;
