// The load text, from bytes to values: its lines, and the tokens of a line.
#![tactic(auto)]

pub mod lines;
pub mod tokens;
