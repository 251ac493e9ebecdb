// The load text: which call a line gives, or what is wrong with it.
#![tactic(auto)]

pub mod calls;
pub mod names;
