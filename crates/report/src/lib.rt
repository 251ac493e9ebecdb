// What a load tells: where a line was stopped, and the lines of its output.
#![tactic(auto)]

pub mod line_faults;
pub mod loads;
pub mod reports;
