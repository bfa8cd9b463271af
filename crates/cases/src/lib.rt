//! What lists of cases are made of: their lines, numbers by their bits, values with names, and the report of the cases
//! that agree.
#![tactic(auto)]

pub mod lines;
pub mod named;
pub mod number;
pub mod report;
pub mod tally;
