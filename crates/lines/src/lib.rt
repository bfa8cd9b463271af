//! The lines of an input, one by one.
#![tactic(auto)]

pub mod failure;
pub mod reader;
