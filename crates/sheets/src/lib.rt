//! Sheets of marks: a table of marks with their moves, and the calls that alter and question it.
#![tactic(auto)]

pub mod calls;
pub mod draw;
pub mod fault;
pub mod laws;
pub mod order;
pub mod questions;
pub mod run;
pub mod sheet;
