//! The orders of a sitting as text, and how they are read.
#![tactic(auto)]

pub mod escaped;
mod kinds;
pub mod line;
pub mod order;
mod piece;
mod set_point;
mod sheet;
#[cfg(test)]
mod tests;
pub mod unreadable;
mod words;
