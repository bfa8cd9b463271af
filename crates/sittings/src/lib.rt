//! A sitting as text: its lines are read one by one, and each order is carried out and answered at once.
#![tactic(auto)]

pub mod files;
mod progress;
pub mod sitting;
mod tally;
mod transcript;
