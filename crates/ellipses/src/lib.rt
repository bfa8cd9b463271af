//! Ellipses.
#![tactic(auto)]

pub mod ellipse;
pub mod laws;
mod length;
pub mod path;
