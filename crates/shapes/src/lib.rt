//! The shapes that a page is marked with.
#![tactic(auto)]

pub mod circle;
pub mod triangle;
