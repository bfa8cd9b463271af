//! Marks as they lie on a page: moved, and covering one another.
#![tactic(auto)]

pub mod path;
pub mod piece;
