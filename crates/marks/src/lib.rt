//! Marks on a page: any one of the shapes.
#![tactic(auto)]

pub mod mark;
pub mod measures;
