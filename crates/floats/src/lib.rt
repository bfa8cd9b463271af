//! What the floats of a page can be relied on for: which of them are grid numbers, where the page
//! and the field end, and the laws of exactness, order and zero signs that everything above cites.
#![tactic(auto)]

pub mod laws;
pub mod order;
pub mod page;
