//! An examination in choral engraving: a page with its two sheets, and the orders carried out on it.
#![tactic(auto)]

mod ask;
pub mod page;
pub mod reply;
mod sheet;
#[cfg(test)]
mod tests;
pub mod text;
