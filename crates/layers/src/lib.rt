//! Layers over any shape: moves, placings by a move, and coverings of one shape by another.
#![tactic(auto)]

pub mod covering;
pub mod fault;
pub mod moves;
pub mod placing;
