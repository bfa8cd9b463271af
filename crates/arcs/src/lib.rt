//! Pieces of ellipses, from which curved paths are made.
#![tactic(auto)]

pub mod arc;
