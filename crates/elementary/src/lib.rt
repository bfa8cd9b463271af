//! Elementary functions, each total on all `f64`.
#![tactic(auto)]

pub mod laws;
pub mod powers;
pub mod sixth_root;
pub mod sqrt;
pub mod trig;
