//! What a list of cases asks of the shapes and the affine maps, and what they answer.
#![tactic(auto)]

pub mod answer;
mod figure;
pub mod question;
mod text;
