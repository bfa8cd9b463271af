//! The plane: points, vectors, rectangles, paths, and what every shape answers.
#![tactic(auto)]

pub mod affine;
pub mod bezpath;
pub mod closed_path;
pub mod cursor;
pub mod fault;
pub mod point;
pub mod rect;
pub mod shape;
pub mod vec2;
