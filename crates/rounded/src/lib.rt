//! Rectangles with rounded corners, such as a syllable's frame.
#![tactic(auto)]

pub mod path;
pub mod rounded_rect;
pub mod rounded_rect_radii;
#[cfg(test)]
mod tests;
