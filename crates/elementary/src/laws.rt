//! What the elementary functions mean beyond their steps. Each function does nothing: its contract
//! is the law, and without its proof the crate does not pass.
ghost use Rattle.elementary.specs.Laws.{Constants, Angles, SixthRoots};

/// The constants of the angles are the floats nearest to π, π/2, π/4, 2/π and the rest of π/2.
pub fn constants_are_nearest()
    ensures { Constants }
{}

/// For |th| ≤ 2²⁰ the count of quarter turns is a nearest whole number and fits its type, and sine
/// and cosine are finite; the angle of a vector along an axis is the constant.
pub fn angles_are_sound()
    ensures { Angles }
{}

/// The sixth root is one number and keeps the order; of 4096 it is 4, of 4097 it is 65/16.
pub fn sixth_roots_keep_order()
    ensures { SixthRoots }
{}
