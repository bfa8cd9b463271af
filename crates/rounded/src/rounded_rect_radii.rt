//! The radii of the corners of a rounded rectangle.
ghost use Rattle.std.specs.Prelude.{◌≡◌};
ghost use Rattle.rounded.specs.Radii.{radii, radius_of, sizes, at_most, all_finite};

use floats::order::lesser;
use plane::fault::Corner;

/// A radius for each corner of a rounded rectangle. The top is where y is smaller.
#[derive(Clone, Copy, Debug, PartialEq)]
pub struct RoundedRectRadii {
    /// The radius of the top left corner.
    pub top_left: f64,
    /// The radius of the top right corner.
    pub top_right: f64,
    /// The radius of the bottom right corner.
    pub bottom_right: f64,
    /// The radius of the bottom left corner.
    pub bottom_left: f64,
}

impl RoundedRectRadii {
    /// These radii, from the top left corner on: to the right, down, and back to the left.
    pub const fn new(
        top_left: f64,
        top_right: f64,
        bottom_right: f64,
        bottom_left: f64,
    ) -> RoundedRectRadii
        ensures { result ≡ radii top_left top_right bottom_right bottom_left }
    {
        RoundedRectRadii {
            top_left,
            top_right,
            bottom_right,
            bottom_left,
        }
    }

    /// One radius for all corners.
    pub const fn from_single_radius(radius: f64) -> RoundedRectRadii
        ensures { result ≡ radii radius radius radius radius }
    {
        RoundedRectRadii::new(radius, radius, radius, radius)
    }

    // The radius of a corner.
    pub(crate) const fn at(&self, corner: Corner) -> f64
        ensures { result ≡ radius_of self.now corner }
    {
        match corner {
            Corner::TopLeft => self.top_left,
            Corner::TopRight => self.top_right,
            Corner::BottomRight => self.bottom_right,
            Corner::BottomLeft => self.bottom_left,
        }
    }

    // A `const fn` calls no closure, so the next two name each radius.

    /// The size of each radius.
    pub const fn abs(&self) -> RoundedRectRadii
        ensures { result ≡ sizes self.now }
    {
        RoundedRectRadii::new(
            self.top_left.abs(),
            self.top_right.abs(),
            self.bottom_right.abs(),
            self.bottom_left.abs(),
        )
    }

    /// Each radius, or `max` where that is less. A radius that is not a number becomes `max`.
    pub const fn clamp(&self, max: f64) -> RoundedRectRadii
        ensures { result ≡ at_most max self.now }
    {
        RoundedRectRadii::new(
            lesser(self.top_left, max),
            lesser(self.top_right, max),
            lesser(self.bottom_right, max),
            lesser(self.bottom_left, max),
        )
    }

    /// Whether no radius is an infinity or not-a-number.
    pub const fn is_finite(&self) -> bool
        ensures { result ≡ all_finite self.now }
    {
        self.top_left.is_finite()
            && self.top_right.is_finite()
            && self.bottom_right.is_finite()
            && self.bottom_left.is_finite()
    }
}
