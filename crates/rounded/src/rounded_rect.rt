//! A rectangle with rounded corners.
ghost use Rattle.std.specs.Prelude.{◌≡◌, ℤ};
ghost use Rattle.std.specs.Float.{binary64};
ghost use Rattle.std.specs.Float.Ieee.{sub};
ghost use Rattle.plane.specs.Points.{GridPoint, FiniteBox};
ghost use Rattle.plane.specs.Rects.{rect as rectangle, box, GridRect};
ghost use Rattle.plane.specs.Winding.{Lawful, nonzero};
ghost use Rattle.rounded.specs.Radii.{GridRadii};
ghost use Rattle.rounded.specs.Roundings.{made_of, middle, area_of, length_of, radius_at as radius_for, past as beyond, reached, wind as winds, Sound, Repaired, GridRounded, MadeOnGrid, total, corner_area, corner_length};
ghost use Rattle.rounded.specs.Shrunk.{twice, RuleOfRounded};

use super::rounded_rect_radii::RoundedRectRadii;
use floats::order::{greater, lesser};
use plane::point::Point;
use plane::rect::Rect;
use plane::vec2::Vec2;
use std::f64::consts::{FRAC_PI_2, FRAC_PI_4};

/// A rectangle with rounded corners. Where its sides are finite, none is reversed, and no radius is below 0
/// or above half the shorter one: what makes one sees to that.
#[derive(Clone, Copy, Debug, PartialEq)]
pub struct RoundedRect {
    rect: Rect,
    radii: RoundedRectRadii,
}

impl RoundedRect {
    /// The rectangle with these corners, rounded by these radii: no side reversed, and each radius by its size,
    /// up to half the shorter side.
    pub const fn new(x0: f64, y0: f64, x1: f64, y1: f64, radii: RoundedRectRadii) -> RoundedRect
        ensures value { result ≡ made_of (rectangle x0 y0 x1 y1) radii }
        ensures sound { FiniteBox (rectangle x0 y0 x1 y1) → Sound result }
        ensures always { Repaired result }
        ensures grid { (a b c d i j k l : ℤ) → GridRect (rectangle x0 y0 x1 y1) a b c d → GridRadii radii i j k l → MadeOnGrid result a b c d i j k l }
    {
        RoundedRect::from_rect(Rect::new(x0, y0, x1, y1), radii)
    }

    /// The rectangle, rounded by these radii: no side reversed, and each radius by its size, up to half the
    /// shorter side.
    pub const fn from_rect(rect: Rect, radii: RoundedRectRadii) -> RoundedRect
        ensures value { result ≡ made_of rect radii }
        ensures sound { FiniteBox rect → Sound result }
        ensures always { Repaired result }
        ensures grid { (a b c d i j k l : ℤ) → GridRect rect a b c d → GridRadii radii i j k l → MadeOnGrid result a b c d i j k l }
    {
        let b = rect.abs();
        let shorter = lesser(b.width(), b.height());
        RoundedRect {
            rect: b,
            radii: radii.abs().clamp(shorter / 2.0),
        }
    }

    /// The width.
    pub const fn width(&self) -> f64
        ensures { result ≡ sub binary64 self.now.rect.x1 self.now.rect.x0 }
    {
        self.rect.width()
    }

    /// The height.
    pub const fn height(&self) -> f64
        ensures { result ≡ sub binary64 self.now.rect.y1 self.now.rect.y0 }
    {
        self.rect.height()
    }

    /// The radii of the corners.
    pub const fn radii(&self) -> RoundedRectRadii
        ensures { result ≡ self.now.radii }
    {
        self.radii
    }

    /// The rectangle, as it is without the rounding.
    pub const fn rect(&self) -> Rect
        ensures { result ≡ self.now.rect }
    {
        self.rect
    }

    /// The centre.
    pub const fn center(&self) -> Point
        ensures { result ≡ middle self.now.rect }
    {
        Point::new(
            0.5 * (self.rect.x0 + self.rect.x1),
            0.5 * (self.rect.y0 + self.rect.y1),
        )
    }

    /// The area: the rectangle's, and for each corner a quarter circle less its square.
    pub const fn area(&self) -> f64
        ensures { result ≡ area_of self.now }
    {
        self.rect.area() + corners_area(self.radii)
    }

    /// The length of the outline: the rectangle's, and for each corner a quarter circle less its two sides.
    pub const fn perimeter(&self) -> f64
        ensures { result ≡ length_of self.now }
    {
        2.0 * (self.width().abs() + self.height().abs()) + corners_length(self.radii)
    }

    /// The smallest box that holds the rounded rectangle.
    pub const fn bounding_box(&self) -> Rect
        ensures { result ≡ box self.now.rect }
    {
        self.rect.bounding_box()
    }

    /// What the rounded rectangle gives at `pt`: 1 in it or on its outline, else 0.
    pub fn winding(&self, pt: Point) -> i32
        ensures value { result ≡ winds self.now pt }
        ensures lawful { Lawful (winds self.now) (box self.now.rect) pt }
        ensures grid { (a b c d i j k l u v : ℤ) → GridRounded self.now a b c d i j k l → Sound self.now → GridPoint pt u v → RuleOfRounded (twice a) (twice b) (twice c) (twice d) i j k l (twice u) (twice v) result }
    {
        self.wind(pt)
    }

    /// Whether the rounded rectangle holds `pt`: its winding there is not 0.
    pub fn contains(&self, pt: Point) -> bool
        ensures value { result ≡ nonzero (winds self.now pt) }
        ensures grid { (a b c d i j k l u v : ℤ) → GridRounded self.now a b c d i j k l → Sound self.now → GridPoint pt u v → (w : ℤ) × RuleOfRounded (twice a) (twice b) (twice c) (twice d) i j k l (twice u) (twice v) w × (result ≡ nonzero w) }
    {
        self.winding(pt) != 0
    }

    // The winding, as the definition computes it.
    fn wind(&self, pt: Point) -> i32
        ensures { result ≡ winds self.now pt }
    {
        if self.bounding_box().encloses(pt) && self.reaches(pt) {
            1
        } else {
            0
        }
    }

    // Whether the circle in the corner of the point's quarter, or the box between the circles, reaches to `pt`.
    fn reaches(&self, pt: Point) -> bool
        ensures { result ≡ reached self.now pt }
    {
        let v = pt.sub(self.center());
        let radius = radius_at(self.radii, v);
        let dx = past(self.width() / 2.0, radius, v.x);
        let dy = past(self.height() / 2.0, radius, v.y);
        dx * dx + dy * dy <= radius * radius
    }
}

// The radius of the corner towards which `v` leads from the centre.
fn radius_at(radii: RoundedRectRadii, v: Vec2) -> f64
    ensures { result ≡ radius_for radii v }
{
    match (v.y >= 0.0, v.x >= 0.0) {
        (true, true) => radii.bottom_right,
        (true, false) => radii.bottom_left,
        (false, true) => radii.top_right,
        (false, false) => radii.top_left,
    }
}

// How far `x`, counted from the centre, lies past the centre of the circle in the corner: 0 if it does not.
const fn past(half: f64, radius: f64, x: f64) -> f64
    ensures { result ≡ beyond half radius x }
{
    greater(x.abs() - greater(half - radius, 0.0), 0.0)
}

// What the corners add to the area: negative. The sum starts at -0.0, which leaves any first summand as it is. It is
// written out twice, here and for the length, since a `const fn` calls no closure.
const fn corners_area(radii: RoundedRectRadii) -> f64
    ensures { result ≡ total corner_area radii }
{
    -0.0 + corner_area(radii.top_left)
        + corner_area(radii.top_right)
        + corner_area(radii.bottom_right)
        + corner_area(radii.bottom_left)
}

const fn corner_area(radius: f64) -> f64
    ensures { result ≡ corner_area radius }
{
    (FRAC_PI_4 - 1.0) * radius * radius
}

// What the corners add to the length: negative.
const fn corners_length(radii: RoundedRectRadii) -> f64
    ensures { result ≡ total corner_length radii }
{
    -0.0 + corner_length(radii.top_left)
        + corner_length(radii.top_right)
        + corner_length(radii.bottom_right)
        + corner_length(radii.bottom_left)
}

const fn corner_length(radius: f64) -> f64
    ensures { result ≡ corner_length radius }
{
    (-2.0 + FRAC_PI_2) * radius
}
