//! A rectangle with sides along the axes.
ghost use Rattle.std.specs.Prelude.{◌≡◌, ℤ, ◌-ℤ◌, ◌*ℤ◌};
ghost use Rattle.std.specs.Float.{binary64};
ghost use Rattle.std.specs.Float.Ieee.{sub};
ghost use Rattle.std.specs.Int.{int_min, int_max};
ghost use Rattle.floats.specs.Value.{Val};
ghost use Rattle.plane.specs.Winding.{Lawful, nonzero};
ghost use Rattle.plane.specs.Rects.{rect, corners, area_of, length_of, finite_sides, box, joined, closed, wind, GridRect, Sides, RuleOfRect};
ghost use Rattle.plane.specs.Rects.{box as rect_box, wind as rect_wind, drawn as rect_drawn};
ghost use Rattle.plane.specs.Points.{GridPoint};
ghost use Rattle.plane.specs.Rectangles.{rect_lawful, rect_formed};

use super::closed_path::ClosedPath;
use super::fault::ShapeFault;
use super::point::Point;
use super::shape::{Shape, check_drawable};
use floats::order::{greater, lesser};

/// A rectangle by two opposite corners. It may be reversed: nothing keeps x0 below x1, or y0 below y1.
#[derive(Clone, Copy, Debug, PartialEq)]
pub struct Rect {
    /// The x coordinate of the first corner.
    pub x0: f64,
    /// The y coordinate of the first corner.
    pub y0: f64,
    /// The x coordinate of the second corner.
    pub x1: f64,
    /// The y coordinate of the second corner.
    pub y1: f64,
}

impl Rect {
    /// The rectangle with these corners, as they are given.
    pub const fn new(x0: f64, y0: f64, x1: f64, y1: f64) -> Rect
        ensures { result ≡ rect x0 y0 x1 y1 }
    {
        Rect { x0, y0, x1, y1 }
    }

    /// The width, negative where x is reversed.
    pub const fn width(&self) -> f64
        ensures { result ≡ sub binary64 self.now.x1 self.now.x0 }
    {
        self.x1 - self.x0
    }

    /// The height, negative where y is reversed.
    pub const fn height(&self) -> f64
        ensures { result ≡ sub binary64 self.now.y1 self.now.y0 }
    {
        self.y1 - self.y0
    }

    /// The same rectangle with no side reversed.
    pub const fn abs(&self) -> Rect
        ensures { result ≡ box self.now }
    {
        Rect {
            x0: lesser(self.x0, self.x1),
            y0: lesser(self.y0, self.y1),
            x1: greater(self.x0, self.x1),
            y1: greater(self.y0, self.y1),
        }
    }

    /// The smallest box that holds this one and `other`, neither of them reversed. A side that is not-a-number
    /// gives way to the other's.
    pub const fn union(&self, other: Rect) -> Rect
        ensures { result ≡ joined self.now other }
    {
        Rect::new(
            lesser(self.x0, other.x0),
            lesser(self.y0, other.y0),
            greater(self.x1, other.x1),
            greater(self.y1, other.y1),
        )
    }

    /// Width times height: negative where just one axis is reversed.
    pub const fn area(&self) -> f64
        ensures value { result ≡ area_of self.now }
        ensures grid { (a b c d : ℤ) → GridRect self.now a b c d → Val result ((c -ℤ a) *ℤ (d -ℤ b)) 16 }
    {
        self.extent()
    }

    /// What the rectangle gives at `pt`: 0 outside its half-open box, else 1, or -1 where just one axis is reversed.
    pub fn winding(&self, pt: Point) -> i32
        ensures value { result ≡ wind self.now pt }
        ensures lawful { Lawful (wind self.now) (box self.now) pt }
        ensures grid { (a b c d u v : ℤ) → GridRect self.now a b c d → GridPoint pt u v → RuleOfRect a b c d u v result }
    {
        self.wind(pt)
    }

    /// Whether the rectangle holds `pt`: its winding there is not 0.
    pub fn contains(&self, pt: Point) -> bool
        ensures value { result ≡ nonzero (wind self.now pt) }
        ensures grid { (a b c d u v : ℤ) → GridRect self.now a b c d → GridPoint pt u v → (w : ℤ) × RuleOfRect a b c d u v w × (result ≡ nonzero w) }
    {
        self.winding(pt) != 0
    }

    /// The smallest box that holds the rectangle.
    pub const fn bounding_box(&self) -> Rect
        ensures value { result ≡ box self.now }
        ensures grid { (a b c d : ℤ) → GridRect self.now a b c d → Sides result (int_min a c) (int_min b d) (int_max a c) (int_max b d) }
    {
        self.abs()
    }

    /// The length of the boundary: twice the sizes of width and height.
    pub const fn perimeter(&self) -> f64
        ensures { result ≡ length_of self.now }
    {
        2.0 * (self.width().abs() + self.height().abs())
    }

    /// Whether all four sides are finite.
    pub const fn is_finite(&self) -> bool
        ensures { result ≡ finite_sides self.now }
    {
        self.x0.is_finite() && self.y0.is_finite() && self.x1.is_finite() && self.y1.is_finite()
    }

    /// Whether `pt` lies between the sides, or on one of them: in the closed box, where no side is reversed.
    pub const fn encloses(&self, pt: Point) -> bool
        ensures { result ≡ closed self.now pt }
    {
        self.x0 <= pt.x && pt.x <= self.x1 && self.y0 <= pt.y && pt.y <= self.y1
    }

    // The corners, from the first along the first side.
    const fn corners(&self) -> [Point; 4]
        ensures { result ≡ corners self.now }
    {
        [
            Point::new(self.x0, self.y0),
            Point::new(self.x1, self.y0),
            Point::new(self.x1, self.y1),
            Point::new(self.x0, self.y1),
        ]
    }

    // The area, as the definition computes it.
    const fn extent(&self) -> f64
        ensures { result ≡ area_of self.now }
    {
        self.width() * self.height()
    }

    // The winding, as the definition computes it.
    fn wind(&self, pt: Point) -> i32
        ensures { result ≡ wind self.now pt }
    {
        let b = self.bounding_box();
        if b.x0 <= pt.x && pt.x < b.x1 && b.y0 <= pt.y && pt.y < b.y1 {
            if (self.x0 < self.x1) != (self.y0 < self.y1) {
                -1
            } else {
                1
            }
        } else {
            0
        }
    }
}

impl Shape for Rect {
    type Path = ClosedPath<4>;

    ghost wind = { rect_wind };

    ghost frame = { rect_box };

    ghost drawn = { rect_drawn };

    ghost small = { λ s p. (rect_lawful s p).small };

    ghost same = { λ s p q e. (rect_lawful s p).same q e };

    ghost boxed = { λ s p f g n. (rect_lawful s p).boxed f g n };

    ghost formed = { λ s t. rect_formed s t };

    fn winding(&self, pt: Point) -> i32 {
        self.wind(pt)
    }

    fn bounding_box(&self) -> Rect {
        self.abs()
    }

    fn path_elements(&self, tolerance: f64) -> Result<ClosedPath<4>, ShapeFault> {
        check_drawable(tolerance, self.is_finite())?;
        Ok(ClosedPath::new(self.corners()))
    }
}
