//! A point of the plane.
ghost use Rattle.std.specs.Prelude.{◌≡◌};
ghost use Rattle.plane.specs.Points.{page_checked, PageRule};
ghost use Rattle.plane.specs.Vectors.{point, from_to, long, finite_point};

use super::fault::PageFault;
use super::vec2::Vec2;
use floats::page::{is_grid, on_page};

/// A point of the plane, in staff spaces.
#[derive(Clone, Copy, Debug, PartialEq)]
pub struct Point {
    /// The x coordinate.
    pub x: f64,
    /// The y coordinate.
    pub y: f64,
}

impl Point {
    /// The point with these coordinates.
    pub const fn new(x: f64, y: f64) -> Point
        ensures { result ≡ point x y }
    {
        Point { x, y }
    }

    /// The vector from `other` to this point.
    pub const fn sub(self, other: Point) -> Vec2
        ensures { result ≡ from_to other self }
    {
        Vec2 {
            x: self.x - other.x,
            y: self.y - other.y,
        }
    }

    /// The distance from `other`.
    pub fn distance(self, other: Point) -> f64
        ensures { result ≡ long (from_to other self) }
    {
        self.sub(other).hypot()
    }

    /// Whether both coordinates are finite.
    pub const fn is_finite(self) -> bool
        ensures { result ≡ finite_point self }
    {
        self.x.is_finite() && self.y.is_finite()
    }
    /// Refuses what is no grid point of the page: 6 OFF GRID for a coordinate that is no grid number, and then
    /// 7 OFF PAGE for one that is not on the page.
    pub fn check_page(self) -> Result<(), PageFault>
        ensures value { result ≡ page_checked self }
        ensures means { PageRule self result }
    {
        if !(is_grid(self.x) && is_grid(self.y)) {
            return Err(PageFault::OffGrid);
        }
        if !(on_page(self.x) && on_page(self.y)) {
            return Err(PageFault::OffPage);
        }
        Ok(())
    }
}
