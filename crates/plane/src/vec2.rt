//! A vector of the plane.
ghost use Rattle.std.specs.Prelude.{◌≡◌};
ghost use Rattle.plane.specs.Vectors.{vec2 as vector, dot as dotted, cross as crossed, long};

use elementary::sqrt::sqrt;

/// A vector of the plane, in staff spaces.
#[derive(Clone, Copy, Debug, PartialEq)]
pub struct Vec2 {
    /// The x component.
    pub x: f64,
    /// The y component.
    pub y: f64,
}

impl Vec2 {
    /// The vector with these components.
    pub const fn new(x: f64, y: f64) -> Vec2
        ensures { result ≡ vector x y }
    {
        Vec2 { x, y }
    }

    /// The dot product.
    pub const fn dot(self, other: Vec2) -> f64
        ensures { result ≡ dotted self other }
    {
        self.x * other.x + self.y * other.y
    }

    /// The cross product, signed so that (1, 0) × (0, 1) is 1.
    pub const fn cross(self, other: Vec2) -> f64
        ensures { result ≡ crossed self other }
    {
        self.x * other.y - self.y * other.x
    }

    /// The square of the length.
    pub const fn hypot2(self) -> f64
        ensures { result ≡ dotted self self }
    {
        self.dot(self)
    }

    /// The length.
    pub fn hypot(self) -> f64
        ensures { result ≡ long self }
    {
        sqrt(self.hypot2())
    }
}
