//! What every shape can be asked besides its winding, its box and its path.
ghost use Rattle.std.specs.Prelude.{◌≡◌, Float};
ghost use Rattle.std.specs.Float.{binary64};
ghost use Rattle.std.specs.Float.Ieee.{mul};
ghost use Rattle.plane.specs.Rects.{area_of as rect_area, length_of as rect_length};
ghost use Rattle.plane.specs.Winding.{nonzero};
ghost use Rattle.shapes.specs.Circles.{π, length_of as circle_length};
ghost use Rattle.shapes.specs.Triangles.{half, area2, length_of as triangle_length};
ghost use Rattle.rounded.specs.Roundings.{area_of as rounded_area, length_of as rounded_length};
ghost use Rattle.ellipses.specs.Ellipses.{area_of as ellipse_area};

use ellipses::ellipse::Ellipse;
use plane::point::Point;
use plane::rect::Rect;
use plane::shape::Shape;
use rounded::rounded_rect::RoundedRect;
use shapes::circle::Circle;
use shapes::triangle::Triangle;

/// A shape with an area.
pub trait Figure: Shape {
    /// The area.
    ghost area: { Self → Float };

    /// The area.
    fn area(&self) -> f64
        ensures { result ≡ area self.now };

    /// Whether the shape holds `pt`: its winding there is not 0.
    fn contains(&self, pt: Point) -> bool
        ensures { result ≡ nonzero (Self.wind self.now pt) };
}

/// A figure with a boundary whose length is known at once.
pub trait Outlined: Figure {
    /// The length of the boundary.
    ghost length: { Self → Float };

    /// The length of the boundary.
    fn perimeter(&self) -> f64
        ensures { result ≡ length self.now };
}

// The shapes answer by their own methods of these names, which come before a trait's.

impl Figure for Rect {
    ghost area = { rect_area };

    fn area(&self) -> f64 {
        self.area()
    }

    fn contains(&self, pt: Point) -> bool {
        self.contains(pt)
    }
}

impl Outlined for Rect {
    ghost length = { rect_length };

    fn perimeter(&self) -> f64 {
        self.perimeter()
    }
}

impl Figure for Circle {
    ghost area = { λ c. mul binary64 π (mul binary64 c.radius c.radius) };

    fn area(&self) -> f64 {
        self.area()
    }

    fn contains(&self, pt: Point) -> bool {
        self.contains(pt)
    }
}

impl Outlined for Circle {
    ghost length = { circle_length };

    fn perimeter(&self) -> f64 {
        self.perimeter()
    }
}

impl Figure for Triangle {
    ghost area = { λ t. mul binary64 half (area2 t) };

    fn area(&self) -> f64 {
        self.area()
    }

    fn contains(&self, pt: Point) -> bool {
        self.contains(pt)
    }
}

impl Outlined for Triangle {
    ghost length = { triangle_length };

    fn perimeter(&self) -> f64 {
        self.perimeter()
    }
}

impl Figure for RoundedRect {
    ghost area = { rounded_area };

    fn area(&self) -> f64 {
        self.area()
    }

    fn contains(&self, pt: Point) -> bool {
        self.contains(pt)
    }
}

impl Outlined for RoundedRect {
    ghost length = { rounded_length };

    fn perimeter(&self) -> f64 {
        self.perimeter()
    }
}

impl Figure for Ellipse {
    ghost area = { ellipse_area };

    fn area(&self) -> f64 {
        self.area()
    }

    fn contains(&self, pt: Point) -> bool {
        self.contains(pt)
    }
}
