//! A triangle.
ghost use Rattle.std.specs.Prelude.{◌≡◌, ℤ};
ghost use Rattle.std.specs.Float.{binary64};
ghost use Rattle.std.specs.Float.Ieee.{mul};
ghost use Rattle.std.specs.Int.{int_min, int_max};
ghost use Rattle.floats.specs.Value.{Val};
ghost use Rattle.plane.specs.Points.{GridPoint};
ghost use Rattle.plane.specs.Rects.{Sides};
ghost use Rattle.plane.specs.Winding.{Lawful, nonzero};
ghost use Rattle.shapes.specs.Triangles.{triangle, box, wind, area2, half, side as beside, agreed, length_of, all_finite, GridTriangle};
ghost use Rattle.shapes.specs.Triangles.{box as triangle_box, wind as triangle_wind, drawn as triangle_drawn};
ghost use Rattle.shapes.specs.Corners.{twice_area, RuleOfTriangle};
ghost use Rattle.shapes.specs.Threecornered.{triangle_lawful, triangle_formed};

use floats::order::{greater, lesser};
use plane::closed_path::ClosedPath;
use plane::fault::ShapeFault;
use plane::point::Point;
use plane::rect::Rect;
use plane::shape::{Shape, check_drawable};

/// A triangle by its corners. Its area is positive where a, b, c turn as (0, 0), (1, 0), (0, 1) do.
#[derive(Clone, Copy, Debug, PartialEq)]
pub struct Triangle {
    /// The corner a.
    pub a: Point,
    /// The corner b.
    pub b: Point,
    /// The corner c.
    pub c: Point,
}

impl Triangle {
    /// The triangle with these corners.
    pub const fn new(a: Point, b: Point, c: Point) -> Triangle
        ensures { result ≡ triangle a b c }
    {
        Triangle { a, b, c }
    }

    /// The area, negative where the corners turn the other way.
    pub const fn area(&self) -> f64
        ensures value { result ≡ mul binary64 half (area2 self.now) }
        ensures grid { (a b c d e f : ℤ) → GridTriangle self.now a b c d e f → Val result (twice_area a b c d e f) 17 }
    {
        self.signed_area()
    }

    /// What the triangle gives at `pt`: 1 in it or on its edges where its area is positive, -1 strictly in it
    /// where its area is negative, else 0.
    pub fn winding(&self, pt: Point) -> i32
        ensures value { result ≡ wind self.now pt }
        ensures lawful { Lawful (wind self.now) (box self.now) pt }
        ensures grid { (a b c d e f u v : ℤ) → GridTriangle self.now a b c d e f → GridPoint pt u v → RuleOfTriangle a b c d e f u v result }
    {
        self.wind(pt)
    }

    /// Whether the triangle holds `pt`: its winding there is not 0.
    pub fn contains(&self, pt: Point) -> bool
        ensures value { result ≡ nonzero (wind self.now pt) }
        ensures grid { (a b c d e f u v : ℤ) → GridTriangle self.now a b c d e f → GridPoint pt u v → (w : ℤ) × RuleOfTriangle a b c d e f u v w × (result ≡ nonzero w) }
    {
        self.winding(pt) != 0
    }

    /// The smallest box that holds the triangle.
    pub const fn bounding_box(&self) -> Rect
        ensures value { result ≡ box self.now }
        ensures grid { (a b c d e f : ℤ) → GridTriangle self.now a b c d e f → Sides result (int_min a (int_min c e)) (int_min b (int_min d f)) (int_max a (int_max c e)) (int_max b (int_max d f)) }
    {
        self.corner_box()
    }

    /// The length of the boundary.
    pub fn perimeter(&self) -> f64
        ensures { result ≡ length_of self.now }
    {
        self.a.distance(self.b) + self.b.distance(self.c) + self.c.distance(self.a)
    }

    /// Whether all corners are finite.
    pub const fn is_finite(&self) -> bool
        ensures { result ≡ all_finite self.now }
    {
        self.a.is_finite() && self.b.is_finite() && self.c.is_finite()
    }

    // The area, as the definition computes it.
    const fn signed_area(&self) -> f64
        ensures { result ≡ mul binary64 half (area2 self.now) }
    {
        0.5 * side(self.a, self.b, self.c)
    }

    // The box, as the definition computes it.
    const fn corner_box(&self) -> Rect
        ensures { result ≡ box self.now }
    {
        Rect::new(
            lesser(self.a.x, lesser(self.b.x, self.c.x)),
            lesser(self.a.y, lesser(self.b.y, self.c.y)),
            greater(self.a.x, greater(self.b.x, self.c.x)),
            greater(self.a.y, greater(self.b.y, self.c.y)),
        )
    }

    // The winding, as the definition computes it.
    fn wind(&self, pt: Point) -> i32
        ensures { result ≡ wind self.now pt }
    {
        if side(self.a, self.b, self.c) == 0.0 {
            return 0;
        }
        if self.corner_box().encloses(pt) {
            agreed_sign(
                side(self.a, self.b, pt),
                side(self.b, self.c, pt),
                side(self.c, self.a, pt),
            )
        } else {
            0
        }
    }
}

impl Shape for Triangle {
    type Path = ClosedPath<3>;

    ghost wind = { triangle_wind };

    ghost frame = { triangle_box };

    ghost drawn = { triangle_drawn };

    ghost small = { λ s p. (triangle_lawful s p).small };

    ghost same = { λ s p q e. (triangle_lawful s p).same q e };

    ghost boxed = { λ s p f g n. (triangle_lawful s p).boxed f g n };

    ghost formed = { λ s t. triangle_formed s t };

    fn winding(&self, pt: Point) -> i32 {
        self.wind(pt)
    }

    fn bounding_box(&self) -> Rect {
        self.corner_box()
    }

    fn path_elements(&self, tolerance: f64) -> Result<ClosedPath<3>, ShapeFault> {
        check_drawable(tolerance, self.is_finite())?;
        Ok(ClosedPath::new([self.a, self.b, self.c]))
    }
}

// On which side of the line from p to q the point r lies: positive, negative, or 0 on the line.
const fn side(p: Point, q: Point, r: Point) -> f64
    ensures { result ≡ beside p q r }
{
    q.sub(p).cross(r.sub(p))
}

// 1 if none of the three is negative, -1 if all are, else 0. A zero counts as positive, whichever its sign.
fn agreed_sign(s: f64, t: f64, u: f64) -> i32
    ensures { result ≡ agreed s t u }
{
    if 0.0 <= s && 0.0 <= t && 0.0 <= u {
        1
    } else if s < 0.0 && t < 0.0 && u < 0.0 {
        -1
    } else {
        0
    }
}
