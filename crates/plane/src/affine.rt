//! Affine maps of the plane.
ghost use Rattle.std.specs.Prelude.{◌≡◌};
ghost use Rattle.plane.specs.Affines.{affine, shifting, turning, stretching, product, image, det, back_by, back, spanned, image_el, image_box, radii_of, tilt_of, shift_of, all_finite};

use super::bezpath::PathEl;
use super::point::Point;
use super::rect::Rect;
use super::vec2::Vec2;
use elementary::trig::{atan2, sin_cos};

/// An affine map: it sends (x, y) to (ax + cy + e, bx + dy + f).
#[derive(Clone, Copy, Debug, PartialEq)]
pub struct Affine {
    /// What x adds to x.
    pub a: f64,
    /// What x adds to y.
    pub b: f64,
    /// What y adds to x.
    pub c: f64,
    /// What y adds to y.
    pub d: f64,
    /// What is added to x.
    pub e: f64,
    /// What is added to y.
    pub f: f64,
}

impl Affine {
    /// The map with these numbers.
    pub const fn new(a: f64, b: f64, c: f64, d: f64, e: f64, f: f64) -> Affine
        ensures { result ≡ affine a b c d e f }
    {
        Affine { a, b, c, d, e, f }
    }

    /// The map that moves each point by `v`.
    pub const fn translate(v: Vec2) -> Affine
        ensures { result ≡ shifting v }
    {
        Affine::new(1.0, 0.0, 0.0, 1.0, v.x, v.y)
    }

    /// The turn about the origin by `th` radians, from the x axis towards the y axis. All but e and f are
    /// not-a-number unless |th| ≤ 2²⁰.
    pub fn rotate(th: f64) -> Affine
        ensures { result ≡ turning th }
    {
        let (s, c) = sin_cos(th);
        Affine::new(c, s, -s, c, 0.0, 0.0)
    }

    /// The map that stretches x by `sx` and y by `sy`.
    pub const fn scale_non_uniform(sx: f64, sy: f64) -> Affine
        ensures { result ≡ stretching sx sy }
    {
        Affine::new(sx, 0.0, 0.0, sy, 0.0, 0.0)
    }

    /// The product: first `other`, then this map.
    pub const fn mul(self, other: Affine) -> Affine
        ensures { result ≡ product self other }
    {
        Affine {
            a: self.a * other.a + self.c * other.b,
            b: self.b * other.a + self.d * other.b,
            c: self.a * other.c + self.c * other.d,
            d: self.b * other.c + self.d * other.d,
            e: self.a * other.e + self.c * other.f + self.e,
            f: self.b * other.e + self.d * other.f + self.f,
        }
    }

    /// Where the map sends `pt`.
    pub const fn map(self, pt: Point) -> Point
        ensures { result ≡ image self pt }
    {
        Point::new(
            self.a * pt.x + self.c * pt.y + self.e,
            self.b * pt.x + self.d * pt.y + self.f,
        )
    }

    /// The element with each of its points sent by the map.
    pub const fn map_el(self, el: PathEl) -> PathEl
        ensures { result ≡ image_el self el }
    {
        match el {
            PathEl::MoveTo(p) => PathEl::MoveTo(self.map(p)),
            PathEl::LineTo(p) => PathEl::LineTo(self.map(p)),
            PathEl::QuadTo(p, q) => PathEl::QuadTo(self.map(p), self.map(q)),
            PathEl::CurveTo(p, q, r) => PathEl::CurveTo(self.map(p), self.map(q), self.map(r)),
            PathEl::ClosePath => PathEl::ClosePath,
        }
    }

    /// The determinant: how many times larger the map makes an area, negative where it mirrors.
    pub const fn determinant(self) -> f64
        ensures { result ≡ det self }
    {
        self.a * self.d - self.b * self.c
    }

    /// The map back. A determinant of zero gives infinities and not-a-numbers.
    pub const fn inverse(self) -> Affine
        ensures { result ≡ back self }
    {
        self.undone(self.determinant().recip())
    }

    // The map back, by one over the determinant.
    const fn undone(self, inv: f64) -> Affine
        ensures { result ≡ back_by inv self }
    {
        Affine {
            a: inv * self.d,
            b: -inv * self.b,
            c: -inv * self.c,
            d: inv * self.a,
            e: inv * (self.c * self.f - self.d * self.e),
            f: inv * (self.b * self.e - self.a * self.f),
        }
    }

    /// The smallest box that holds what the map sends `rect` to.
    pub fn transform_rect_bbox(self, rect: Rect) -> Rect
        ensures { result ≡ image_box self rect }
    {
        let p00 = self.map(Point::new(rect.x0, rect.y0));
        let p01 = self.map(Point::new(rect.x0, rect.y1));
        let p10 = self.map(Point::new(rect.x1, rect.y0));
        let p11 = self.map(Point::new(rect.x1, rect.y1));
        from_points(p00, p01).union(from_points(p10, p11))
    }

    /// The radii of the ellipse that the circle about the origin with radius 1 is sent to, the greater
    /// first, and the angle of the greater one in radians. Where it is sent to is left out of account.
    pub fn svd(self) -> (Vec2, f64)
        ensures { result ≡ (radii_of self, tilt_of self) }
    {
        (self.radii(), self.tilt())
    }

    // The radii alone, without nested square roots.
    fn radii(self) -> Vec2
        ensures { result ≡ radii_of self }
    {
        let s = Vec2::new(self.a + self.d, self.b - self.c).hypot();
        let t = Vec2::new(self.a - self.d, self.b + self.c).hypot();
        Vec2::new(0.5 * (s + t), 0.5 * (s - t).abs())
    }

    // The angle alone.
    fn tilt(self) -> f64
        ensures { result ≡ tilt_of self }
    {
        let y = 2.0 * (self.a * self.b + self.c * self.d);
        let x = self.a * self.a - self.b * self.b + self.c * self.c - self.d * self.d;
        0.5 * atan2(y, x)
    }

    /// Where the map sends the origin.
    pub const fn translation(self) -> Vec2
        ensures { result ≡ shift_of self }
    {
        Vec2::new(self.e, self.f)
    }

    /// Whether no number of the map is an infinity or not-a-number.
    pub const fn is_finite(self) -> bool
        ensures { result ≡ all_finite self }
    {
        self.a.is_finite()
            && self.b.is_finite()
            && self.c.is_finite()
            && self.d.is_finite()
            && self.e.is_finite()
            && self.f.is_finite()
    }
}

// The box with these opposite corners.
const fn from_points(p: Point, q: Point) -> Rect
    ensures { result ≡ spanned p q }
{
    Rect::new(p.x, p.y, q.x, q.y).abs()
}
