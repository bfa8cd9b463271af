//! An ellipse.
ghost use Rattle.std.specs.Prelude.{◌≡◌, pos, if◌then◌else◌};
ghost use Rattle.plane.specs.Affines.{radii_of, tilt_of};
ghost use Rattle.plane.specs.Winding.{Lawful, nonzero};
ghost use Rattle.ellipses.specs.Ellipses.{ellipse, placed, center_of, area_of, about, box, in_unit_circle, wind};
ghost use Rattle.ellipses.specs.Lengths.{length_of};

use super::length::length;
use plane::affine::Affine;
use plane::fault::ShapeFault;
use plane::point::Point;
use plane::rect::Rect;
use plane::vec2::Vec2;
use std::f64::consts::PI;

/// An ellipse: what an affine map sends the circle about the origin with radius 1 to.
#[derive(Clone, Copy, Debug, PartialEq)]
pub struct Ellipse {
    inner: Affine,
}

impl Ellipse {
    /// The ellipse about `center` with these radii, along x and along y, turned by `x_rotation` radians from the
    /// x axis towards the y axis. A radius below 0 counts by its size.
    pub fn new(center: Point, radii: Vec2, x_rotation: f64) -> Ellipse
        ensures { result ≡ ellipse (placed center radii x_rotation) }
    {
        let shift = Affine::translate(Vec2::new(center.x, center.y));
        let turn = Affine::rotate(x_rotation);
        let stretch = Affine::scale_non_uniform(radii.x.abs(), radii.y.abs());
        Ellipse::from_affine(shift.mul(turn).mul(stretch))
    }

    /// The ellipse that `affine` sends the circle about the origin with radius 1 to.
    pub const fn from_affine(affine: Affine) -> Ellipse
        ensures { result ≡ ellipse affine }
    {
        Ellipse { inner: affine }
    }

    /// The map that makes the ellipse of that circle.
    pub const fn affine(&self) -> Affine
        ensures { result ≡ self.now.inner }
    {
        self.inner
    }

    /// The centre.
    pub const fn center(&self) -> Point
        ensures { result ≡ center_of self.now }
    {
        let v = self.inner.translation();
        Point::new(v.x, v.y)
    }

    /// The two radii, the greater first.
    pub fn radii(&self) -> Vec2
        ensures { result ≡ radii_of self.now.inner }
    {
        let (radii, _) = self.inner.svd();
        radii
    }

    /// The angle of the greater radius, in radians.
    pub fn rotation(&self) -> f64
        ensures { result ≡ tilt_of self.now.inner }
    {
        let (_, angle) = self.inner.svd();
        angle
    }

    /// The area: π times the size of the map's determinant.
    pub const fn area(&self) -> f64
        ensures { result ≡ area_of self.now }
    {
        PI * self.inner.determinant().abs()
    }

    /// The smallest box that holds the ellipse.
    pub fn bounding_box(&self) -> Rect
        ensures { result ≡ box self.now }
    {
        let m = self.inner;
        let range_x = Vec2::new(m.a, m.c).hypot();
        let range_y = Vec2::new(m.b, m.d).hypot();
        Rect::new(m.e - range_x, m.f - range_y, m.e + range_x, m.f + range_y)
    }

    /// What the ellipse gives at `pt`: 1 where `pt` lies in the closed bounding box and the map back leads it into
    /// the circle, else 0.
    pub fn winding(&self, pt: Point) -> i32
        ensures value { result ≡ wind self.now pt }
        ensures lawful { Lawful (wind self.now) (box self.now) pt }
    {
        self.wind(pt)
    }

    /// Whether the ellipse holds `pt`: its winding there is not 0.
    pub fn contains(&self, pt: Point) -> bool
        ensures { result ≡ nonzero (wind self.now pt) }
    {
        self.winding(pt) != 0
    }

    /// The length within `accuracy`, and the steps that it took. An `allowance` above 64 counts as 64.
    /// Radii that are not finite have no length: not-a-number. With a radius of 0 it is four times the other. Neither
    /// takes a step, nor does a series that is near enough; else a step is a turn of the arithmetic-geometric mean.
    /// Refuses with 9 STEPS where the allowance is spent before the last turn is made.
    pub fn perimeter(&self, accuracy: f64, allowance: u32) -> Result<(f64, u32), ShapeFault>
        ensures { result ≡ length_of (radii_of self.now.inner) accuracy allowance }
    {
        length(self.radii(), accuracy, allowance)
    }

    // The winding, as the definition computes it.
    fn wind(&self, pt: Point) -> i32
        ensures { result ≡ wind self.now pt }
    {
        if self.bounding_box().encloses(pt) {
            in_circle(self.inner.inverse().map(pt))
        } else {
            0
        }
    }
}

// 1 nearer to the origin than 1, else 0.
const fn in_circle(pt: Point) -> i32
    ensures { result ≡ (if in_unit_circle pt then pos 1 else pos 0) }
{
    if Vec2::new(pt.x, pt.y).hypot2() < 1.0 {
        1
    } else {
        0
    }
}

#[cfg(test)]
mod tests {
    use super::*;
    use std::test::Fail;

    fn upright(rx: f64, ry: f64) -> Ellipse {
        Ellipse::new(Point::new(0.0, 0.0), Vec2::new(rx, ry), 0.0)
    }

    #[test]
    fn lengths(rt: HostRuntime) -> Result<(), Fail> {
        let (line, steps) = upright(3.0, 0.0).perimeter(0.001, 0)?;
        assert_eq!(rt; line, 12.0);
        assert_eq!(rt; steps, 0);
        let (round, steps) = upright(1.0, 1.0).perimeter(1e-9, 0)?;
        assert_eq!(rt; round, 2.0 * PI);
        assert_eq!(rt; steps, 0);
        Ok(())
    }

    #[test]
    fn allowances(rt: HostRuntime) -> Result<(), Fail> {
        let oval = upright(10.0, 1.0);
        let (long, steps) = oval.perimeter(1e-9, 6)?;
        assert_eq!(rt; long, 40.63974180100894);
        assert_eq!(rt; steps, 6);
        assert!(rt; oval.perimeter(1e-9, 5).is_err());
        Ok(())
    }

    #[test]
    fn holds(rt: HostRuntime) {
        let oval = upright(2.0, 1.0);
        assert!(rt; oval.contains(Point::new(1.5, 0.5)));
        assert!(rt; !oval.contains(Point::new(2.0, 0.0)));
        assert!(rt; !oval.contains(Point::new(0.0, -1.5)));
    }
}
