//! A circle.
ghost use Rattle.std.specs.Prelude.{◌≡◌, T, ℤ, pos, ◌+ℤ◌, ◌-ℤ◌, unsigned_abs};
ghost use Rattle.std.specs.Float.{binary64};
ghost use Rattle.std.specs.Iterator.{YieldsFirst, item_count};
ghost use Rattle.std.proofs.Common.{rules};
ghost use Rattle.std.specs.Float.Ieee.{fits, mul};
ghost use Rattle.plane.specs.Points.{GridPoint};
ghost use Rattle.plane.specs.Rects.{Sides};
ghost use Rattle.plane.specs.Winding.{Lawful, nonzero};
ghost use Rattle.shapes.specs.Circles.{circle, around, box, wind, π, length_of, all_finite, start, on_circle, curve_between, curve, fine_arm as arm_of, Divides, GridCircle, RuleOfCircle};
ghost use Rattle.shapes.specs.Circles.{box as circle_box, wind as circle_wind, drawn as circle_drawn, rest as path_rest};
ghost use Rattle.shapes.specs.Round.{circle_lawful, circle_formed};

use elementary::sixth_root::sixth_root;
use elementary::trig::{sin_cos, tan};
use plane::bezpath::PathEl;
use plane::cursor::Cursor;
use plane::fault::{ArcFault, ShapeFault};
use plane::point::Point;
use plane::rect::Rect;
use plane::shape::{Shape, check_drawable, stretched};
use std::f64::consts::{FRAC_PI_2, PI};
use std::num::{nearest_u64_to_f64, saturating_f64_to_u32};

/// A circle by its centre and radius. A radius below 0 counts by its size.
#[derive(Clone, Copy, Debug, PartialEq)]
pub struct Circle {
    /// The centre.
    pub center: Point,
    /// The radius.
    pub radius: f64,
}

impl Circle {
    /// Whether centre and radius are finite.
    pub const fn is_finite(&self) -> bool
        ensures { result ≡ all_finite self.now }
    {
        self.center.x.is_finite() && self.center.y.is_finite() && self.radius.is_finite()
    }

    /// The length of the boundary.
    pub const fn perimeter(&self) -> f64
        ensures { result ≡ length_of self.now }
    {
        (2.0 * PI * self.radius).abs()
    }

    /// The circle with this centre and radius.
    pub const fn new(center: Point, radius: f64) -> Circle
        ensures { result ≡ circle center radius }
    {
        Circle { center, radius }
    }

    /// The area.
    pub const fn area(&self) -> f64
        ensures { result ≡ mul binary64 π (mul binary64 self.now.radius self.now.radius) }
    {
        PI * (self.radius * self.radius)
    }

    /// What the circle gives at `pt`: 1 nearer to the centre than the radius, else 0.
    pub fn winding(&self, pt: Point) -> i32
        ensures value { result ≡ wind self.now pt }
        ensures lawful { Lawful (wind self.now) (box self.now) pt }
        ensures grid { (a b q u v : ℤ) → GridCircle self.now a b q → GridPoint pt u v → RuleOfCircle a b q u v result }
    {
        wind_at(self.center, self.radius, pt)
    }

    /// Whether the circle holds `pt`: its winding there is not 0.
    pub fn contains(&self, pt: Point) -> bool
        ensures value { result ≡ nonzero (wind self.now pt) }
        ensures grid { (a b q u v : ℤ) → GridCircle self.now a b q → GridPoint pt u v → (w : ℤ) × RuleOfCircle a b q u v w × (result ≡ nonzero w) }
    {
        self.winding(pt) != 0
    }

    /// The smallest box that holds the circle, each side rounded once.
    pub const fn bounding_box(&self) -> Rect
        ensures value { result ≡ box self.now }
        ensures grid { (a b q : ℤ) → GridCircle self.now a b q → Sides result (a -ℤ pos (unsigned_abs q)) (b -ℤ pos (unsigned_abs q)) (a +ℤ pos (unsigned_abs q)) (b +ℤ pos (unsigned_abs q)) }
    {
        square_about(self.center, self.radius.abs())
    }
}

// How many curves a path has and how long their arms are.
#[derive(Clone, Copy)]
struct Division {
    n: u32,
    arm_len: f64,
}

// Where a cursor on a circle's path stands: a stage of its own, as every cursor here has.
#[derive(Clone, Copy)]
enum CircleStage {
    Start,
    Curves,
    Done,
}

/// A cursor on a circle's path.
#[derive(Clone, Copy)]
pub struct CirclePath {
    circle: Circle,
    delta_th: f64,
    arm_len: f64,
    n: u32,
    // The curve that comes next, counted from 1.
    ix: u64,
    stage: CircleStage,
}

impl Iterator for CirclePath {
    type Item = PathEl;

    ghost next_gives = { YieldsFirst path_rest };

    ghost remaining = { item_count path_rest };

    fn next(&mut self) -> Option<PathEl> {
        match self.stage {
            CircleStage::Start => {
                self.stage = CircleStage::Curves;
                Some(self.circle.start())
            }
            CircleStage::Curves => {
                let ix = self.ix;
                if ix <= self.n as u64 {
                    self.ix = ix + 1;
                    Some(self.curve(ix))
                } else {
                    self.stage = CircleStage::Done;
                    Some(PathEl::ClosePath)
                }
            }
            CircleStage::Done => None,
        }
    }
}

impl Cursor for CirclePath {
    ghost rest = { path_rest };

    ghost ready = { λ c. tt };

    ghost steps = { λ c d el s. s };

    ghost ends = { Prim.search rules };
}

impl CirclePath {
    // The curve `ix`, counted from 1. The last ends where the first began.
    fn curve(&self, ix: u64) -> PathEl
        ensures { result ≡ curve self.now.circle self.now.delta_th self.now.arm_len self.now.n ix }
    {
        let th1 = self.delta_th * nearest_u64_to_f64(ix);
        let to = if ix == self.n as u64 {
            (0.0, 1.0)
        } else {
            sin_cos(th1)
        };
        self.circle
            .curve_between(self.arm_len, sin_cos(th1 - self.delta_th), to)
    }
}

impl Circle {
    // The first element of the path.
    const fn start(self) -> PathEl
        ensures { result ≡ start self }
    {
        PathEl::MoveTo(Point::new(self.center.x + self.radius, self.center.y))
    }

    // The point at (u, v) in radii from the centre.
    const fn at(self, u: f64, v: f64) -> Point
        ensures { result ≡ on_circle self u v }
    {
        Point::new(
            self.center.x + self.radius * u,
            self.center.y + self.radius * v,
        )
    }

    // The curve between two angles, by their sines and cosines, with arms of length `a`.
    const fn curve_between(self, a: f64, from: (f64, f64), to: (f64, f64)) -> PathEl
        ensures { result ≡ curve_between self a from to }
    {
        let (s0, c0) = from;
        let (s1, c1) = to;
        PathEl::CurveTo(
            self.at(c0 - a * s0, s0 + a * c0),
            self.at(c1 + a * s1, s1 - a * c1),
            self.at(c1, s1),
        )
    }

    // The curves that a tolerance asks for: TOO FINE where they would be too many.
    fn divide(self, tolerance: f64) -> Result<Division, ArcFault>
        ensures { Divides self tolerance result }
    {
        let scaled_err = self.radius.abs() / tolerance;
        let error = stretched(scaled_err)?;
        if scaled_err < 1.0 / 1.9608e-4 {
            Ok(Division {
                n: 4,
                arm_len: 0.551915024494,
            })
        } else {
            let n = saturating_f64_to_u32(sixth_root(error).ceil());
            Ok(Division {
                n,
                arm_len: fine_arm(n),
            })
        }
    }
}

impl Shape for Circle {
    type Path = CirclePath;

    ghost wind = { circle_wind };

    ghost frame = { circle_box };

    ghost drawn = { circle_drawn };

    ghost small = { λ s p. (circle_lawful s p).small };

    ghost same = { λ s p q e. (circle_lawful s p).same q e };

    ghost boxed = { λ s p f g n. (circle_lawful s p).boxed f g n };

    ghost formed = { λ s t. circle_formed s t };

    fn winding(&self, pt: Point) -> i32 {
        wind_at(self.center, self.radius, pt)
    }

    fn bounding_box(&self) -> Rect {
        square_about(self.center, self.radius.abs())
    }

    fn path_elements(&self, tolerance: f64) -> Result<CirclePath, ShapeFault> {
        check_drawable(tolerance, self.is_finite())?;
        let Division { n, arm_len } = self.divide(tolerance)?;
        Ok(CirclePath {
            circle: *self,
            delta_th: 2.0 * PI / n as f64,
            arm_len,
            n,
            ix: 1,
            stage: CircleStage::Start,
        })
    }
}

// The winding, as the definition computes it. A caller also learns that its format holds the radius,
// which a proof knows of a parameter and not of a field behind a reference.
fn wind_at(center: Point, radius: f64, pt: Point) -> i32
    ensures value { result ≡ wind (circle center radius) pt }
    ensures held { T (fits binary64 radius) }
{
    if pt.sub(center).hypot2() < radius * radius {
        1
    } else {
        0
    }
}

// The box with the sides at the distance `r` from a centre.
const fn square_about(center: Point, r: f64) -> Rect
    ensures { result ≡ around center.x center.y r }
{
    Rect::new(center.x - r, center.y - r, center.x + r, center.y + r)
}

// The length of the arms of n curves.
fn fine_arm(n: u32) -> f64
    ensures { result ≡ arm_of n }
{
    (4.0 / 3.0) * tan(FRAC_PI_2 / n as f64)
}
