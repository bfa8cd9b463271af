//! An arc of an ellipse, and its curves.
ghost use Rattle.std.specs.Prelude.{◌≡◌};
ghost use Rattle.std.specs.Iterator.{YieldsFirst, item_count};
ghost use Rattle.std.proofs.Common.{rules};
ghost use Rattle.arcs.specs.Arcs.{rotated, sampled, plus_times, minus_times, placed, first_point, curve_from, divided, arm_of, rest as curves_left, Begins};

use elementary::sixth_root::sixth_root;
use elementary::trig::{sin_cos, tan};
use floats::order::greater;
use plane::bezpath::PathEl;
use plane::cursor::Cursor;
use plane::fault::ArcFault;
use plane::point::Point;
use plane::shape::stretched;
use plane::vec2::Vec2;
use std::f64::consts::{FRAC_PI_2, PI};
use std::num::saturating_f64_to_u32;

/// An arc of an ellipse. Shapes build it for their paths.
#[derive(Clone, Copy)]
pub struct Arc {
    /// The centre of the ellipse.
    pub center: Point,
    /// Its radii, before it is rotated.
    pub radii: Vec2,
    /// The angle at which the arc begins, in radians.
    pub start_angle: f64,
    /// The angle that it covers, in radians.
    pub sweep_angle: f64,
    /// How far the ellipse is rotated, in radians.
    pub x_rotation: f64,
}

/// A cursor on the curves of an arc.
#[derive(Clone, Copy)]
pub struct ArcPath {
    arc: Arc,
    arm_len: f64,
    angle_step: f64,
    // How many curves are left, and where the next begins.
    left: u32,
    p0: Vec2,
    angle0: f64,
}

impl Arc {
    /// The point at which the arc begins.
    pub fn start(&self) -> Point
        ensures { result ≡ first_point self.now }
    {
        let angle = self.start_angle + self.sweep_angle * 0.0;
        add(self.center, self.sample(angle))
    }

    /// A cursor on the curves of the arc at this tolerance. It refuses as too fine where 1.1163 times
    /// the larger radius over the tolerance is above 2³⁶, or not-a-number.
    pub fn append_iter(&self, tolerance: f64) -> Result<ArcPath, ArcFault>
        ensures { Begins self.now tolerance result }
    {
        let error = stretched(greater(self.radii.x, self.radii.y) / tolerance)?;
        let n = divide(error, self.sweep_angle);
        let angle_step = self.sweep_angle / n;
        Ok(ArcPath {
            arc: *self,
            arm_len: arm_length(angle_step, self.sweep_angle),
            angle_step,
            left: saturating_f64_to_u32(n),
            p0: self.sample(self.start_angle),
            angle0: self.start_angle,
        })
    }

    // The point of the ellipse at this angle, from its centre.
    fn sample(&self, angle: f64) -> Vec2
        ensures { result ≡ sampled self.now.radii self.now.x_rotation angle }
    {
        let (s, c) = sin_cos(angle);
        rotate_pt(
            Vec2::new(self.radii.x * c, self.radii.y * s),
            self.x_rotation,
        )
    }
}

impl Iterator for ArcPath {
    type Item = PathEl;

    ghost next_gives = { YieldsFirst curves_left };

    ghost remaining = { item_count curves_left };

    fn next(&mut self) -> Option<PathEl> {
        if self.left == 0 {
            return None;
        }
        let angle1 = self.angle0 + self.angle_step;
        let p3 = self.arc.sample(angle1);
        let el = self.curve_to(angle1, p3);
        self.left -= 1;
        self.p0 = p3;
        self.angle0 = angle1;
        Some(el)
    }
}

impl Cursor for ArcPath {
    ghost rest = { curves_left };

    ghost ready = { λ c. tt };

    ghost steps = { λ c d el s. s };

    ghost ends = { Prim.search rules };
}

impl ArcPath {
    // The next curve, which ends at the angle `angle1` and at `p3` from the centre.
    fn curve_to(&self, angle1: f64, p3: Vec2) -> PathEl
        ensures { result ≡ curve_from self.now angle1 p3 }
    {
        let center = self.arc.center;
        let out = self.arc.sample(self.angle0 + FRAC_PI_2);
        let back = self.arc.sample(angle1 + FRAC_PI_2);
        PathEl::CurveTo(
            add(center, along(self.p0, out, self.arm_len)),
            add(center, against(p3, back, self.arm_len)),
            add(center, p3),
        )
    }
}

// How many curves an arc is cut into, as a whole `f64`.
fn divide(stretched: f64, sweep_angle: f64) -> f64
    ensures { result ≡ divided stretched sweep_angle }
{
    let n_err = greater(sixth_root(stretched), 3.999_999);
    (n_err * sweep_angle.abs() * (1.0 / (2.0 * PI))).ceil()
}

// The length of the arms of a curve over the angle `angle_step`.
fn arm_length(angle_step: f64, sweep_angle: f64) -> f64
    ensures { result ≡ arm_of angle_step sweep_angle }
{
    (4.0 / 3.0) * tan((0.25 * angle_step).abs()) * sweep_angle.signum()
}

// The point `v` from `p`.
const fn add(p: Point, v: Vec2) -> Point
    ensures { result ≡ placed p v }
{
    Point::new(p.x + v.x, p.y + v.y)
}

// p + v × by, and p − v × by.
const fn along(p: Vec2, v: Vec2, by: f64) -> Vec2
    ensures { result ≡ plus_times p v by }
{
    Vec2::new(p.x + v.x * by, p.y + v.y * by)
}

const fn against(p: Vec2, v: Vec2, by: f64) -> Vec2
    ensures { result ≡ minus_times p v by }
{
    Vec2::new(p.x - v.x * by, p.y - v.y * by)
}

// The point `pt`, rotated about the origin.
fn rotate_pt(pt: Vec2, angle: f64) -> Vec2
    ensures { result ≡ rotated pt angle }
{
    let (s, c) = sin_cos(angle);
    Vec2::new(pt.x * c - pt.y * s, pt.x * s + pt.y * c)
}
