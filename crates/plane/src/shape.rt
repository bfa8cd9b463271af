//! What every shape answers.
ghost use Rattle.std.specs.Prelude.{◌≡◌, ℤ, pos, ◌≢◌, Ok, Float};
ghost use Rattle.plane.specs.declared.point.Point.{Point};
ghost use Rattle.plane.specs.declared.rect.Rect.{Rect};
ghost use Rattle.plane.specs.Points.{FieldPoint, Same, FiniteBox, InBox};
ghost use Rattle.plane.specs.Winding.{IsWinding};
ghost use Rattle.plane.specs.Paths.{Drawn, WellDrawn, Answers, tolerable, checked, stretched_or_too_fine};

use super::cursor::Cursor;
use super::fault::{ArcFault, ShapeFault};
use super::point::Point;
use super::rect::Rect;

// 2³⁶, above which a tolerance is too fine.
const MOST_STRETCHED: f64 = 68719476736.0;

/// A shape, by its winding at each point, its box, and for each tolerance its path or a refusal.
/// Asking a shape changes nothing.
pub trait Shape: Copy {
    /// What walks along the shape's path.
    type Path: Cursor;

    /// The winding at each point.
    ghost wind: { Self → Point → ℤ };

    /// The box.
    ghost frame: { Self → Rect };

    /// For each tolerance the path, or the refusal.
    ghost drawn: { Self → Float → Drawn };

    /// The winding at `pt`: -1, 0 or 1.
    fn winding(&self, pt: Point) -> i32
        ensures { result ≡ wind self.now pt };

    /// The box.
    fn bounding_box(&self) -> Rect
        ensures { result ≡ frame self.now };

    /// A cursor on the path at this tolerance. It refuses 1 TOLERANCE, 2 NOT FINITE and 3 TOO FINE.
    fn path_elements(&self, tolerance: f64) -> Result<Self::Path, ShapeFault>
        ensures { Answers Self.Path.Cursor.rest (drawn self.now tolerance) result };

    /// A winding is -1, 0 or 1.
    ghost small: { (s : Self) (p : Point) → IsWinding (wind s p) };

    /// It is the same at equal points.
    ghost same: { (s : Self) (p q : Point) → Same p q → wind s q ≡ wind s p };

    /// If the box is finite, each grid point of the field with a winding other than 0 lies in it.
    ghost boxed: { (s : Self) (p : Point) → FiniteBox (frame s) → FieldPoint p → (wind s p ≢ pos 0) → InBox (frame s) p };

    /// Each path is well formed.
    ghost formed: { (s : Self) (t : Float) → WellDrawn (drawn s t) };
}

/// Whether `t` is a tolerance: finite and above 0.
pub fn is_tolerance(t: f64) -> bool
    ensures { result ≡ tolerable t }
{
    t.is_finite() && 0.0 < t
}

/// What comes before any path: refuses 1 TOLERANCE for what is no tolerance, and then 2 NOT FINITE unless the shape's
/// parameters are `finite`.
pub fn check_drawable(tolerance: f64, finite: bool) -> Result<(), ShapeFault>
    ensures { result ≡ checked tolerance finite (Ok tt) }
{
    if !is_tolerance(tolerance) {
        return Err(ShapeFault::Tolerance);
    }
    if !finite {
        return Err(ShapeFault::NotFinite);
    }
    Ok(())
}

/// The error of a radius over a tolerance, stretched: 1.1163 times `scaled_err`, whose sixth root is how many curves a
/// circle needs. It refuses as too fine what is then above 2³⁶, or not-a-number.
pub fn stretched(scaled_err: f64) -> Result<f64, ArcFault>
    ensures { result ≡ stretched_or_too_fine scaled_err }
{
    let error = 1.1163 * scaled_err;
    if error <= MOST_STRETCHED {
        Ok(error)
    } else {
        Err(ArcFault::TooFine)
    }
}
