//! The elements of a path.
use super::point::Point;

/// An element of a path.
#[derive(Clone, Copy, Debug, PartialEq)]
pub enum PathEl {
    /// Begin a part at this point.
    MoveTo(Point),
    /// A straight line to this point.
    LineTo(Point),
    /// A quadratic curve by its control point and its end.
    QuadTo(Point, Point),
    /// A cubic curve by its two control points and its end.
    CurveTo(Point, Point, Point),
    /// Close the part.
    ClosePath,
}
