//! A mark on the page: any one of the shapes.
ghost use Rattle.std.specs.Prelude.{◌≡◌};
ghost use Rattle.std.specs.Iterator.{YieldsFirst, item_count};
ghost use Rattle.std.proofs.Common.{rules};
ghost use Rattle.plane.specs.Winding.{nonzero};
ghost use Rattle.marks.specs.Marks.{wind};
ghost use Rattle.marks.specs.Marks.{wind as mark_wind, box as mark_box, drawn as mark_drawn, rest as path_rest};
ghost use Rattle.marks.specs.Lawful.{mark_small, mark_same, mark_boxed, mark_formed};

use ellipses::ellipse::Ellipse;
use ellipses::path::EllipsePath;
use plane::bezpath::PathEl;
use plane::closed_path::ClosedPath;
use plane::cursor::Cursor;
use plane::fault::ShapeFault;
use plane::point::Point;
use plane::rect::Rect;
use plane::shape::Shape;
use rounded::path::RoundedRectPath;
use rounded::rounded_rect::RoundedRect;
use shapes::circle::{Circle, CirclePath};
use shapes::triangle::Triangle;

/// A mark on the page: any one of the shapes.
#[derive(Clone, Copy, Debug, PartialEq)]
pub enum Mark {
    /// A rectangle, such as a syllable's frame.
    Rect(Rect),
    /// A circle, such as a round notehead.
    Circle(Circle),
    /// A triangle.
    Triangle(Triangle),
    /// A rectangle with rounded corners.
    RoundedRect(RoundedRect),
    /// An ellipse.
    Ellipse(Ellipse),
}

impl Mark {
    /// Whether the mark holds `pt`: its winding there is not 0.
    pub fn contains(&self, pt: Point) -> bool
        ensures { result ≡ nonzero (wind self.now pt) }
    {
        self.winding(pt) != 0
    }
}

/// A cursor on a mark's path.
#[derive(Clone, Copy)]
pub enum MarkPath {
    /// On a rectangle's.
    Rect(ClosedPath<4>),
    /// On a circle's.
    Circle(CirclePath),
    /// On a triangle's.
    Triangle(ClosedPath<3>),
    /// On a rounded rectangle's.
    RoundedRect(RoundedRectPath),
    /// On an ellipse's.
    Ellipse(EllipsePath),
}

impl Iterator for MarkPath {
    type Item = PathEl;

    ghost next_gives = { YieldsFirst path_rest };

    ghost remaining = { item_count path_rest };

    fn next(&mut self) -> Option<PathEl> {
        match self {
            MarkPath::Rect(c) => c.next(),
            MarkPath::Circle(c) => c.next(),
            MarkPath::Triangle(c) => c.next(),
            MarkPath::RoundedRect(c) => c.next(),
            MarkPath::Ellipse(c) => c.next(),
        }
    }
}

impl Cursor for MarkPath {
    ghost rest = { path_rest };

    ghost ready = { λ c. tt };

    ghost steps = { λ c d el s. s };

    ghost ends = { Prim.search rules };
}

impl Shape for Mark {
    type Path = MarkPath;

    ghost wind = { mark_wind };

    ghost frame = { mark_box };

    ghost drawn = { mark_drawn };

    ghost small = { mark_small };

    ghost same = { mark_same };

    ghost boxed = { mark_boxed };

    ghost formed = { mark_formed };

    fn winding(&self, pt: Point) -> i32 {
        match self {
            Mark::Rect(s) => s.winding(pt),
            Mark::Circle(s) => s.winding(pt),
            Mark::Triangle(s) => s.winding(pt),
            Mark::RoundedRect(s) => s.winding(pt),
            Mark::Ellipse(s) => s.winding(pt),
        }
    }

    fn bounding_box(&self) -> Rect {
        match self {
            Mark::Rect(s) => s.bounding_box(),
            Mark::Circle(s) => s.bounding_box(),
            Mark::Triangle(s) => s.bounding_box(),
            Mark::RoundedRect(s) => s.bounding_box(),
            Mark::Ellipse(s) => s.bounding_box(),
        }
    }

    fn path_elements(&self, tolerance: f64) -> Result<MarkPath, ShapeFault> {
        match self {
            Mark::Rect(s) => Ok(MarkPath::Rect(s.path_elements(tolerance)?)),
            Mark::Circle(s) => Ok(MarkPath::Circle(s.path_elements(tolerance)?)),
            Mark::Triangle(s) => Ok(MarkPath::Triangle(s.path_elements(tolerance)?)),
            Mark::RoundedRect(s) => Ok(MarkPath::RoundedRect(s.path_elements(tolerance)?)),
            Mark::Ellipse(s) => Ok(MarkPath::Ellipse(s.path_elements(tolerance)?)),
        }
    }
}
