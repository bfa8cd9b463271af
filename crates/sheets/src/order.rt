//! Orders to a sheet, and its answers.
ghost use Rattle.std.specs.Prelude.{◌≡◌};
ghost use Rattle.sheets.specs.Answers.{elements_of};

use super::fault::SheetFault;
use layers::moves::Move;
use plane::point::Point;
use plane::rect::Rect;

/// A call to a sheet.
#[derive(Clone, Copy)]
pub enum Order<M> {
    /// Put a mark on top, with its first move.
    Put(M, Move),
    /// Move the mark at a position on.
    Shift(usize, Move),
    /// Move all marks on.
    ShiftAll(Move),
    /// Take the mark at a position out.
    Lift(usize),
    /// Ask for the sum of the windings at a point.
    Winding(Point),
    /// Ask for the uppermost mark at a point.
    Top(Point),
    /// Ask for the box of all marks.
    BoundingBox,
    /// Draw all marks with a tolerance.
    Draw(f64),
}

/// What a sheet answers.
#[derive(Clone, Copy)]
pub enum Answer {
    /// The position of a mark that was put or moved.
    Position(usize),
    /// How many marks there are.
    Marks(usize),
    /// The sum of the windings.
    Winding(i32),
    /// The position of the uppermost mark, or nothing.
    Top(Option<usize>),
    /// The box, or nothing.
    Box(Option<Rect>),
    /// How many elements were drawn.
    Elements(usize),
    /// The call was refused, and altered nothing.
    Refused(SheetFault),
}

impl Answer {
    /// How many elements were drawn; any other answer counts none.
    pub fn elements(self) -> usize
        ensures { result ≡ elements_of self }
    {
        match self {
            Answer::Elements(n) => n,
            _ => 0,
        }
    }
}
