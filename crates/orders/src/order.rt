//! The orders of a page, as they are read.
use layers::fault::MoveFault;
use marks::mark::Mark;
use pieces::piece::Piece;
use plane::point::Point;
use plane::rect::Rect;
use sheets::order::Order;

/// A point that is set, and where it should lie.
#[derive(Clone, Copy)]
pub struct SetPoint {
    /// The point.
    pub at: Point,
    /// Its key: the position of the mark that should be uppermost there, counted from 0 at the lowest, or nothing where
    /// no mark should hold the point.
    pub key: Option<usize>,
}

/// An order to one of the sheets of a page.
#[derive(Clone, Copy)]
pub enum SheetOrder<M> {
    /// A call.
    Call(Order<M>),
    /// To set a point.
    Set(SetPoint),
}

/// A shape to be measured.
#[derive(Clone, Copy)]
pub struct Measured {
    /// The shape.
    pub mark: Mark,
    /// The accuracy of an ellipse's length.
    pub accuracy: f64,
    /// The steps that it may take.
    pub allowance: u32,
}

/// What is asked of a covering.
#[derive(Clone, Copy)]
pub enum Question {
    /// Its winding at a point.
    Winding(Point),
    /// Its box.
    BoundingBox,
    /// Its path at a tolerance.
    Draw(f64),
}

/// A covering, and what is asked of it.
#[derive(Clone, Copy)]
pub struct CoverQuery {
    /// The covering.
    pub piece: Piece,
    /// The question.
    pub question: Question,
}

/// An order of a page.
#[derive(Clone, Copy)]
pub enum PageOrder {
    /// An order to the sheet of marks.
    Marks(SheetOrder<Mark>),
    /// An order to the sheet of frames.
    Frames(SheetOrder<Rect>),
    /// To measure a shape, on no sheet.
    Measure(Measured),
    /// To answer a question about a covering, on no sheet.
    Cover(CoverQuery),
    /// An order whose numbers make no move.
    NoMove(MoveFault),
}

/// The sizes of a page.
#[derive(Clone, Copy, Debug, PartialEq, Eq)]
pub struct Sizes {
    /// How many entries the table of each sheet has.
    pub entries: usize,
    /// How many places the drawing buffer has.
    pub places: usize,
}

impl Sizes {
    /// What a page has where it says nothing else.
    pub const USUAL: Sizes = Sizes {
        entries: 65_536,
        places: 262_144,
    };

    /// What a page can have at most.
    pub const MOST: Sizes = Sizes {
        entries: 131_072,
        places: 1_048_576,
    };
}
