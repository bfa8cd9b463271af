//! A piece on the page: a mark that a move has placed, or a covering of two such.
ghost use Rattle.std.specs.Prelude.{◌≡◌};
ghost use Rattle.plane.specs.Winding.{nonzero};
ghost use Rattle.pieces.specs.Pieces.{wind, placed, covered, single_of, moved_piece};
ghost use Rattle.pieces.specs.Pieces.{wind as piece_wind, box as piece_box, drawn as piece_drawn};
ghost use Rattle.pieces.specs.declared.piece.Piece.TheVariants.{One, Two};
ghost use Rattle.pieces.specs.Lawful.{one_small, two_small, one_same, two_same, one_boxed, two_boxed, one_formed, two_formed};

use super::path::PiecePath;
use layers::covering::Covering;
use layers::fault::MoveFault;
use layers::moves::Move;
use layers::placing::Placing;
use marks::mark::Mark;
use plane::fault::ShapeFault;
use plane::point::Point;
use plane::rect::Rect;
use plane::shape::Shape;

/// A piece on the page.
#[derive(Clone, Copy)]
pub enum Piece {
    /// A mark, placed.
    One(Placing<Mark>),
    /// A covering of two placed marks, itself placed.
    Two(Placing<Covering<Placing<Mark>, Placing<Mark>>>),
}

impl Piece {
    /// `mark`, placed by `place`.
    pub fn new(place: Move, mark: Mark) -> Piece
        ensures { result ≡ placed place.map mark }
    {
        Piece::One(Placing::new(place, mark))
    }

    /// `upper` over `lower`, both as they are placed.
    pub fn cover(upper: Placing<Mark>, lower: Placing<Mark>) -> Piece
        ensures { result ≡ covered upper lower }
    {
        Piece::Two(Placing::new(Move::unmoved(), Covering::new(upper, lower)))
    }

    /// The mark as it is placed, if the piece is a single one.
    pub fn single(&self) -> Option<Placing<Mark>>
        ensures { result ≡ single_of self.now }
    {
        match self {
            Piece::One(mark) => Some(*mark),
            Piece::Two(_) => None,
        }
    }

    /// The piece moved on: `by` follows the move that placed it so far. It refuses 7 OFF PAGE where the product's
    /// offset is not on the page.
    pub fn moved(&self, by: Move) -> Result<Piece, MoveFault>
        ensures { result ≡ moved_piece by.map self.now }
    {
        match self {
            Piece::One(s) => Ok(Piece::One(s.moved(by)?)),
            Piece::Two(s) => Ok(Piece::Two(s.moved(by)?)),
        }
    }

    /// Whether the piece holds `pt`: its winding there is not 0.
    pub fn contains(&self, pt: Point) -> bool
        ensures { result ≡ nonzero (wind self.now pt) }
    {
        self.winding(pt) != 0
    }
}

impl Shape for Piece {
    type Path = PiecePath;

    ghost wind = { piece_wind };

    ghost frame = { piece_box };

    ghost drawn = { piece_drawn };

    ghost small = { elim [ One s ↦ λ p. one_small s p | Two s ↦ λ p. two_small s p ] };

    ghost same = { elim [ One s ↦ λ p q e. one_same s p q e | Two s ↦ λ p q e. two_same s p q e ] };

    ghost boxed = { elim [ One s ↦ λ p f h n. one_boxed s p f h n | Two s ↦ λ p f h n. two_boxed s p f h n ] };

    ghost formed = { elim [ One s ↦ λ t. one_formed s t | Two s ↦ λ t. two_formed s t ] };

    fn winding(&self, pt: Point) -> i32 {
        match self {
            Piece::One(s) => s.winding(pt),
            Piece::Two(s) => s.winding(pt),
        }
    }

    fn bounding_box(&self) -> Rect {
        match self {
            Piece::One(s) => s.bounding_box(),
            Piece::Two(s) => s.bounding_box(),
        }
    }

    fn path_elements(&self, tolerance: f64) -> Result<PiecePath, ShapeFault> {
        match self {
            Piece::One(s) => Ok(PiecePath::One(s.path_elements(tolerance)?)),
            Piece::Two(s) => Ok(PiecePath::Two(s.path_elements(tolerance)?)),
        }
    }
}
