//! Shapes that a move has placed.
ghost use Rattle.std.specs.Prelude.{◌≡◌, map};
ghost use Rattle.std.specs.Iterator.{YieldsFirst, item_count};
ghost use Rattle.std.proofs.Common.{rules};
ghost use Rattle.plane.specs.Affines.{image_el};
ghost use Rattle.layers.specs.Moves.{read_as};
ghost use Rattle.layers.specs.Placings.{no_box, placed_wind, placed_box, placed_drawn};
ghost use Rattle.layers.specs.Onward.{moved_on};
ghost use Rattle.layers.specs.Placed.{placed_small, placed_same, read_move, placed_boxed};
ghost use Rattle.layers.specs.Formed.{placed_formed};

use super::fault::MoveFault;
use super::moves::Move;
use floats::page::in_field;
use plane::affine::Affine;
use plane::bezpath::PathEl;
use plane::cursor::Cursor;
use plane::fault::ShapeFault;
use plane::point::Point;
use plane::rect::Rect;
use plane::shape::Shape;
use std::marker::PhantomData;

/// A shape of any kind, placed by a move. The move lies here as plain numbers, so that placings may lie in tables.
#[derive(Clone, Copy)]
pub struct Placing<S> {
    numbers: Affine,
    below: S,
}

impl<S: Shape> Placing<S> {
    /// `below`, placed by `place`.
    pub fn new(place: Move, below: S) -> Placing<S>
        ensures { (result.numbers ≡ place.map) × (result.below ≡ below) }
    {
        Placing {
            numbers: place.numbers(),
            below,
        }
    }

    /// The move that places the shape.
    pub fn place(&self) -> Move
        ensures { result.map ≡ read_as self.now.numbers }
    {
        Move::read(self.numbers)
    }

    /// The shape below.
    pub fn below(&self) -> S
        ensures { result ≡ self.now.below }
    {
        self.below
    }

    /// The shape moved on: `by` follows the move that placed it so far. It refuses 7 OFF PAGE where the product's
    /// offset is not on the page.
    pub fn moved(&self, by: Move) -> Result<Placing<S>, MoveFault>
        ensures { result ≡ moved_on by.map self.now }
    {
        Ok(Placing::new(by.mul(self.place())?, self.below))
    }
}

/// A cursor on the path of a placing: the path below, each point moved.
#[derive(Clone, Copy, Drop)]
pub struct PlacingPath<C> {
    map: Affine,
    below: C,
    // The check of a function over nested layers knows the types in their fields alone, and needs what the cursor gives.
    gives: PhantomData<PathEl>,
}

impl<C: Cursor> Iterator for PlacingPath<C> {
    type Item = PathEl;

    ghost next_gives = { YieldsFirst (λ c. map (image_el c.map) (C.Cursor.rest c.below)) };

    ghost remaining = { item_count (λ c. map (image_el c.map) (C.Cursor.rest c.below)) };

    fn next(&mut self) -> Option<PathEl> {
        self.below.next().map(|el| self.map.map_el(el))
    }
}

impl<C: Cursor> Cursor for PlacingPath<C> {
    ghost rest = { λ c. map (image_el c.map) (C.Cursor.rest c.below) };

    ghost ready = { λ c. tt };

    ghost steps = { λ c d el s. s };

    ghost ends = { Prim.search rules };
}

impl<S: Shape> Shape for Placing<S> {
    type Path = PlacingPath<S::Path>;

    ghost wind = { λ s p. placed_wind (read_as s.numbers) (S.Shape.wind s.below) p };

    ghost frame = { λ s. placed_box (read_as s.numbers) (S.Shape.frame s.below) };

    ghost drawn = { λ s t. placed_drawn (read_as s.numbers) (S.Shape.drawn s.below t) };

    ghost small = { λ s p. placed_small (read_as s.numbers) (S.Shape.wind s.below) p (S.Shape.small s.below) };

    ghost same = { λ s p q e. placed_same (read_as s.numbers) (S.Shape.wind s.below) p q (S.Shape.same s.below) e };

    ghost boxed = { λ s p f h n. placed_boxed (read_as s.numbers) (S.Shape.wind s.below) (S.Shape.frame s.below) p (read_move s.numbers) (S.Shape.boxed s.below) f h n };

    ghost formed = { λ s t. placed_formed (read_as s.numbers) (S.Shape.drawn s.below t) (S.Shape.formed s.below t) };

    fn winding(&self, pt: Point) -> i32 {
        let place = self.place();
        let q = place.back(pt);
        if in_field(q.x) && in_field(q.y) {
            place.sign() * self.below.winding(q)
        } else {
            0
        }
    }

    fn bounding_box(&self) -> Rect {
        let b = self.below.bounding_box();
        if b.is_finite() {
            self.place().numbers().transform_rect_bbox(b)
        } else {
            unknown_box()
        }
    }

    fn path_elements(&self, tolerance: f64) -> Result<PlacingPath<S::Path>, ShapeFault> {
        let below = self.below.path_elements(tolerance)?;
        Ok(PlacingPath {
            map: self.place().numbers(),
            below,
            gives: PhantomData,
        })
    }
}

// The box of a layer over a box that is not finite: four not-a-numbers.
pub(crate) fn unknown_box() -> Rect
    ensures { result ≡ no_box }
{
    Rect::new(f64::NAN, f64::NAN, f64::NAN, f64::NAN)
}
