//! Shapes that cover one another.
ghost use Rattle.std.specs.Prelude.{◌≡◌};
ghost use Rattle.std.specs.Iterator.{YieldsFirst, item_count};
ghost use Rattle.layers.specs.Coverings.{covered_wind, covered_box, covered_drawn, rest_of};
ghost use Rattle.layers.specs.Covered.{covered_small, covered_boxed};
ghost use Rattle.layers.specs.Formed.{covered_formed};
ghost use Rattle.std.proofs.Common.{rules};

use super::placing::unknown_box;
use plane::bezpath::PathEl;
use plane::cursor::Cursor;
use plane::fault::ShapeFault;
use plane::point::Point;
use plane::rect::Rect;
use plane::shape::Shape;
use std::marker::PhantomData;

/// An upper shape over a lower one, of any kinds.
#[derive(Clone, Copy)]
pub struct Covering<U, L> {
    upper: U,
    lower: L,
}

impl<U: Shape, L: Shape> Covering<U, L> {
    /// `upper` over `lower`.
    pub fn new(upper: U, lower: L) -> Covering<U, L>
        ensures { (result.upper ≡ upper) × (result.lower ≡ lower) }
    {
        Covering { upper, lower }
    }

    /// The upper shape.
    pub fn upper(&self) -> U
        ensures { result ≡ self.now.upper }
    {
        self.upper
    }

    /// The lower shape.
    pub fn lower(&self) -> L
        ensures { result ≡ self.now.lower }
    {
        self.lower
    }
}

/// Which of two paths a cursor is on: a stage of its own, as every cursor here has.
#[derive(Clone, Copy)]
pub enum Stage {
    /// The upper shape's, with the lower's to follow.
    Upper,
    /// The lower shape's.
    Lower,
}

/// A cursor on the path of a covering: the upper's path, and then the lower's.
#[derive(Clone, Copy, Drop)]
pub struct CoveringPath<A, B> {
    stage: Stage,
    upper: A,
    lower: B,
    // As in the cursor of a placing.
    gives: PhantomData<PathEl>,
}

impl<A: Cursor, B: Cursor> Iterator for CoveringPath<A, B> {
    type Item = PathEl;

    ghost next_gives = { YieldsFirst (λ c. rest_of c.stage (A.Cursor.rest c.upper) (B.Cursor.rest c.lower)) };

    ghost remaining = { item_count (λ c. rest_of c.stage (A.Cursor.rest c.upper) (B.Cursor.rest c.lower)) };

    fn next(&mut self) -> Option<PathEl> {
        if let Stage::Upper = self.stage {
            if let Some(el) = self.upper.next() {
                return Some(el);
            }
            self.stage = Stage::Lower;
        }
        self.lower.next()
    }
}

impl<A: Cursor, B: Cursor> Cursor for CoveringPath<A, B> {
    ghost rest = { λ c. rest_of c.stage (A.Cursor.rest c.upper) (B.Cursor.rest c.lower) };

    ghost ready = { λ c. tt };

    ghost steps = { λ c d el s. s };

    ghost ends = { Prim.search rules };
}

impl<U: Shape, L: Shape> Shape for Covering<U, L> {
    type Path = CoveringPath<U::Path, L::Path>;

    ghost wind = { λ s p. covered_wind (U.Shape.wind s.upper p) (L.Shape.wind s.lower p) };

    ghost frame = { λ s. covered_box (U.Shape.frame s.upper) (L.Shape.frame s.lower) };

    ghost drawn = { λ s t. covered_drawn (U.Shape.drawn s.upper t) (L.Shape.drawn s.lower t) };

    ghost small = { λ s p. covered_small (U.Shape.wind s.upper p) (L.Shape.wind s.lower p) (U.Shape.small s.upper p) (L.Shape.small s.lower p) };

    ghost same = { Prim.search rules };

    ghost boxed = { λ s p f h n.
        covered_boxed (U.Shape.frame s.upper) (L.Shape.frame s.lower) p (U.Shape.wind s.upper p) (L.Shape.wind s.lower p)
        (λ b k. U.Shape.boxed s.upper p b h k) (λ b k. L.Shape.boxed s.lower p b h k) f n };

    ghost formed = { λ s t. covered_formed (U.Shape.drawn s.upper t) (L.Shape.drawn s.lower t) (U.Shape.formed s.upper t) (L.Shape.formed s.lower t) };

    fn winding(&self, pt: Point) -> i32 {
        let w = self.upper.winding(pt);
        if w != 0 { w } else { self.lower.winding(pt) }
    }

    fn bounding_box(&self) -> Rect {
        let upper = self.upper.bounding_box();
        let lower = self.lower.bounding_box();
        if upper.is_finite() && lower.is_finite() {
            upper.union(lower)
        } else {
            unknown_box()
        }
    }

    fn path_elements(&self, tolerance: f64) -> Result<CoveringPath<U::Path, L::Path>, ShapeFault> {
        let upper = self.upper.path_elements(tolerance)?;
        let lower = self.lower.path_elements(tolerance)?;
        Ok(CoveringPath {
            stage: Stage::Upper,
            upper,
            lower,
            gives: PhantomData,
        })
    }
}
