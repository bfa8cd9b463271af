//! A sheet's record and the entries of its table.
ghost use Rattle.std.specs.Prelude.{◌≡◌, ◌≤◌, length};
ghost use Rattle.plane.specs.Winding.{nonzero};
ghost use Rattle.layers.specs.Moves.{page_offset, read_as};
ghost use Rattle.sheets.specs.Book.{marks, usable, gives, moved_box};
ghost use Rattle.sheets.specs.Tables.{StandsFor, counting, held, used, rows, row_of, moved_entry};
ghost use Rattle.sheets.specs.Draws.{DrawsAt};

use super::fault::MarkFault;
use layers::moves::{Move, has_page_offset};
use plane::affine::Affine;
use plane::point::Point;
use plane::rect::Rect;
use plane::shape::Shape;

/// An entry of a table: a mark, and a move as plain numbers. Numbers that make no move are read as (1,0,0,1) without
/// offset.
#[derive(Clone, Copy)]
pub struct Entry<M> {
    /// The mark.
    pub mark: M,
    /// The numbers of its move.
    pub numbers: Affine,
}

impl<M: Shape> Entry<M> {
    // The move, as its numbers are read.
    pub(crate) fn place(&self) -> Move
        ensures { result.map ≡ read_as self.now.numbers }
    {
        Move::read(self.numbers)
    }

    // The entry moved on by `by`, whether or not it stays on the page.
    pub(crate) fn moved(&self, by: Move) -> Entry<M>
        ensures { result ≡ moved_entry by.map self.now }
    {
        Entry {
            mark: self.mark,
            numbers: by.numbers().mul(self.place().numbers()),
        }
    }

    // Whether the offset of the entry's numbers is on the page.
    pub(crate) fn is_on_page(&self) -> bool
        ensures { result ≡ page_offset self.now.numbers }
    {
        has_page_offset(self.numbers)
    }

    // What the entry gives at `pt`.
    pub(crate) fn gives_at(&self, pt: Point) -> i32
        ensures { result ≡ gives (marks M.Shape) pt (row_of self.now) }
    {
        let place = self.place();
        place.sign() * self.mark.winding(place.back(pt))
    }

    // Whether the entry gives anything but 0 at `pt`.
    pub(crate) fn holds(&self, pt: Point) -> bool
        ensures { result ≡ nonzero (gives (marks M.Shape) pt (row_of self.now)) }
    {
        self.gives_at(pt) != 0
    }

    // The box of the entry's mark, moved.
    pub(crate) fn frame(&self) -> Rect
        ensures { result ≡ moved_box (marks M.Shape) (row_of self.now) }
    {
        self.place()
            .numbers()
            .transform_rect_bbox(self.mark.bounding_box())
    }

    // The path of the entry's mark, not moved; or its fault, with the entry's position.
    pub(crate) fn path(&self, position: usize, tolerance: f64) -> Result<M::Path, MarkFault>
        ensures { DrawsAt M.Path.Cursor.rest (M.Shape.drawn self.now.mark tolerance) position result }
    {
        self.mark
            .path_elements(tolerance)
            .map_err(|fault| MarkFault { position, fault })
    }
}

/// A sheet: how many entries of the table beside it are in use. The table is the caller's, lent with each call, since the
/// library asks for no memory.
#[derive(Clone, Copy)]
pub struct Sheet {
    pub(crate) count: usize,
}

impl Sheet {
    /// A sheet with no marks. It stands over any table that it is lent later.
    pub fn open() -> Sheet
        ensures { result ≡ counting 0 }
    {
        Sheet { count: 0 }
    }

    /// How many marks there are. A count above the usable entries of the table, which are its first 65,536, is read as
    /// those entries. Whatever the count is and the table holds, they stand for rows, with one move each.
    pub fn count<M>(&self, table: &[Entry<M>]) -> usize
        ensures value { result ≡ held self.now table.now }
        ensures within { result ≤ length table.now }
        ensures few { result ≤ 65536 }
        ensures stands { StandsFor self.now table.now (rows self.now table.now) }
    {
        self.count.min(usable(table))
    }

    // The entries in use.
    pub(crate) fn used<'a, M>(&self, table: &'a [Entry<M>]) -> &'a [Entry<M>]
        ensures value { result.now ≡ used self.now table.now }
        ensures few { length result.now ≤ 65536 }
    {
        &table[..self.count(table)]
    }
}

// A sheet uses at most so many entries of its table.
const MOST: usize = 65536;

// How many entries of the table are usable.
pub(crate) fn usable<M>(table: &[Entry<M>]) -> usize
    ensures value { result ≡ usable (length table.now) }
    ensures within { result ≤ length table.now }
    ensures few { result ≤ 65536 }
{
    table.len().min(MOST)
}
