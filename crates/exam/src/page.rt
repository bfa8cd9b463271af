//! A page of a sitting: its two sheets with their tables, and its drawing buffer.
ghost use Rattle.std.specs.Prelude.{◌≡◌, [], OnOk, vec_items, take};
ghost use Rattle.sheets.specs.Tables.{counting};
ghost use Rattle.exam.specs.Moments.{PageAfter, AtEachMoment, no_sizes};

use super::ask::{cover, measure};
use super::reply::Reply;
use super::sheet::follow;
use layers::moves::Move;
use marks::mark::Mark;
use orders::order::{PageOrder, Sizes};
use plane::bezpath::PathEl;
use plane::rect::Rect;
use plane::shape::Shape;
use sheets::sheet::{Entry, Sheet};
use std::alloc::{AllocError, Global};

/// A page: a sheet of marks and a sheet of frames, each over a table of its own, and one buffer to draw into. Its memory is
/// these three lists, however many orders it is given.
#[derive(Drop)]
pub struct Page {
    marks: Sheet,
    frames: Sheet,
    marks_table: Vec<Entry<Mark>>,
    frames_table: Vec<Entry<Rect>>,
    buffer: Vec<PathEl>,
}

impl Page {
    /// A page of no entries and no places. What it needs once it is opened will lie on `heap`.
    pub fn new(heap: Global) -> Page
        ensures { PageAfter no_sizes [] result }
    {
        Page {
            marks: Sheet::open(),
            frames: Sheet::open(),
            marks_table: Vec::new(heap),
            frames_table: Vec::new(heap),
            buffer: Vec::new(heap),
        }
    }

    /// Opens the page anew: both sheets are empty, over tables and with a buffer of these sizes. What the tables hold is of
    /// no account. It fails only where there is no memory for them; the sheets are empty then too.
    pub fn open(&mut self, sizes: Sizes) -> Result<(), AllocError>
        ensures opened { OnOk result (PageAfter sizes [] self.new) }
        ensures marks { self.new.marks ≡ counting 0 }
        ensures frames { self.new.frames ≡ counting 0 }
    {
        self.marks = Sheet::open();
        self.frames = Sheet::open();
        let Sizes { entries, places } = sizes;
        self.marks_table
            .resize(entries, blank(Mark::Rect(NOWHERE)))?;
        self.frames_table.resize(entries, blank(NOWHERE))?;
        self.buffer.resize(places, PathEl::ClosePath)
    }

    /// Carries out an order and answers it. What it draws stands in the buffer from the first place on, so many elements as
    /// the answer counts.
    pub fn follow(&mut self, order: PageOrder) -> Reply
        // For every list of orders after which the page can stand.
        ensures history { AtEachMoment self.old order result self.new }
    {
        let buffer = self.buffer.as_mut_slice();
        match order {
            PageOrder::Marks(order) => follow(
                &mut self.marks,
                self.marks_table.as_mut_slice(),
                buffer,
                order,
            ),
            PageOrder::Frames(order) => follow(
                &mut self.frames,
                self.frames_table.as_mut_slice(),
                buffer,
                order,
            ),
            PageOrder::Measure(measured) => measure(measured),
            PageOrder::Cover(query) => cover(query, buffer),
            PageOrder::NoMove(fault) => Reply::Move(fault),
        }
    }

    /// The first `count` elements of the drawing buffer, or all where it has fewer places.
    pub fn drawn(&self, count: usize) -> &[PathEl]
        ensures { result.now ≡ take count (vec_items self.now.buffer) }
    {
        let buffer = self.buffer.as_slice();
        &buffer[..count.min(buffer.len())]
    }
}

const NOWHERE: Rect = Rect {
    x0: 0.0,
    y0: 0.0,
    x1: 0.0,
    y1: 0.0,
};

// An entry with a mark that is not moved.
fn blank<M: Shape>(mark: M) -> Entry<M> {
    Entry {
        mark,
        numbers: Move::unmoved().numbers(),
    }
}
