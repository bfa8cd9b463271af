//! The questions that a sheet answers.
ghost use Rattle.std.specs.Prelude.{◌≡◌, ◌≤◌, [], map, length};
ghost use Rattle.sheets.specs.Book.{marks, at_page_point, total, highest, union_of};
ghost use Rattle.sheets.specs.Tables.{rows, row_of, AnsweredByBook};
ghost use Rattle.sheets.specs.Runs.{answered, AtEachMoment};
ghost use Rattle.sheets.specs.declared.order.Order.TheVariants.{Winding, Top, BoundingBox};
ghost use Rattle.sheets.specs.declared.order.Answer.TheVariants as said;

use super::fault::SheetFault;
use super::sheet::{Entry, Sheet};
use plane::point::Point;
use plane::rect::Rect;
use plane::shape::Shape;

impl Sheet {
    /// The sum of what the marks give at `pt`: each gives the winding of its shape at `pt` taken back through its
    /// moves, times their signs. It refuses 6 OFF GRID for a coordinate that is no grid number, and then 7 OFF PAGE
    /// for one that is not on the page. Nothing is altered.
    pub fn winding<M: Shape>(&self, table: &[Entry<M>], pt: Point) -> Result<i32, SheetFault>
        ensures answer { result ≡ at_page_point pt (total (marks M.Shape) pt (rows self.now table.now)) }
        ensures book { AnsweredByBook self.now table.now (λ bs. at_page_point pt (total (marks M.Shape) pt bs)) result }
        ensures history { AtEachMoment (marks M.Shape) self.now table.now [] (Winding pt) (answered said.Winding result) self.now table.now [] }
    {
        pt.check_page()?;
        Ok(sum_at(self.used(table), pt))
    }

    /// The position of the highest mark that gives anything but 0 at `pt`, or nothing where none does. It refuses
    /// 6 OFF GRID for a coordinate that is no grid number, and then 7 OFF PAGE for one that is not on the page.
    /// Nothing is altered.
    pub fn top<M: Shape>(&self, table: &[Entry<M>], pt: Point) -> Result<Option<usize>, SheetFault>
        ensures answer { result ≡ at_page_point pt (highest (marks M.Shape) pt (rows self.now table.now)) }
        ensures book { AnsweredByBook self.now table.now (λ bs. at_page_point pt (highest (marks M.Shape) pt bs)) result }
        ensures history { AtEachMoment (marks M.Shape) self.now table.now [] (Top pt) (answered said.Top result) self.now table.now [] }
    {
        pt.check_page()?;
        Ok(top_at(self.used(table), pt))
    }

    /// The union of the boxes of all marks, each moved by the product of the mark's moves, or nothing where there is
    /// no mark. It refuses nothing, and nothing is altered.
    pub fn bounding_box<M: Shape>(&self, table: &[Entry<M>]) -> Option<Rect>
        ensures answer { result ≡ union_of (marks M.Shape) (rows self.now table.now) }
        ensures book { AnsweredByBook self.now table.now (union_of (marks M.Shape)) result }
        ensures history { AtEachMoment (marks M.Shape) self.now table.now [] BoundingBox (said.Box result) self.now table.now [] }
    {
        union_of_boxes(self.used(table))
    }
}

// The sum of what the entries give.
fn sum_at<M: Shape>(entries: &[Entry<M>], pt: Point) -> i32
    requires { length entries.now ≤ 65536 }
    ensures { result ≡ total (marks M.Shape) pt (map row_of entries.now) }
{
    let mut sum = 0;
    for entry in entries {
        sum += entry.gives_at(pt);
    }
    sum
}

// The position of the highest entry that gives anything but 0.
fn top_at<M: Shape>(entries: &[Entry<M>], pt: Point) -> Option<usize>
    ensures { result ≡ highest (marks M.Shape) pt (map row_of entries.now) }
{
    let mut top = None;
    for (position, entry) in entries.iter().enumerate() {
        if entry.holds(pt) {
            top = Some(position);
        }
    }
    top
}

// The union of the boxes of the entries, each moved.
fn union_of_boxes<M: Shape>(entries: &[Entry<M>]) -> Option<Rect>
    ensures { result ≡ union_of (marks M.Shape) (map row_of entries.now) }
{
    let (first, rest) = entries.split_first()?;
    Some(
        rest.iter()
            .fold(first.frame(), |union, entry| union.union(entry.frame())),
    )
}
