//! Lists of orders, carried out on a sheet.
ghost use Rattle.std.specs.Prelude.{◌≡◌, min, length, take, drop};
ghost use Rattle.sheets.specs.Book.{marks};
ghost use Rattle.sheets.specs.Tables.{counting};
ghost use Rattle.sheets.specs.Runs.{sheet_after, table_after, left, FollowedByBook, RunByBook, BookOf, AtEachMoment};

use super::order::{Answer, Order};
use super::sheet::{Entry, Sheet};
use plane::bezpath::PathEl;
use plane::shape::Shape;

impl Sheet {
    /// Carries out one order, on the table beside the sheet and with `buffer` to draw into, and gives the answer of the
    /// call. Whatever calls came since the sheet was opened, the answer and the buffer are the book's over the rows
    /// that those calls left, and those rows are sound.
    #[tactic(auto, using(crate::proofs::Moments::moment, crate::proofs::Sounds::laws))]
    pub fn follow<M: Shape>(
        &mut self,
        table: &mut [Entry<M>],
        buffer: &mut [PathEl],
        order: Order<M>,
    ) -> Answer
        ensures record { self.new ≡ sheet_after (marks M.Shape) self.old table.old order }
        ensures table { table.new ≡ table_after (marks M.Shape) self.old table.old order }
        ensures book { FollowedByBook (marks M.Shape) self.old table.old buffer.old order result self.new table.new buffer.new }
        ensures history { AtEachMoment (marks M.Shape) self.old table.old buffer.old order result self.new table.new buffer.new }
    {
        match order {
            Order::Put(mark, place) => self
                .put(table, mark, place)
                .map_or_else(Answer::Refused, Answer::Position),
            Order::Shift(at, by) => self
                .shift(table, at, by)
                .map_or_else(Answer::Refused, Answer::Position),
            Order::ShiftAll(by) => self
                .shift_all(table, by)
                .map_or_else(Answer::Refused, Answer::Marks),
            Order::Lift(at) => self
                .lift(table, at)
                .map_or_else(Answer::Refused, Answer::Marks),
            Order::Winding(pt) => self
                .winding(table, pt)
                .map_or_else(Answer::Refused, Answer::Winding),
            Order::Top(pt) => self
                .top(table, pt)
                .map_or_else(Answer::Refused, Answer::Top),
            Order::BoundingBox => Answer::Box(self.bounding_box(table)),
            Order::Draw(tolerance) => self
                .draw(table, tolerance, buffer)
                .map_or_else(Answer::Refused, Answer::Elements),
        }
    }

    /// Carries out the orders one after the other, as many as there are places for answers, writes each answer to its
    /// place and says how many there are; places beyond keep their content. Each draw is lent the same buffer.
    pub fn run<M: Shape>(
        &mut self,
        table: &mut [Entry<M>],
        buffer: &mut [PathEl],
        orders: &[Order<M>],
        answers: &mut [Answer],
    ) -> usize
        ensures count { result ≡ min (length orders.now) (length answers.old) }
        ensures rest { drop result answers.new ≡ drop result answers.old }
        ensures left { (self.new, table.new) ≡ left (marks M.Shape) (self.old, table.old) (take result orders.now) }
        ensures book { RunByBook (marks M.Shape) self.old table.old buffer.old (take result orders.now) (take result answers.new) self.new table.new buffer.new }
    {
        let n = orders.len().min(answers.len());
        // By index: of a zip over `iter_mut` no more is known than the length.
        for (i, order) in orders[..n].iter().enumerate() {
            answers[i] = self.follow(table, buffer, *order);
        }
        n
    }
}

/// Opens a sheet over `table`, whatever the table holds, and carries out the orders one after the other, as many as
/// there are places for answers. It gives the sheet and how many orders those are. Every answer and the buffer are
/// what the book answers and draws, and the sheet and the table stand for the book's rows afterwards, so that the next
/// call is answered by the book too. After each of the orders the rows are sound: where a mark gives anything but 0,
/// the page point lies in the sheet's box, `top` names the uppermost such mark, and a drawing is made of the marks'
/// own paths, moved, and well formed.
pub fn carry_out<M: Shape>(
    table: &mut [Entry<M>],
    buffer: &mut [PathEl],
    orders: &[Order<M>],
    answers: &mut [Answer],
) -> (Sheet, usize)
    ensures count { result.1 ≡ min (length orders.now) (length answers.old) }
    ensures rest { drop result.1 answers.new ≡ drop result.1 answers.old }
    ensures left { (result.0, table.new) ≡ left (marks M.Shape) (counting 0, table.old) (take result.1 orders.now) }
    ensures book { BookOf (marks M.Shape) table.old buffer.old (take result.1 orders.now) (take result.1 answers.new) result.0 table.new buffer.new }
{
    let mut sheet = Sheet::open();
    let n = sheet.run(table, buffer, orders, answers);
    (sheet, n)
}
