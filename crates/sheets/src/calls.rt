//! The calls that alter a sheet.
ghost use Rattle.std.specs.Prelude.{◌≡◌, ◌+◌, ◌-◌, [], map, length};
ghost use Rattle.sheets.specs.Book.{marks, leaving, put_answer, shift_answer, shift_all_answer, lift_answer};
ghost use Rattle.sheets.specs.Tables.{counting, held, used, rows, row_of, where_granted, moved_entry, put_table, alter, shift_all_table, lift_table};
ghost use Rattle.sheets.specs.Tables.{PutByBook, ShiftByBook, ShiftAllByBook, LiftByBook};
ghost use Rattle.sheets.specs.Runs.{answered, AtEachMoment};
ghost use Rattle.sheets.specs.declared.order.Order.TheVariants.{Put, Shift, ShiftAll, Lift};
ghost use Rattle.sheets.specs.declared.order.Answer.TheVariants as said;

use super::fault::SheetFault;
use super::sheet::{Entry, Sheet, usable};
use layers::moves::Move;
use plane::shape::Shape;

impl Sheet {
    /// Puts `mark` on top of the others with `place` as its first move, and answers its position. It refuses 4 FULL
    /// exactly when all usable entries are taken, and then 2 NOT FINITE for a side of the mark's box; a refusal alters
    /// nothing.
    pub fn put<M: Shape>(
        &mut self,
        table: &mut [Entry<M>],
        mark: M,
        place: Move,
    ) -> Result<usize, SheetFault>
        ensures answer { result ≡ put_answer (marks M.Shape) (length table.old) (rows self.old table.old) mark }
        ensures record { self.new ≡ where_granted result (counting (held self.old table.old + 1)) self.old }
        ensures table { table.new ≡ where_granted result (put_table self.old table.old mark place.map) table.old }
        ensures book { PutByBook (marks M.Shape) self.old table.old mark place.map result self.new table.new }
        ensures history { AtEachMoment (marks M.Shape) self.old table.old [] (Put mark place) (answered said.Position result) self.new table.new [] }
    {
        let position = self.count(table);
        if position >= usable(table) {
            return Err(SheetFault::Full);
        }
        if !mark.bounding_box().is_finite() {
            return Err(SheetFault::NotFinite);
        }
        table[position] = Entry {
            mark,
            numbers: place.numbers(),
        };
        self.count = position + 1;
        Ok(position)
    }

    /// Moves the mark at `position` on by `by`, which follows its moves so far, and answers the position. It refuses
    /// 5 NO MARK, and then 7 OFF PAGE for the product's offset; a refusal alters nothing.
    pub fn shift<M: Shape>(
        &self,
        table: &mut [Entry<M>],
        position: usize,
        by: Move,
    ) -> Result<usize, SheetFault>
        ensures answer { result ≡ shift_answer (rows self.now table.old) position position by.map }
        ensures table { table.new ≡ where_granted result (alter position (moved_entry by.map) table.old) table.old }
        ensures book { ShiftByBook self.now table.old position by.map result table.new }
        ensures history { AtEachMoment (marks M.Shape) self.now table.old [] (Shift position by) (answered said.Position result) self.now table.new [] }
    {
        let used = self.used(table);
        let entry = used.get(position).ok_or(SheetFault::NoMark)?.moved(by);
        if !entry.is_on_page() {
            return Err(SheetFault::OffPage { mark: None });
        }
        table[position] = entry;
        Ok(position)
    }

    /// Moves all marks on by `by`, and answers how many there are. It refuses 7 OFF PAGE where a mark would leave the
    /// page, naming the lowest one concerned; then none is moved.
    pub fn shift_all<M: Shape>(&self, table: &mut [Entry<M>], by: Move) -> Result<usize, SheetFault>
        ensures answer { result ≡ shift_all_answer (rows self.now table.old) by.map }
        ensures table { table.new ≡ where_granted result (shift_all_table self.now table.old by.map) table.old }
        ensures book { ShiftAllByBook self.now table.old by.map result table.new }
        ensures history { AtEachMoment (marks M.Shape) self.now table.old [] (ShiftAll by) (answered said.Marks result) self.now table.new [] }
    {
        let count = self.count(table);
        let used = &mut table[..count];
        let mark = first_leaving(used, by);
        if mark.is_some() {
            return Err(SheetFault::OffPage { mark });
        }
        carry_all(used, by);
        Ok(count)
    }

    /// Takes the mark at `position` out; the marks above come one down, and the last entry keeps its old content. It
    /// answers how many marks are left, and refuses 5 NO MARK.
    pub fn lift<M: Shape>(
        &mut self,
        table: &mut [Entry<M>],
        position: usize,
    ) -> Result<usize, SheetFault>
        ensures answer { result ≡ lift_answer (rows self.old table.old) position }
        ensures record { self.new ≡ where_granted result (counting (held self.old table.old - 1)) self.old }
        ensures table { table.new ≡ where_granted result (lift_table self.old table.old position) table.old }
        ensures book { LiftByBook self.old table.old position result self.new table.new }
        ensures history { AtEachMoment (marks M.Shape) self.old table.old [] (Lift position) (answered said.Marks result) self.new table.new [] }
    {
        let count = self.count(table);
        if position >= count {
            return Err(SheetFault::NoMark);
        }
        table.copy_within(position + 1..count, position);
        self.count = count - 1;
        Ok(count - 1)
    }
}

// The lowest of the entries that would leave the page.
fn first_leaving<M: Shape>(entries: &[Entry<M>], by: Move) -> Option<usize>
    ensures { result ≡ leaving 0 (map row_of entries.now) by.map }
{
    for (position, entry) in entries.iter().enumerate() {
        if !entry.moved(by).is_on_page() {
            return Some(position);
        }
    }
    None
}

// Moves the entries on.
fn carry_all<M: Shape>(entries: &mut [Entry<M>], by: Move)
    ensures { entries.new ≡ map (moved_entry by.map) entries.old }
{
    for entry in entries.iter_mut() {
        *entry = entry.moved(by);
    }
}
