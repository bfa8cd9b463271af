//! Drawing a sheet into a buffer.
ghost use Rattle.std.specs.Prelude.{◌≡◌, ◌+◌, ◌≤◌, ◌++◌, map, length, take, drop};
ghost use Rattle.plane.specs.Affines.{image_el};
ghost use Rattle.sheets.specs.Book.{marks, all_drawn, draw_answer, draw_buffer};
ghost use Rattle.sheets.specs.Tables.{rows, DrawnByBook};
ghost use Rattle.sheets.specs.Runs.{answered, AtEachMoment};
ghost use Rattle.sheets.specs.declared.order.Order.TheVariants.{Draw};
ghost use Rattle.sheets.specs.declared.order.Answer.TheVariants as said;
ghost use Rattle.sheets.specs.Draws.{entries_drawn, left_of, measured, Fitting};

use super::fault::SheetFault;
use super::sheet::{Entry, Sheet};
use plane::affine::Affine;
use plane::bezpath::PathEl;
use plane::cursor::Cursor;
use plane::shape::{Shape, is_tolerance};

impl Sheet {
    /// Draws all marks into `buffer` from the first place on, lowest mark first, each mark's path with its points moved
    /// by the mark's move, and answers how many elements there are; places beyond keep their content. It refuses
    /// 1 TOLERANCE; then the path of the lowest mark that refuses one, with the shape's fault beside the mark's
    /// position; then 8 TOO SMALL, exactly when there are more elements than places. A refusal alters nothing.
    pub fn draw<M: Shape>(
        &self,
        table: &[Entry<M>],
        tolerance: f64,
        buffer: &mut [PathEl],
    ) -> Result<usize, SheetFault>
        ensures answer { result ≡ draw_answer (length buffer.old) (all_drawn (marks M.Shape) tolerance (rows self.now table.now)) }
        ensures written { buffer.new ≡ draw_buffer buffer.old (all_drawn (marks M.Shape) tolerance (rows self.now table.now)) }
        ensures book { DrawnByBook (marks M.Shape) self.now table.now tolerance buffer.old result buffer.new }
        ensures history { AtEachMoment (marks M.Shape) self.now table.now buffer.old (Draw tolerance) (answered said.Elements result) self.now table.now buffer.new }
    {
        if !is_tolerance(tolerance) {
            return Err(SheetFault::Tolerance);
        }
        let entries = self.used(table);
        measure(entries, tolerance, buffer.len())?.ok_or(SheetFault::TooSmall)?;
        pour_all(entries, tolerance, buffer)
    }
}

// What the paths of the entries leave of so many places, or the lowest refusal.
fn measure<M: Shape>(
    entries: &[Entry<M>],
    tolerance: f64,
    places: usize,
) -> Result<Option<usize>, SheetFault>
    ensures { result ≡ measured places (entries_drawn (marks M.Shape) tolerance entries.now) }
{
    let mut left = Some(places);
    for (position, entry) in entries.iter().enumerate() {
        let path = entry.path(position, tolerance)?;
        left = left.and_then(|places| room_left(path, places));
    }
    Ok(left)
}

// What a path leaves of so many places, if it fits.
fn room_left<C: Cursor>(path: C, places: usize) -> Option<usize>
    ensures { result ≡ left_of places (length (C.Cursor.rest path)) }
{
    let mut left = places;
    for _ in path {
        left = left.checked_sub(1)?;
    }
    Some(left)
}

// Writes the paths of the entries, which fit the buffer, one after the other.
fn pour_all<M: Shape>(
    entries: &[Entry<M>],
    tolerance: f64,
    buffer: &mut [PathEl],
) -> Result<usize, SheetFault>
    requires { Fitting (length buffer.old) (entries_drawn (marks M.Shape) tolerance entries.now) }
    ensures answer { result ≡ draw_answer (length buffer.old) (entries_drawn (marks M.Shape) tolerance entries.now) }
    ensures written { buffer.new ≡ draw_buffer buffer.old (entries_drawn (marks M.Shape) tolerance entries.now) }
{
    let mut at = 0;
    for (position, entry) in entries.iter().enumerate() {
        let path = entry.path(position, tolerance)?;
        at = pour(path, entry.place().numbers(), buffer, at);
    }
    Ok(at)
}

// Writes a path, moved, from the place `at` on, and answers where it ends: the index is the answer too, since the next
// path begins there.
fn pour<C: Cursor>(path: C, place: Affine, buffer: &mut [PathEl], at: usize) -> usize
    requires { at + length (C.Cursor.rest path) ≤ length buffer.old }
    ensures end { result ≡ at + length (C.Cursor.rest path) }
    ensures within { result ≤ length buffer.new }
    ensures front { take result buffer.new ≡ take at buffer.old ++ map (image_el place) (C.Cursor.rest path) }
    ensures back { drop result buffer.new ≡ drop result buffer.old }
{
    let mut k = at;
    for el in path {
        buffer[k] = place.map_el(el);
        k += 1;
    }
    k
}
