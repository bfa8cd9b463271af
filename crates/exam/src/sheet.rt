//! An order to one of the sheets of a page.
ghost use Rattle.sheets.specs.Book.{marks};
ghost use Rattle.exam.specs.Pages.{SheetAtEachMoment};

use super::reply::Reply;
use orders::order::SheetOrder;
use plane::bezpath::PathEl;
use plane::shape::Shape;
use sheets::order::Order;
use sheets::sheet::{Entry, Sheet};

// Carries out an order to a sheet, on the table beside it and with `buffer` to draw into. A set point asks which mark is
// uppermost.
pub(super) fn follow<M: Shape>(
    sheet: &mut Sheet,
    table: &mut [Entry<M>],
    buffer: &mut [PathEl],
    order: SheetOrder<M>,
) -> Reply
    ensures history { SheetAtEachMoment (marks M.Shape) sheet.old table.old buffer.old order result sheet.new table.new buffer.new }
{
    match order {
        SheetOrder::Call(call) => Reply::Said(sheet.follow(table, buffer, call)),
        SheetOrder::Set(point) => {
            let top = sheet.follow(table, buffer, Order::Top(point.at));
            Reply::verdict(point.key, sheet.count(table), top)
        }
    }
}
