//! What is answered on no sheet: measures, and questions about coverings.
ghost use Rattle.std.specs.Prelude.{◌≡◌, ◌≤◌, length, take, drop};
ghost use Rattle.pieces.specs.Pieces.{wind};
ghost use Rattle.pieces.specs.Traced.{rest};
ghost use Rattle.sheets.specs.Book.{at_page_point};
ghost use Rattle.exam.specs.Replies.{measured as measures_told, cover_reply, cover_buffer};
ghost use Rattle.orders.specs.declared.order.Question.TheVariants.{Draw};

use super::reply::Reply;
use orders::order::{CoverQuery, Measured, Question};
use pieces::path::PiecePath;
use pieces::piece::Piece;
use plane::bezpath::PathEl;
use plane::point::Point;
use plane::shape::Shape;
use sheets::fault::SheetFault;
use sheets::order::Answer;

// A shape's measures, or why it has none.
pub(super) fn measure(measured: Measured) -> Reply
    ensures { result ≡ measures_told measured }
{
    let Measured {
        mark,
        accuracy,
        allowance,
    } = measured;
    mark.measures(accuracy, allowance)
        .map_or_else(Reply::Shape, Reply::Measures)
}

// What a covering answers. Its path is drawn into `buffer`.
pub(super) fn cover(query: CoverQuery, buffer: &mut [PathEl]) -> Reply
    ensures reply { result ≡ cover_reply (length buffer.old) query.piece query.question }
    ensures buffer { buffer.new ≡ cover_buffer buffer.old query.piece query.question }
{
    let CoverQuery { piece, question } = query;
    match question {
        Question::Winding(pt) => Reply::Said(winding_of(piece, pt).map_or_else(
            Answer::Refused,
            Answer::Winding,
        )),
        Question::BoundingBox => Reply::Said(Answer::Box(Some(piece.bounding_box()))),
        Question::Draw(tolerance) => draw(piece, tolerance, buffer),
    }
}

// A covering's winding at a page point.
fn winding_of(piece: Piece, pt: Point) -> Result<i32, SheetFault>
    ensures { result ≡ at_page_point pt (wind piece pt) }
{
    pt.check_page()?;
    Ok(piece.winding(pt))
}

// Draws the path of a covering into `buffer` from the first place on, and counts its elements.
fn draw(piece: Piece, tolerance: f64, buffer: &mut [PathEl]) -> Reply
    ensures reply { result ≡ cover_reply (length buffer.old) piece (Draw tolerance) }
    ensures buffer { buffer.new ≡ cover_buffer buffer.old piece (Draw tolerance) }
{
    match piece.path_elements(tolerance) {
        Ok(path) if path.count() > buffer.len() as u64 => {
            Reply::Said(Answer::Refused(SheetFault::TooSmall))
        }
        Ok(path) => Reply::Said(Answer::Elements(write_path(path, buffer))),
        Err(fault) => Reply::Shape(fault),
    }
}

// Writes a path that fits the buffer, from the first place on, and counts its elements.
fn write_path(path: PiecePath, buffer: &mut [PathEl]) -> usize
    requires { length (rest path) ≤ length buffer.old }
    ensures count { result ≡ length (rest path) }
    ensures front { take result buffer.new ≡ rest path }
    ensures back { drop result buffer.new ≡ drop result buffer.old }
{
    let mut count = 0;
    for el in path {
        buffer[count] = el;
        count += 1;
    }
    count
}
