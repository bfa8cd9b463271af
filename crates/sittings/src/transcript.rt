//! What is written of an order: its line, its answer and the elements that it draws.
ghost use Rattle.std.specs.Prelude.{List, ◌++◌, OnOk};
ghost use Rattle.std.specs.Io.KnownBytes.{Appends};
ghost use Rattle.orders.specs.Words.{Text};
ghost use Rattle.sittings.specs.Transcripts.{ElementsSay, AnswerSays};

use exam::reply::Reply;
use exam::text::{write_element, write_reply};
use orders::escaped::Escaped;
use plane::bezpath::PathEl;
use std::io;
use std::io::Write;

// Writes the order of the line `number` with its answer, and then the elements that it draws, one a line.
pub(super) fn write_answer<W: Write>(
    number: u64,
    order: &str,
    reply: &Reply,
    drawn: &[PathEl],
    out: &mut W,
) -> io::Result<()>
    ensures { OnOk result ((text : Text)
        × AnswerSays number order.now reply.now drawn.now text × Appends (W.contents out.old) (W.contents out.new) text) }
{
    let order = Escaped(order);
    write!(out, "{number} {order} -> ")?;
    write_reply(reply, out)?;
    out.write_all(b"\n")?;
    write_elements(drawn, out)
}

// Writes elements, one a line.
fn write_elements<W: Write>(els: &[PathEl], out: &mut W) -> io::Result<()>
    ensures { OnOk result ((text : Text) × ElementsSay els.now text × Appends (W.contents out.old) (W.contents out.new) text) }
{
    for el in els {
        write_element(*el, out)?;
        out.write_all(b"\n")?;
    }
    Ok(())
}
