//! How answers and elements are written.
ghost use Rattle.std.specs.Prelude.{OnOk};
ghost use Rattle.std.specs.Io.KnownBytes.{Appends};
ghost use Rattle.numerals.specs.Numerals.{Text};
ghost use Rattle.exam.specs.Texts.{Says, SaysAnswer, SaysBox, SaysElement, SaysMeasures, SaysReply, steps_text};

use super::reply::Reply;
use marks::measures::Measures;
use numerals::write_number;
use plane::bezpath::PathEl;
use plane::rect::Rect;
use sheets::order::Answer;
use std::io;
use std::io::Write;

/// Writes a reply, without the end of a line: `position 2`, `3 marks`, `winding -1`, `top 0`, `top none`,
/// `box 0 0 2 1`, `box none`, `5 elements`, `refused 4 FULL`, `right`, `wrong`, `area 2 perimeter 6 box 0 0 2 1`, and
/// ` steps 3` behind it where the perimeter took steps. It fails only where the output does.
pub fn write_reply<W: Write>(reply: &Reply, out: &mut W) -> io::Result<()>
    ensures { OnOk result ((text : Text)
        × SaysReply reply.now text × Appends (W.contents out.old) (W.contents out.new) text) }
{
    match reply {
        Reply::Said(answer) => write_answer(*answer, out),
        Reply::Right(true) => out.write_all(b"right"),
        Reply::Right(false) => out.write_all(b"wrong"),
        Reply::Measures(measures) => write_measures(*measures, out),
        Reply::Shape(fault) => write!(out, "refused {fault}"),
        Reply::Move(fault) => write!(out, "refused {fault}"),
    }
}

/// Writes an element of a path, without the end of a line: its letter and the coordinates of its points, as `M x y`,
/// `L x y`, `Q x y x y`, `C x y x y x y` and `Z`. It fails only where the output does.
pub fn write_element<W: Write>(el: PathEl, out: &mut W) -> io::Result<()>
    ensures { OnOk result ((text : Text)
        × SaysElement el text × Appends (W.contents out.old) (W.contents out.new) text) }
{
    match el {
        PathEl::MoveTo(p) => write_numbers("M", &[p.x, p.y], out),
        PathEl::LineTo(p) => write_numbers("L", &[p.x, p.y], out),
        PathEl::QuadTo(p, q) => write_numbers("Q", &[p.x, p.y, q.x, q.y], out),
        PathEl::CurveTo(p, q, r) => write_numbers("C", &[p.x, p.y, q.x, q.y, r.x, r.y], out),
        PathEl::ClosePath => out.write_all(b"Z"),
    }
}

fn write_answer<W: Write>(answer: Answer, out: &mut W) -> io::Result<()>
    ensures { OnOk result ((text : Text)
        × SaysAnswer answer text × Appends (W.contents out.old) (W.contents out.new) text) }
{
    match answer {
        Answer::Position(position) => write!(out, "position {position}"),
        Answer::Marks(count) => write!(out, "{count} marks"),
        Answer::Winding(winding) => write!(out, "winding {winding}"),
        Answer::Top(Some(position)) => write!(out, "top {position}"),
        Answer::Top(None) => out.write_all(b"top none"),
        Answer::Box(Some(sides)) => write_box(sides, out),
        Answer::Box(None) => out.write_all(b"box none"),
        Answer::Elements(count) => write!(out, "{count} elements"),
        Answer::Refused(fault) => write!(out, "refused {fault}"),
    }
}

fn write_measures<W: Write>(measures: Measures, out: &mut W) -> io::Result<()>
    ensures { OnOk result ((text : Text)
        × SaysMeasures measures text × Appends (W.contents out.old) (W.contents out.new) text) }
{
    write_numbers("area", &[measures.area], out)?;
    out.write_all(b" ")?;
    write_numbers("perimeter", &[measures.perimeter], out)?;
    out.write_all(b" ")?;
    write_box(measures.bounding_box, out)?;
    write_steps(measures.steps, out)
}

fn write_steps<W: Write>(steps: Option<u32>, out: &mut W) -> io::Result<()>
    ensures { OnOk result (Appends (W.contents out.old) (W.contents out.new) (steps_text steps)) }
{
    match steps {
        Some(count) => write!(out, " steps {count}"),
        None => Ok(()),
    }
}

fn write_box<W: Write>(sides: Rect, out: &mut W) -> io::Result<()>
    ensures { OnOk result ((text : Text)
        × SaysBox sides text × Appends (W.contents out.old) (W.contents out.new) text) }
{
    write_numbers("box", &[sides.x0, sides.y0, sides.x1, sides.y1], out)
}

// Writes a word, and then numbers, each after a blank.
fn write_numbers<W: Write>(word: &str, numbers: &[f64], out: &mut W) -> io::Result<()>
    ensures { OnOk result ((text : Text)
        × Says word.now numbers.now text × Appends (W.contents out.old) (W.contents out.new) text) }
{
    out.write_all(word.as_bytes())?;
    for x in numbers {
        out.write_all(b" ")?;
        write_number(*x, out)?;
    }
    Ok(())
}

#[cfg(test)]
mod tests {
    use super::*;
    use layers::fault::MoveFault;
    use plane::point::Point;
    use sheets::fault::SheetFault;
    use std::alloc::Global;
    use std::process::Abort;
    use std::test::Fail;

    const FRAME: Rect = Rect {
        x0: 0.0,
        y0: -0.5,
        x1: 4096.0,
        y1: 1.0,
    };

    fn expect_reply(rt: &impl Abort, heap: Global, reply: Reply, text: &str) -> Result<(), Fail> {
        let mut out = Vec::new(heap);
        write_reply(&reply, &mut out)?;
        assert!(rt; out.as_slice() == text.as_bytes(), "{text}");
        Ok(())
    }

    fn expect_element(rt: &impl Abort, heap: Global, el: PathEl, text: &str) -> Result<(), Fail> {
        let mut out = Vec::new(heap);
        write_element(el, &mut out)?;
        assert!(rt; out.as_slice() == text.as_bytes(), "{text}");
        Ok(())
    }

    #[test]
    fn replies_are_written(rt: HostRuntime) -> Result<(), Fail> {
        let heap = rt.alloc();
        let measures = Measures {
            area: 2.0,
            perimeter: 6.25,
            bounding_box: FRAME,
            steps: None,
        };
        let stepped = Measures {
            steps: Some(3),
            ..measures
        };
        let cases = [
            (Reply::Said(Answer::Position(2)), "position 2"),
            (Reply::Said(Answer::Marks(3)), "3 marks"),
            (Reply::Said(Answer::Winding(-1)), "winding -1"),
            (Reply::Said(Answer::Top(Some(0))), "top 0"),
            (Reply::Said(Answer::Top(None)), "top none"),
            (Reply::Said(Answer::Box(Some(FRAME))), "box 0 -0.5 4096 1"),
            (Reply::Said(Answer::Box(None)), "box none"),
            (Reply::Said(Answer::Elements(5)), "5 elements"),
            (
                Reply::Said(Answer::Refused(SheetFault::Full)),
                "refused 4 FULL",
            ),
            (Reply::Right(true), "right"),
            (Reply::Right(false), "wrong"),
            (
                Reply::Measures(measures),
                "area 2 perimeter 6.25 box 0 -0.5 4096 1",
            ),
            (
                Reply::Measures(stepped),
                "area 2 perimeter 6.25 box 0 -0.5 4096 1 steps 3",
            ),
            (Reply::Move(MoveFault::NotATurn), "refused 10 NOT A TURN"),
        ];
        for (reply, text) in cases {
            expect_reply(&rt, heap, reply, text)?;
        }
        Ok(())
    }

    #[test]
    fn elements_are_written(rt: HostRuntime) -> Result<(), Fail> {
        let heap = rt.alloc();
        let p = Point::new(0.0, 0.5);
        let q = Point::new(-1.0, 2.0);
        let r = Point::new(3.0, -0.0);
        expect_element(&rt, heap, PathEl::MoveTo(p), "M 0 0.5")?;
        expect_element(&rt, heap, PathEl::LineTo(q), "L -1 2")?;
        expect_element(&rt, heap, PathEl::QuadTo(p, q), "Q 0 0.5 -1 2")?;
        expect_element(&rt, heap, PathEl::CurveTo(p, q, r), "C 0 0.5 -1 2 3 -0")?;
        expect_element(&rt, heap, PathEl::ClosePath, "Z")
    }
}
