//! The text of an answer: its words as a list has them, with a blank before each.
ghost use Rattle.std.specs.Prelude.{Some};
ghost use Rattle.questions.specs.Texts.{pair_text, element_text, elements_text, answer_text};

use super::answer::Answer;
use cases::number::Number;
use plane::bezpath::PathEl;
use std::fmt;

impl fmt::Display for Answer {
    ghost output = { λ a. Some (answer_text a) };

    fn fmt<W: fmt::Write>(&self, f: &mut fmt::Formatter<W>) -> fmt::Result {
        match self {
            Answer::Number(x) => write!(f, " {}", Number(*x)),
            Answer::Length(length, steps) => write!(f, " {} {steps}", Number(*length)),
            Answer::Frame(r) => write!(f, " {} {}", Pair(r.x0, r.y0), Pair(r.x1, r.y1)),
            Answer::Winding(winding) => write!(f, " {winding}"),
            Answer::Holds(holds) => write!(f, " {holds}"),
            Answer::Point(p) => write!(f, " {}", Pair(p.x, p.y)),
            Answer::Map(m) => write!(
                f,
                " {} {} {}",
                Pair(m.a, m.b),
                Pair(m.c, m.d),
                Pair(m.e, m.f)
            ),
            Answer::Radii(r, angle) => write!(f, " {} {}", Pair(r.x, r.y), Number(*angle)),
            Answer::Corners(r, k) => write!(
                f,
                " {} {} {} {}",
                Pair(r.x0, r.y0),
                Pair(r.x1, r.y1),
                Pair(k.top_left, k.top_right),
                Pair(k.bottom_right, k.bottom_left)
            ),
            Answer::Path(path) => write!(f, "{}", Elements(path.as_slice())),
            Answer::Refused(fault) => write!(f, " refused {fault}"),
        }
    }
}

// The elements of a path, with a blank before each.
#[derive(Clone, Copy)]
struct Elements<'a>(&'a [PathEl]);

impl fmt::Display for Elements<'_> {
    ghost output = { λ p. Some (elements_text p.0.now) };

    fn fmt<W: fmt::Write>(&self, f: &mut fmt::Formatter<W>) -> fmt::Result {
        let path = self.0;
        for el in path {
            write!(f, " {}", Element(*el))?;
        }
        Ok(())
    }
}

// An element: its letter, and the coordinates of its points.
#[derive(Clone, Copy)]
struct Element(PathEl);

impl fmt::Display for Element {
    ghost output = { λ el. Some (element_text el.0) };

    fn fmt<W: fmt::Write>(&self, f: &mut fmt::Formatter<W>) -> fmt::Result {
        match self.0 {
            PathEl::MoveTo(p) => write!(f, "M {}", Pair(p.x, p.y)),
            PathEl::LineTo(p) => write!(f, "L {}", Pair(p.x, p.y)),
            PathEl::QuadTo(p, q) => write!(f, "Q {} {}", Pair(p.x, p.y), Pair(q.x, q.y)),
            PathEl::CurveTo(p, q, r) => write!(
                f,
                "C {} {} {}",
                Pair(p.x, p.y),
                Pair(q.x, q.y),
                Pair(r.x, r.y)
            ),
            PathEl::ClosePath => f.write_str("Z"),
        }
    }
}

// Two numbers.
#[derive(Clone, Copy)]
struct Pair(f64, f64);

impl fmt::Display for Pair {
    ghost output = { λ p. Some (pair_text p.0 p.1) };

    fn fmt<W: fmt::Write>(&self, f: &mut fmt::Formatter<W>) -> fmt::Result {
        write!(f, "{} {}", Number(self.0), Number(self.1))
    }
}
