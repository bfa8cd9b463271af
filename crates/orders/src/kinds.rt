//! The shapes that a line names.
ghost use Rattle.std.specs.Prelude.{◌≡◌, Result};
ghost use Rattle.orders.specs.Words.{Text};
ghost use Rattle.orders.specs.Kinds.{kind_of, measured_count, rectangle, shape, effort, measured_as, measured};
ghost use Rattle.orders.specs.Runs.{Left, made_of};
ghost use Rattle.orders.specs.Values.{count, circle_of, triangle_of, rounded_of, ellipse_of};
ghost use Rattle.orders.specs.Kinds.{mark as a_mark};
ghost use Rattle.orders.specs.Kinds.{frame as a_frame};
ghost use Rattle.orders.specs.Views.{left_of, Reads, Answers};

use super::order::Measured;
use super::unreadable::Unreadable;
use super::words::Words;
use ellipses::ellipse::Ellipse;
use marks::mark::Mark;
use plane::point::Point;
use plane::rect::Rect;
use plane::vec2::Vec2;
use rounded::rounded_rect::RoundedRect;
use rounded::rounded_rect_radii::RoundedRectRadii;
use shapes::circle::Circle;
use shapes::triangle::Triangle;

// A mark that can be put on a sheet.
pub(crate) trait Named: Copy {
    // How it is read.
    ghost reads: { Left → Result (Self × Left) Text };

    // The mark of the name and the numbers that are next.
    fn read<'a>(words: &mut Words<'a>) -> Result<Self, Unreadable<'a>>
        ensures { Reads (λ m. m) result (reads (left_of words.old)) (left_of words.new) };
}

// Any of the five shapes.
impl Named for Mark {
    ghost reads = { a_mark };

    #[tactic(auto, unfolding(crate::specs::Kinds::mark))]
    fn read<'a>(words: &mut Words<'a>) -> Result<Mark, Unreadable<'a>> {
        let kind = Kind::of(words.word())?;
        words.run(kind.wanted());
        kind.read(words)
    }
}

// Rectangles alone.
impl Named for Rect {
    ghost reads = { a_frame };

    #[tactic(auto, using(crate::proofs::Others::other), unfolding(crate::specs::Kinds::frame))]
    fn read<'a>(words: &mut Words<'a>) -> Result<Rect, Unreadable<'a>> {
        match words.word() {
            "rect" => {
                words.run(4);
                read_rect(words)
            }
            word => Err(Unreadable::NoShape(word)),
        }
    }
}

// A shape to be measured.
#[tactic(auto, unfolding(crate::specs::Kinds::measured))]
pub(crate) fn read_measured<'a>(words: &mut Words<'a>) -> Result<Measured, Unreadable<'a>>
    ensures { Answers (λ m. m) result (measured (left_of words.old)) }
{
    let kind = Kind::of(words.word())?;
    words.run(kind.wanted_to_measure());
    kind.read_measured(words)
}

// A kind of shape.
#[derive(Clone, Copy)]
enum Kind {
    Rect,
    Circle,
    Triangle,
    RoundedRect,
    Ellipse,
}

impl Kind {
    // The kind with this name.
    #[tactic(auto, using(crate::proofs::Others::other), unfolding(crate::specs::Kinds::kind_of))]
    fn of(name: &str) -> Result<Kind, Unreadable<'_>>
        ensures { Answers (λ k. k) result (kind_of name.now) }
    {
        match name {
            "rect" => Ok(Kind::Rect),
            "circle" => Ok(Kind::Circle),
            "triangle" => Ok(Kind::Triangle),
            "rounded" => Ok(Kind::RoundedRect),
            "ellipse" => Ok(Kind::Ellipse),
            _ => Err(Unreadable::NoShape(name)),
        }
    }

    // How many numbers a shape of this kind has.
    #[tactic(auto, unfolding(crate::specs::Values::count))]
    const fn wanted(self) -> usize
        ensures { result ≡ count self }
    {
        match self {
            Kind::Rect => 4,
            Kind::Circle => 3,
            Kind::Triangle => 6,
            Kind::RoundedRect => 8,
            Kind::Ellipse => 5,
        }
    }

    // How many numbers it has where it is measured.
    #[tactic(auto, unfolding(crate::specs::Values::count, crate::specs::Kinds::measured_count))]
    const fn wanted_to_measure(self) -> usize
        ensures { result ≡ measured_count self }
    {
        match self {
            Kind::Ellipse => 7,
            _ => self.wanted(),
        }
    }

    // The shape of this kind with the next numbers of the run.
    #[tactic(auto, unfolding(crate::specs::Kinds::shape))]
    fn read<'a>(self, words: &mut Words<'a>) -> Result<Mark, Unreadable<'a>>
        ensures { Reads (λ m. m) result (shape self (left_of words.old)) (left_of words.new) }
    {
        match self {
            Kind::Rect => Ok(Mark::Rect(read_rect(words)?)),
            Kind::Circle => Ok(Mark::Circle(read_circle(words)?)),
            Kind::Triangle => Ok(Mark::Triangle(read_triangle(words)?)),
            Kind::RoundedRect => Ok(Mark::RoundedRect(read_rounded(words)?)),
            Kind::Ellipse => Ok(Mark::Ellipse(read_ellipse(words)?)),
        }
    }

    // The shape of this kind with the next numbers of the run, and nothing after what its measure takes.
    #[tactic(auto, unfolding(crate::specs::Kinds::measured_as))]
    fn read_measured<'a>(self, words: &mut Words<'a>) -> Result<Measured, Unreadable<'a>>
        ensures { Answers (λ m. m) result (measured_as self (left_of words.old)) }
    {
        let mark = self.read(words)?;
        let (accuracy, allowance) = self.read_effort(words)?;
        words.end()?;
        Ok(Measured {
            mark,
            accuracy,
            allowance,
        })
    }

    // The accuracy of an ellipse's length, and the steps that it may take.
    #[tactic(auto, unfolding(crate::specs::Kinds::effort))]
    fn read_effort<'a>(self, words: &mut Words<'a>) -> Result<(f64, u32), Unreadable<'a>>
        ensures { Reads (λ e. e) result (effort self (left_of words.old)) (left_of words.new) }
    {
        match self {
            Kind::Ellipse => Ok((words.number()?, words.allowance()?)),
            _ => Ok((0.0, 0)),
        }
    }
}

// Two opposite corners.
#[tactic(auto, unfolding(crate::specs::Kinds::rectangle))]
fn read_rect<'a>(words: &mut Words<'a>) -> Result<Rect, Unreadable<'a>>
    ensures { Reads (λ m. m) result (rectangle (left_of words.old)) (left_of words.new) }
{
    let [x0, y0, x1, y1] = words.numbers::<4>()?;
    Ok(Rect::new(x0, y0, x1, y1))
}

// The centre, and the radius.
fn read_circle<'a>(words: &mut Words<'a>) -> Result<Circle, Unreadable<'a>>
    ensures { Reads (λ m. m) result (made_of 3 circle_of (left_of words.old)) (left_of words.new) }
{
    let [x, y, radius] = words.numbers::<3>()?;
    Ok(Circle::new(Point::new(x, y), radius))
}

// The corners.
fn read_triangle<'a>(words: &mut Words<'a>) -> Result<Triangle, Unreadable<'a>>
    ensures { Reads (λ m. m) result (made_of 6 triangle_of (left_of words.old)) (left_of words.new) }
{
    let [ax, ay, bx, by, cx, cy] = words.numbers::<6>()?;
    Ok(Triangle::new(Point::new(ax, ay), Point::new(bx, by), Point::new(cx, cy)))
}

// Two opposite corners, and the radii from the top left one on.
fn read_rounded<'a>(words: &mut Words<'a>) -> Result<RoundedRect, Unreadable<'a>>
    ensures { Reads (λ m. m) result (made_of 8 rounded_of (left_of words.old)) (left_of words.new) }
{
    let [
        x0,
        y0,
        x1,
        y1,
        top_left,
        top_right,
        bottom_right,
        bottom_left,
    ] = words.numbers::<8>()?;
    let radii = RoundedRectRadii::new(top_left, top_right, bottom_right, bottom_left);
    Ok(RoundedRect::new(x0, y0, x1, y1, radii))
}

// The centre, the radii and the rotation.
fn read_ellipse<'a>(words: &mut Words<'a>) -> Result<Ellipse, Unreadable<'a>>
    ensures { Reads (λ m. m) result (made_of 5 ellipse_of (left_of words.old)) (left_of words.new) }
{
    let [x, y, rx, ry, rotation] = words.numbers::<5>()?;
    Ok(Ellipse::new(Point::new(x, y), Vec2::new(rx, ry), rotation))
}
