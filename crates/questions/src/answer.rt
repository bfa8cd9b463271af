//! What the shapes and the maps answer.
ghost use Rattle.std.specs.Prelude.{◌≡◌, IfOk, OnErr, IsTrue, Some, string_bytes};
ghost use Rattle.questions.specs.Answers.{drawing, shown, ShapeAnswers, Answers, EllipseAnswers, map_answer, RightTo};
ghost use Rattle.questions.specs.Texts.{answer_text};
ghost use Rattle.questions.specs.Memory.{shape_asks_path, asks_path, ellipse_asks_path, wants_memory};

use super::figure::{Figure, Outlined};
use super::question::{Ask, EllipseAsk, MapAsk, Question, ShapeAsk};
use ellipses::ellipse::Ellipse;
use plane::affine::Affine;
use plane::bezpath::PathEl;
use plane::cursor::Cursor;
use plane::fault::ShapeFault;
use plane::point::Point;
use plane::rect::Rect;
use plane::shape::Shape;
use plane::vec2::Vec2;
use rounded::rounded_rect_radii::RoundedRectRadii;
use std::alloc::{AllocError, Global};

/// What a shape or a map answers.
#[derive(Drop)]
pub enum Answer {
    /// An area, a length or a determinant.
    Number(f64),
    /// The length of an ellipse, and the steps that it took.
    Length(f64, u32),
    /// A box.
    Frame(Rect),
    /// A winding.
    Winding(i32),
    /// Whether a point is held.
    Holds(bool),
    /// Where a point is sent.
    Point(Point),
    /// A map.
    Map(Affine),
    /// The radii of an ellipse, and its angle.
    Radii(Vec2, f64),
    /// The rectangle and the radii of a rounded rectangle.
    Corners(Rect, RoundedRectRadii),
    /// A path.
    Path(Vec<PathEl>),
    /// Why there is none.
    Refused(ShapeFault),
}

impl Question {
    /// The text of the answer: its words as a list has them, with a blank before each.
    pub fn answer_text(self, heap: Global) -> Result<String, AllocError>
        ensures { IfOk result (λ s. (a : Answer) × RightTo self a × (string_bytes s ≡ answer_text a)) }
    {
        let answer = self.answer(heap)?;
        format!(in heap; "{answer}")
    }

    /// The answer.
    pub fn answer(self, heap: Global) -> Result<Answer, AllocError>
        ensures answer { IfOk result (RightTo self) }
        ensures memory { OnErr result (IsTrue (wants_memory self)) }
    {
        match self {
            Question::Rect(rect, ask) => outlined_answer(rect, ask, heap),
            Question::Circle(circle, ask) => outlined_answer(circle, ask, heap),
            Question::Triangle(triangle, ask) => outlined_answer(triangle, ask, heap),
            Question::Rounded(rounded, ask) => outlined_answer(rounded, ask, heap),
            Question::Corners(rounded) => Ok(Answer::Corners(rounded.rect(), rounded.radii())),
            Question::Ellipse(ellipse, ask) => ellipse_answer(ellipse, ask, heap),
            Question::Affine(map, ask) => Ok(map_answer(map, ask)),
        }
    }
}

fn outlined_answer<S: Outlined>(shape: S, ask: Ask, heap: Global) -> Result<Answer, AllocError>
    ensures answer { IfOk result (Answers (S.length shape) (shown S.Figure.area S.Shape.frame S.Shape.wind S.Shape.drawn shape) ask) }
    ensures memory { OnErr result (IsTrue (asks_path ask)) }
{
    match ask {
        Ask::Perimeter => Ok(Answer::Number(shape.perimeter())),
        Ask::Shape(ask) => shape_answer(shape, ask, heap),
    }
}

fn ellipse_answer(ellipse: Ellipse, ask: EllipseAsk, heap: Global) -> Result<Answer, AllocError>
    ensures answer { IfOk result (EllipseAnswers ellipse ask) }
    ensures memory { OnErr result (IsTrue (ellipse_asks_path ask)) }
{
    match ask {
        EllipseAsk::Length(accuracy, allowance) => Ok(
            ellipse
                .perimeter(accuracy, allowance)
                .map_or_else(Answer::Refused, |(length, steps)| {
                    Answer::Length(length, steps)
                }),
        ),
        EllipseAsk::Radii => Ok(Answer::Radii(ellipse.radii(), ellipse.rotation())),
        EllipseAsk::Map => Ok(Answer::Map(ellipse.affine())),
        EllipseAsk::Shape(ask) => shape_answer(ellipse, ask, heap),
    }
}

// What every shape is asked.
fn shape_answer<S: Figure>(shape: S, ask: ShapeAsk, heap: Global) -> Result<Answer, AllocError>
    ensures answer { IfOk result (ShapeAnswers (shown S.area S.Shape.frame S.Shape.wind S.Shape.drawn shape) ask) }
    ensures memory { OnErr result (IsTrue (shape_asks_path ask)) }
{
    match ask {
        ShapeAsk::Area => Ok(Answer::Number(shape.area())),
        ShapeAsk::Frame => Ok(Answer::Frame(shape.bounding_box())),
        ShapeAsk::Winding(pt) => Ok(Answer::Winding(shape.winding(pt))),
        ShapeAsk::Contains(pt) => Ok(Answer::Holds(shape.contains(pt))),
        ShapeAsk::Path(tolerance) => draw(shape, tolerance, heap),
    }
}

fn map_answer(map: Affine, ask: MapAsk) -> Answer
    ensures { result ≡ map_answer map ask }
{
    match ask {
        MapAsk::Image(pt) => Answer::Point(map.map(pt)),
        MapAsk::Product(other) => Answer::Map(map.mul(other)),
        MapAsk::Inverse => Answer::Map(map.inverse()),
        MapAsk::Determinant => Answer::Number(map.determinant()),
        MapAsk::Frame(rect) => Answer::Frame(map.transform_rect_bbox(rect)),
    }
}

// The whole path, or the refusal.
fn draw<S: Shape>(shape: S, tolerance: f64, heap: Global) -> Result<Answer, AllocError>
    ensures { IfOk result (λ a. drawing a ≡ Some (S.Shape.drawn shape tolerance)) }
{
    match shape.path_elements(tolerance) {
        Ok(cursor) => Ok(Answer::Path(collect(cursor, heap)?)),
        Err(fault) => Ok(Answer::Refused(fault)),
    }
}

// The elements that are still to come.
fn collect<C: Cursor>(cursor: C, heap: Global) -> Result<Vec<PathEl>, AllocError>
    ensures { IfOk result (λ v. v.items ≡ C.Cursor.rest cursor) }
{
    cursor.collect(heap)
}
