//! Reads the cases of a list.
ghost use Rattle.std.specs.Prelude.{◌≡◌, [], ◌∷◌, IfSome, Float};
ghost use Rattle.std.specs.Float.{float_to_unsigned};
ghost use Rattle.std.specs.Int.{w32};
ghost use Rattle.questions.specs.Names.{kind_of};
ghost use Rattle.comparison.specs.Words.{Left, Takes, TakesNumbers, TakesSome};
ghost use Rattle.comparison.specs.Cases.{of_point, of_vector, of_rect, of_circle, of_triangle, of_radii, of_map, OfRounded, AsksShape, Asks, AsksEllipse, AsksMap, Says, CaseOf};

use cases::named::Named;
use cases::number::Number;
use ellipses::ellipse::Ellipse;
use plane::affine::Affine;
use plane::point::Point;
use plane::rect::Rect;
use plane::vec2::Vec2;
use questions::question::{Ask, EllipseAsk, Kind, MapAsk, Question, ShapeAsk, What};
use rounded::rounded_rect::RoundedRect;
use rounded::rounded_rect_radii::RoundedRectRadii;
use shapes::circle::Circle;
use shapes::triangle::Triangle;
use std::num::saturating_f64_to_u32;
use std::str::SplitWhitespace;

/// Reads SHAPE WHAT NUMBER.. -> ANSWER.. as a question and the text of the answer that it should get. A question has
/// just the numbers of its subject and those that it is asked with.
pub fn case(text: &str) -> Option<(Question, &str)>
    ensures { IfSome result (λ r. CaseOf text.now r.0 r.1.now) }
{
    let (asked, expected) = text.split_once(" -> ")?;
    let mut words = Words(asked.split_whitespace());
    let kind = Kind::named(words.word()?)?;
    let what = What::named(words.word()?)?;
    let question = words.question(kind, what)?;
    words.end()?;
    Some((question, expected))
}

// The words of a question that are still to be read.
#[derive(Drop)]
struct Words<'a>(SplitWhitespace<'a>);

impl<'a> Words<'a> {
    // The question of this kind: the numbers of its subject, and those that it is asked with.
    fn question(&mut self, kind: Kind, what: What) -> Option<Question>
        ensures kind { IfSome result (λ q. kind_of q ≡ kind) }
        ensures text { IfSome result (λ q. TakesSome (Says q what) self.old self.new) }
    {
        match kind {
            Kind::Rect => Some(Question::Rect(self.rect()?, self.ask(what)?)),
            Kind::Circle => Some(Question::Circle(self.circle()?, self.ask(what)?)),
            Kind::Triangle => Some(Question::Triangle(self.triangle()?, self.ask(what)?)),
            Kind::Rounded => self.rounded_question(what),
            Kind::Ellipse => self.ellipse_question(what),
            Kind::Affine => Some(Question::Affine(self.map()?, self.map_ask(what)?)),
        }
    }

    fn rounded_question(&mut self, what: What) -> Option<Question>
        ensures kind { IfSome result (λ q. kind_of q ≡ Kind.Rounded) }
        ensures text { IfSome result (λ q. TakesSome (Says q what) self.old self.new) }
    {
        let rounded = self.rounded()?;
        match what {
            What::Radii => Some(Question::Corners(rounded)),
            _ => Some(Question::Rounded(rounded, self.ask(what)?)),
        }
    }

    // An ellipse is given by its map, or where it is to be made by its centre, radii and angle.
    fn ellipse_question(&mut self, what: What) -> Option<Question>
        ensures kind { IfSome result (λ q. kind_of q ≡ Kind.Ellipse) }
        ensures text { IfSome result (λ q. TakesSome (Says q what) self.old self.new) }
    {
        match what {
            What::New => {
                let made = Ellipse::new(self.point()?, self.vector()?, self.number()?);
                Some(Question::Ellipse(made, EllipseAsk::Map))
            }
            _ => {
                let ellipse = Ellipse::from_affine(self.map()?);
                Some(Question::Ellipse(ellipse, self.ellipse_ask(what)?))
            }
        }
    }

    fn ask(&mut self, what: What) -> Option<Ask>
        ensures { IfSome result (λ a. TakesSome (Asks a what) self.old self.new) }
    {
        match what {
            What::Perimeter => Some(Ask::Perimeter),
            _ => self.shape_ask(what).map(Ask::Shape),
        }
    }

    fn ellipse_ask(&mut self, what: What) -> Option<EllipseAsk>
        ensures { IfSome result (λ a. TakesSome (AsksEllipse a what) self.old self.new) }
    {
        match what {
            What::Perimeter => Some(EllipseAsk::Length(self.number()?, self.steps()?)),
            What::Radii => Some(EllipseAsk::Radii),
            _ => self.shape_ask(what).map(EllipseAsk::Shape),
        }
    }

    fn shape_ask(&mut self, what: What) -> Option<ShapeAsk>
        ensures { IfSome result (λ a. TakesSome (AsksShape a what) self.old self.new) }
    {
        match what {
            What::Area => Some(ShapeAsk::Area),
            What::Box => Some(ShapeAsk::Frame),
            What::Winding => Some(ShapeAsk::Winding(self.point()?)),
            What::Contains => Some(ShapeAsk::Contains(self.point()?)),
            What::Path => Some(ShapeAsk::Path(self.number()?)),
            _ => None,
        }
    }

    fn map_ask(&mut self, what: What) -> Option<MapAsk>
        ensures { IfSome result (λ a. TakesSome (AsksMap a what) self.old self.new) }
    {
        match what {
            What::Point => Some(MapAsk::Image(self.point()?)),
            What::Mul => Some(MapAsk::Product(self.map()?)),
            What::Inverse => Some(MapAsk::Inverse),
            What::Determinant => Some(MapAsk::Determinant),
            What::Bbox => Some(MapAsk::Frame(self.rect()?)),
            _ => None,
        }
    }

    #[tactic(auto, unfolding(crate::specs::Words::Left))]
    fn word(&mut self) -> Option<&'a str>
        ensures { IfSome result (λ w. Takes self.old (w.now ∷ []) self.new) }
    {
        self.0.next()
    }

    // No word is left.
    #[tactic(auto, unfolding(crate::specs::Words::Left))]
    fn end(&mut self) -> Option<()>
        ensures { IfSome result (λ _. Left self.old.0 []) }
    {
        match self.0.next() {
            Some(_) => None,
            None => Some(()),
        }
    }

    fn number(&mut self) -> Option<f64>
        ensures { IfSome result (λ x. TakesNumbers self.old (x ∷ []) self.new) }
    {
        let Number(x) = self.word()?.parse().ok()?;
        Some(x)
    }

    // A number of steps: the nearest that there is.
    fn steps(&mut self) -> Option<u32>
        ensures { IfSome result (λ n. (x : Float) × (n ≡ float_to_unsigned w32 x) × TakesNumbers self.old (x ∷ []) self.new) }
    {
        Some(saturating_f64_to_u32(self.number()?))
    }

    fn point(&mut self) -> Option<Point>
        ensures { IfSome result (λ p. TakesNumbers self.old (of_point p) self.new) }
    {
        Some(Point::new(self.number()?, self.number()?))
    }

    fn vector(&mut self) -> Option<Vec2>
        ensures { IfSome result (λ v. TakesNumbers self.old (of_vector v) self.new) }
    {
        Some(Vec2::new(self.number()?, self.number()?))
    }

    fn rect(&mut self) -> Option<Rect>
        ensures { IfSome result (λ r. TakesNumbers self.old (of_rect r) self.new) }
    {
        Some(Rect::new(
            self.number()?,
            self.number()?,
            self.number()?,
            self.number()?,
        ))
    }

    fn circle(&mut self) -> Option<Circle>
        ensures { IfSome result (λ c. TakesNumbers self.old (of_circle c) self.new) }
    {
        Some(Circle::new(self.point()?, self.number()?))
    }

    fn triangle(&mut self) -> Option<Triangle>
        ensures { IfSome result (λ t. TakesNumbers self.old (of_triangle t) self.new) }
    {
        Some(Triangle::new(self.point()?, self.point()?, self.point()?))
    }

    fn rounded(&mut self) -> Option<RoundedRect>
        ensures { IfSome result (λ s. TakesSome (OfRounded s) self.old self.new) }
    {
        Some(RoundedRect::new(
            self.number()?,
            self.number()?,
            self.number()?,
            self.number()?,
            self.radii()?,
        ))
    }

    fn radii(&mut self) -> Option<RoundedRectRadii>
        ensures { IfSome result (λ k. TakesNumbers self.old (of_radii k) self.new) }
    {
        Some(RoundedRectRadii::new(
            self.number()?,
            self.number()?,
            self.number()?,
            self.number()?,
        ))
    }

    fn map(&mut self) -> Option<Affine>
        ensures { IfSome result (λ m. TakesNumbers self.old (of_map m) self.new) }
    {
        Some(Affine::new(
            self.number()?,
            self.number()?,
            self.number()?,
            self.number()?,
            self.number()?,
            self.number()?,
        ))
    }
}
