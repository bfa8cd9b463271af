//! What a case asks.
ghost use Rattle.std.specs.Prelude.{◌≡◌, Some};
ghost use Rattle.questions.specs.Names.{name_of, word_of, kind_of, all_kinds, all_whats, place_of};
ghost use Rattle.questions.specs.Named.{kinds_named, whats_named, kinds_placed};

use cases::named::Named;
use cases::report::Counted;
use ellipses::ellipse::Ellipse;
use plane::affine::Affine;
use plane::point::Point;
use plane::rect::Rect;
use rounded::rounded_rect::RoundedRect;
use shapes::circle::Circle;
use shapes::triangle::Triangle;
use std::fmt;

/// What a case is about.
#[derive(Clone, Copy, Debug, PartialEq, Eq)]
pub enum Kind {
    /// A rectangle.
    Rect,
    /// A circle.
    Circle,
    /// A triangle.
    Triangle,
    /// A rounded rectangle.
    Rounded,
    /// An ellipse.
    Ellipse,
    /// An affine map.
    Affine,
}

impl Kind {
    /// How many kinds there are.
    pub const COUNT: usize = 6;

    /// Each kind, in the order of the report.
    pub const ALL: [Kind; Kind::COUNT] = [
        Kind::Rect,
        Kind::Circle,
        Kind::Triangle,
        Kind::Rounded,
        Kind::Ellipse,
        Kind::Affine,
    ];
}

impl Named for Kind {
    ghost name_of = { name_of };

    ghost all = { all_kinds };

    fn all() -> &'static [Kind] {
        &Kind::ALL
    }

    fn name(self) -> &'static str {
        match self {
            Kind::Rect => "rect",
            Kind::Circle => "circle",
            Kind::Triangle => "triangle",
            Kind::Rounded => "rounded",
            Kind::Ellipse => "ellipse",
            Kind::Affine => "affine",
        }
    }

    ghost each = { kinds_named };
}

impl Counted<{ Kind::COUNT }> for Kind {
    ghost place_of = { place_of };

    fn place(self) -> usize {
        self as usize
    }

    ghost within = { kinds_placed };
}

impl fmt::Display for Kind {
    ghost output = { λ k. Some (name_of k) };

    fn fmt<W: fmt::Write>(&self, f: &mut fmt::Formatter<W>) -> fmt::Result {
        f.write_str(self.name())
    }
}

/// What is asked, by its name.
#[derive(Clone, Copy, Debug, PartialEq, Eq)]
pub enum What {
    /// The area.
    Area,
    /// The length of the boundary.
    Perimeter,
    /// The bounding box.
    Box,
    /// The winding at a point.
    Winding,
    /// Whether a point is held.
    Contains,
    /// The path at a tolerance.
    Path,
    /// The radii of an ellipse with its angle, or those of a rounded rectangle with its sides.
    Radii,
    /// The map of the ellipse that is made of a centre, radii and an angle.
    New,
    /// Where a map sends a point.
    Point,
    /// The product of two maps.
    Mul,
    /// The map back.
    Inverse,
    /// The determinant.
    Determinant,
    /// The box of what a map sends a rectangle to.
    Bbox,
}

impl Named for What {
    ghost name_of = { word_of };

    ghost all = { all_whats };

    fn all() -> &'static [What] {
        &[
            What::Area,
            What::Perimeter,
            What::Box,
            What::Winding,
            What::Contains,
            What::Path,
            What::Radii,
            What::New,
            What::Point,
            What::Mul,
            What::Inverse,
            What::Determinant,
            What::Bbox,
        ]
    }

    fn name(self) -> &'static str {
        match self {
            What::Area => "area",
            What::Perimeter => "perimeter",
            What::Box => "box",
            What::Winding => "winding",
            What::Contains => "contains",
            What::Path => "path",
            What::Radii => "radii",
            What::New => "new",
            What::Point => "point",
            What::Mul => "mul",
            What::Inverse => "inverse",
            What::Determinant => "determinant",
            What::Bbox => "bbox",
        }
    }

    ghost each = { whats_named };
}

/// What is asked of every shape.
#[derive(Clone, Copy)]
pub enum ShapeAsk {
    /// The area.
    Area,
    /// The bounding box.
    Frame,
    /// The winding at this point.
    Winding(Point),
    /// Whether this point is held.
    Contains(Point),
    /// The path at this tolerance.
    Path(f64),
}

/// What is asked of a rectangle, a circle, a triangle or a rounded rectangle.
#[derive(Clone, Copy)]
pub enum Ask {
    /// The length of the boundary.
    Perimeter,
    /// What every shape is asked.
    Shape(ShapeAsk),
}

/// What is asked of an ellipse.
#[derive(Clone, Copy)]
pub enum EllipseAsk {
    /// The length within this accuracy, with this allowance of steps.
    Length(f64, u32),
    /// The radii and the angle.
    Radii,
    /// The map.
    Map,
    /// What every shape is asked.
    Shape(ShapeAsk),
}

/// What is asked of an affine map.
#[derive(Clone, Copy)]
pub enum MapAsk {
    /// Where it sends this point.
    Image(Point),
    /// The product with this map, which comes first.
    Product(Affine),
    /// The map back.
    Inverse,
    /// The determinant.
    Determinant,
    /// The box of what it sends this rectangle to.
    Frame(Rect),
}

/// A shape or a map, and what is asked of it.
#[derive(Clone, Copy)]
pub enum Question {
    /// Of a rectangle.
    Rect(Rect, Ask),
    /// Of a circle.
    Circle(Circle, Ask),
    /// Of a triangle.
    Triangle(Triangle, Ask),
    /// Of a rounded rectangle.
    Rounded(RoundedRect, Ask),
    /// The rectangle and the radii that a rounded rectangle holds.
    Corners(RoundedRect),
    /// Of an ellipse.
    Ellipse(Ellipse, EllipseAsk),
    /// Of an affine map.
    Affine(Affine, MapAsk),
}

impl Question {
    /// What the case counts for.
    pub fn kind(self) -> Kind
        ensures { result ≡ kind_of self }
    {
        match self {
            Question::Rect(_, _) => Kind::Rect,
            Question::Circle(_, _) => Kind::Circle,
            Question::Triangle(_, _) => Kind::Triangle,
            Question::Rounded(_, _) | Question::Corners(_) => Kind::Rounded,
            Question::Ellipse(_, _) => Kind::Ellipse,
            Question::Affine(_, _) => Kind::Affine,
        }
    }
}
