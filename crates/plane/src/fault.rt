//! Why a shape refuses to answer, and why a point is none of the page.
ghost use Rattle.std.specs.Prelude.{◌≡◌, Some};
ghost use Rattle.plane.specs.Faults.{place_of, number_of, name_of, text_of, as_shape_fault, at_corner, page_number_of, page_name_of, page_text_of};

use std::fmt;

/// Why an arc refuses its curves.
#[derive(Clone, Copy, Debug, PartialEq, Eq)]
pub enum ArcFault {
    /// The tolerance is too fine for the radii.
    TooFine,
}

/// A corner of a rounded rectangle, in drawing order. The top is where y is smaller.
#[derive(Clone, Copy, Debug, PartialEq, Eq)]
pub enum Corner {
    /// At the lesser x and y.
    TopLeft,
    /// At the greater x and the lesser y.
    TopRight,
    /// At the greater x and y.
    BottomRight,
    /// At the lesser x and the greater y.
    BottomLeft,
}

impl Corner {
    /// The corner's place in drawing order, from 0 to 3.
    pub fn number(self) -> u8
        ensures { result ≡ place_of self }
    {
        match self {
            Corner::TopLeft => 0,
            Corner::TopRight => 1,
            Corner::BottomRight => 2,
            Corner::BottomLeft => 3,
        }
    }
}

/// An arc's fault, with the corner of a rounded rectangle that the arc rounds.
#[derive(Clone, Copy, Debug, PartialEq, Eq)]
pub struct CornerFault {
    /// The corner, from 0 to 3 in drawing order: its `number`.
    pub corner: u8,
    /// What the corner's arc says.
    pub fault: ArcFault,
}

/// Why a shape refuses a path or a length. Each case has a number and a name.
#[derive(Clone, Copy, Debug, PartialEq, Eq)]
pub enum ShapeFault {
    /// 1 TOLERANCE: the tolerance is not finite, or not above 0.
    Tolerance,
    /// 2 NOT FINITE: a parameter of the shape is not finite.
    NotFinite,
    /// 3 TOO FINE: the tolerance is too fine for the shape; a rounded rectangle names its first such corner.
    TooFine {
        /// The corner, from 0 to 3 in drawing order, where the shape has corners: its `number`.
        corner: Option<u8>,
    },
    /// 9 STEPS: the allowance of steps is spent before the length is known.
    Steps,
}

impl ShapeFault {
    /// The number of the refusal: 1, 2, 3 or 9.
    pub fn number(self) -> u8
        ensures { result ≡ number_of self }
    {
        match self {
            ShapeFault::Tolerance => 1,
            ShapeFault::NotFinite => 2,
            ShapeFault::TooFine { corner: _ } => 3,
            ShapeFault::Steps => 9,
        }
    }

    /// The name of the refusal: TOLERANCE, NOT FINITE, TOO FINE or STEPS.
    pub fn name(self) -> &'static str
        ensures { result.now ≡ name_of self }
    {
        match self {
            ShapeFault::Tolerance => "TOLERANCE",
            ShapeFault::NotFinite => "NOT FINITE",
            ShapeFault::TooFine { corner: _ } => "TOO FINE",
            ShapeFault::Steps => "STEPS",
        }
    }
}

// The number and the name, and the corner where one is named.
impl fmt::Display for ShapeFault {
    ghost output = { λ f. Some (text_of f) };

    fn fmt<W: fmt::Write>(&self, f: &mut fmt::Formatter<W>) -> fmt::Result {
        let number = self.number();
        let name = self.name();
        match self {
            ShapeFault::TooFine {
                corner: Some(corner),
            } => write!(f, "{number} {name} corner {corner}"),
            _ => write!(f, "{number} {name}"),
        }
    }
}

impl From<ArcFault> for ShapeFault {
    ghost from_gives = { λ f r. r ≡ as_shape_fault f };

    fn from(fault: ArcFault) -> ShapeFault {
        match fault {
            ArcFault::TooFine => ShapeFault::TooFine { corner: None },
        }
    }
}

impl From<CornerFault> for ShapeFault {
    ghost from_gives = { λ f r. r ≡ at_corner f };

    fn from(fault: CornerFault) -> ShapeFault {
        match fault.fault {
            ArcFault::TooFine => ShapeFault::TooFine {
                corner: Some(fault.corner),
            },
        }
    }
}

/// Why a point is no grid point of the page. The cases stand in the order in which they are tried.
#[derive(Clone, Copy, Debug, PartialEq, Eq)]
pub enum PageFault {
    /// 6 OFF GRID: a coordinate is no grid number, that is, no multiple of 1/256.
    OffGrid,
    /// 7 OFF PAGE: both coordinates are grid numbers, and one of them is not on the page, which runs from -4096 to 4096.
    OffPage,
}

impl PageFault {
    /// The number of the refusal: 6 or 7.
    pub fn number(self) -> u8
        ensures { result ≡ page_number_of self }
    {
        match self {
            PageFault::OffGrid => 6,
            PageFault::OffPage => 7,
        }
    }

    /// The name of the refusal: OFF GRID or OFF PAGE.
    pub fn name(self) -> &'static str
        ensures { result.now ≡ page_name_of self }
    {
        match self {
            PageFault::OffGrid => "OFF GRID",
            PageFault::OffPage => "OFF PAGE",
        }
    }
}

// The number and the name.
impl fmt::Display for PageFault {
    ghost output = { λ f. Some (page_text_of f) };

    fn fmt<W: fmt::Write>(&self, f: &mut fmt::Formatter<W>) -> fmt::Result {
        let number = self.number();
        let name = self.name();
        write!(f, "{number} {name}")
    }
}
