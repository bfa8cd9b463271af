//! Why a sheet refuses a call.
ghost use Rattle.std.specs.Prelude.{◌≡◌, Some};
ghost use Rattle.sheets.specs.SheetFaults.{number_of, name_of, text_of, of_mark, of_point};

use plane::fault::{PageFault, ShapeFault};
use std::fmt;

/// What a mark's path refuses, with the mark's position.
#[derive(Clone, Copy, Debug, PartialEq, Eq)]
pub struct MarkFault {
    /// The mark's position, from 0 at the lowest.
    pub position: usize,
    /// What the shape says.
    pub fault: ShapeFault,
}

/// Why a sheet refuses a call. Each case has a number and a name.
#[derive(Clone, Copy, Debug, PartialEq, Eq)]
pub enum SheetFault {
    /// 1 TOLERANCE: the tolerance is not finite, or not above 0.
    Tolerance,
    /// 2 NOT FINITE: a side of the mark's box is not finite.
    NotFinite,
    /// 4 FULL: all usable entries of the table are taken.
    Full,
    /// 5 NO MARK: there is no mark at the position.
    NoMark,
    /// 6 OFF GRID: a coordinate is no grid number.
    OffGrid,
    /// 7 OFF PAGE: a coordinate, or an offset, is not on the page; a call that moves all marks names the lowest one
    /// concerned.
    OffPage {
        /// The position of the mark, where the call names one.
        mark: Option<usize>,
    },
    /// 8 TOO SMALL: there are more elements than places.
    TooSmall,
    /// The path of a mark is refused: what the shape says, with its number and name, beside the mark's position.
    Path(MarkFault),
}

impl SheetFault {
    /// The number of the refusal; of a refused path, the shape's own.
    pub fn number(self) -> u8
        ensures { result ≡ number_of self }
    {
        match self {
            SheetFault::Tolerance => 1,
            SheetFault::NotFinite => 2,
            SheetFault::Full => 4,
            SheetFault::NoMark => 5,
            SheetFault::OffGrid => 6,
            SheetFault::OffPage { mark: _ } => 7,
            SheetFault::TooSmall => 8,
            SheetFault::Path(f) => f.fault.number(),
        }
    }

    /// The name of the refusal; of a refused path, the shape's own.
    pub fn name(self) -> &'static str
        ensures { result.now ≡ name_of self }
    {
        match self {
            SheetFault::Tolerance => "TOLERANCE",
            SheetFault::NotFinite => "NOT FINITE",
            SheetFault::Full => "FULL",
            SheetFault::NoMark => "NO MARK",
            SheetFault::OffGrid => "OFF GRID",
            SheetFault::OffPage { mark: _ } => "OFF PAGE",
            SheetFault::TooSmall => "TOO SMALL",
            SheetFault::Path(f) => f.fault.name(),
        }
    }
}

// The number and the name, and then the mark and the corner where they are named.
impl fmt::Display for SheetFault {
    ghost output = { λ f. Some (text_of f) };

    fn fmt<W: fmt::Write>(&self, f: &mut fmt::Formatter<W>) -> fmt::Result {
        let number = self.number();
        let name = self.name();
        match self {
            SheetFault::OffPage { mark: Some(mark) } => write!(f, "{number} {name} at mark {mark}"),
            SheetFault::Path(path) => {
                let mark = path.position;
                match path.fault {
                    ShapeFault::TooFine {
                        corner: Some(corner),
                    } => write!(f, "{number} {name} at mark {mark} corner {corner}"),
                    _ => write!(f, "{number} {name} at mark {mark}"),
                }
            }
            _ => write!(f, "{number} {name}"),
        }
    }
}

impl From<MarkFault> for SheetFault {
    ghost from_gives = { λ f r. r ≡ of_mark f };

    fn from(fault: MarkFault) -> SheetFault {
        SheetFault::Path(fault)
    }
}

impl From<PageFault> for SheetFault {
    ghost from_gives = { λ f r. r ≡ of_point f };

    fn from(fault: PageFault) -> SheetFault {
        match fault {
            PageFault::OffGrid => SheetFault::OffGrid,
            PageFault::OffPage => SheetFault::OffPage { mark: None },
        }
    }
}
