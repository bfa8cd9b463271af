//! Why numbers make no move.
ghost use Rattle.std.specs.Prelude.{◌≡◌, Some};
ghost use Rattle.layers.specs.MoveFaults.{number_of, name_of, text_of, of_offset};

use plane::fault::PageFault;
use std::fmt;

/// Why an affine map is no move. The cases stand in the order in which they are tried.
#[derive(Clone, Copy, Debug, PartialEq, Eq)]
pub enum MoveFault {
    /// 10 NOT A TURN: (a, b, c, d) is none of the eight turns.
    NotATurn,
    /// 6 OFF GRID: e or f is no grid number, that is, no multiple of 1/256.
    OffGrid,
    /// 7 OFF PAGE: e or f is not on the page, which runs from -4096 to 4096.
    OffPage,
}

impl MoveFault {
    /// The number of the refusal: 10, 6 or 7.
    pub fn number(self) -> u8
        ensures { result ≡ number_of self }
    {
        match self {
            MoveFault::NotATurn => 10,
            MoveFault::OffGrid => 6,
            MoveFault::OffPage => 7,
        }
    }

    /// The name of the refusal: NOT A TURN, OFF GRID or OFF PAGE.
    pub fn name(self) -> &'static str
        ensures { result.now ≡ name_of self }
    {
        match self {
            MoveFault::NotATurn => "NOT A TURN",
            MoveFault::OffGrid => "OFF GRID",
            MoveFault::OffPage => "OFF PAGE",
        }
    }
}

// The number and the name.
impl fmt::Display for MoveFault {
    ghost output = { λ f. Some (text_of f) };

    fn fmt<W: fmt::Write>(&self, f: &mut fmt::Formatter<W>) -> fmt::Result {
        let number = self.number();
        let name = self.name();
        write!(f, "{number} {name}")
    }
}

// An offset is refused as a point of the page is.
impl From<PageFault> for MoveFault {
    ghost from_gives = { λ f r. r ≡ of_offset f };

    fn from(fault: PageFault) -> MoveFault {
        match fault {
            PageFault::OffGrid => MoveFault::OffGrid,
            PageFault::OffPage => MoveFault::OffPage,
        }
    }
}
