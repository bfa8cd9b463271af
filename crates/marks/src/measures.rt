//! The area, the length and the box of a mark.
ghost use Rattle.std.specs.Prelude.{◌≡◌};
ghost use Rattle.marks.specs.Measured.{measures_of, plain as plain_measures, oval_measures};

use super::mark::Mark;
use ellipses::ellipse::Ellipse;
use plane::fault::ShapeFault;
use plane::rect::Rect;

/// What is measured of a mark.
#[derive(Clone, Copy)]
pub struct Measures {
    /// The area. A reversed rectangle and a triangle that turns the other way have a negative one.
    pub area: f64,
    /// The length of the outline.
    pub perimeter: f64,
    /// The box.
    pub bounding_box: Rect,
    /// The steps that the length took, where it is found by steps: that of an ellipse is.
    pub steps: Option<u32>,
}

impl Mark {
    /// The mark's area, the length of its outline and its box. Only an ellipse's length asks for an accuracy and an
    /// allowance of steps, which other marks leave aside. It refuses with 9 STEPS where the allowance is spent before
    /// the length is known.
    pub fn measures(&self, accuracy: f64, allowance: u32) -> Result<Measures, ShapeFault>
        ensures { result ≡ measures_of self.now accuracy allowance }
    {
        match self {
            Mark::Rect(s) => Ok(plain(s.area(), s.perimeter(), s.bounding_box())),
            Mark::Circle(s) => Ok(plain(s.area(), s.perimeter(), s.bounding_box())),
            Mark::Triangle(s) => Ok(plain(s.area(), s.perimeter(), s.bounding_box())),
            Mark::RoundedRect(s) => Ok(plain(s.area(), s.perimeter(), s.bounding_box())),
            Mark::Ellipse(s) => oval(*s, accuracy, allowance),
        }
    }
}

// Measures that take no steps.
const fn plain(area: f64, perimeter: f64, bounding_box: Rect) -> Measures
    ensures { result ≡ plain_measures area perimeter bounding_box }
{
    Measures {
        area,
        perimeter,
        bounding_box,
        steps: None,
    }
}

// An ellipse's, whose length takes steps.
fn oval(ellipse: Ellipse, accuracy: f64, allowance: u32) -> Result<Measures, ShapeFault>
    ensures { result ≡ oval_measures ellipse accuracy allowance }
{
    let (perimeter, steps) = ellipse.perimeter(accuracy, allowance)?;
    Ok(Measures {
        area: ellipse.area(),
        perimeter,
        bounding_box: ellipse.bounding_box(),
        steps: Some(steps),
    })
}
