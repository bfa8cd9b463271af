//! What the orders of a sitting are answered.
ghost use Rattle.std.specs.Prelude.{◌≡◌};
ghost use Rattle.exam.specs.Replies.{elements_in, is_refused, is_right, verdict};

use layers::fault::MoveFault;
use marks::measures::Measures;
use plane::fault::ShapeFault;
use sheets::fault::SheetFault;
use sheets::order::Answer;

/// What an order of a sitting is answered.
#[derive(Clone, Copy)]
pub enum Reply {
    /// What a sheet answers, or a piece.
    Said(Answer),
    /// Whether the key of a set point says what is found at it.
    Right(bool),
    /// The measures of a shape.
    Measures(Measures),
    /// Why a shape has no measures, or a piece no path.
    Shape(ShapeFault),
    /// Why numbers make no move.
    Move(MoveFault),
}

impl Reply {
    /// The verdict on a set point with this key, where a sheet of so many marks gives `answer` to the question which mark
    /// is uppermost: right exactly if that is what the key says. A refusal stays one, and then a key that names no mark
    /// is refused with 5 NO MARK.
    pub fn verdict(key: Option<usize>, marks: usize, answer: Answer) -> Reply
        ensures { result ≡ verdict key marks answer }
    {
        let Answer::Top(top) = answer else {
            return Reply::Said(answer);
        };
        match key {
            Some(position) if position >= marks => Reply::Said(Answer::Refused(SheetFault::NoMark)),
            _ => Reply::Right(top == key),
        }
    }

    /// How many drawn elements it counts.
    pub fn elements(&self) -> usize
        ensures { result ≡ elements_in self.now }
    {
        match self {
            Reply::Said(answer) => answer.elements(),
            _ => 0,
        }
    }

    /// Whether it is a refusal.
    pub fn is_refused(&self) -> bool
        ensures { result ≡ is_refused self.now }
    {
        matches!(
            self,
            Reply::Said(Answer::Refused(_)) | Reply::Shape(_) | Reply::Move(_)
        )
    }

    /// Whether it is a verdict that the key is right.
    pub fn is_right(&self) -> bool
        ensures { result ≡ is_right self.now }
    {
        matches!(self, Reply::Right(true))
    }
}
