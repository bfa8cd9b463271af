//! Why a line cannot be read.
ghost use Rattle.std.specs.Prelude.{◌≡◌, Some};
ghost use Rattle.orders.specs.Reasons.{reason_of};

use super::escaped::Escaped;
use std::fmt;

/// Why a line cannot be read: its bytes are no text, or else the first fault that is met from left to right.
#[derive(Clone, Copy)]
pub enum Unreadable<'a> {
    /// Its bytes are no text.
    NoText,
    /// This word stands in the place of an order.
    NoOrder(&'a str),
    /// This word stands in the place of a shape.
    NoShape(&'a str),
    /// It has too few numbers or too many.
    Count {
        /// How many numbers are wanted.
        wanted: usize,
        /// How many words stand in their place.
        given: usize,
    },
    /// A covering ends after its upper shape.
    NoOver,
    /// This word stands in the place of a number.
    NoNumber(&'a str),
    /// This word stands in the place of a position.
    NoPosition(&'a str),
    /// This word stands in the place of an allowance of steps.
    NoAllowance(&'a str),
    /// This word stands in the place of a question about a covering.
    NoQuestion(&'a str),
    /// After a point's coordinates stands something else than a key.
    NoKey,
    /// A page has no name, or more words than a name and two sizes.
    NoPage,
    /// This word stands in the place of a size.
    NoSize {
        /// The word.
        word: &'a str,
        /// What the size can be at most.
        most: usize,
    },
}

/// What a line that cannot be read may have been meant to do.
#[derive(Clone, Copy, Debug, PartialEq, Eq)]
pub enum Intent {
    /// It begins a page.
    Page,
    /// It may alter a sheet.
    Change,
    /// It asks a question.
    Question,
}

impl fmt::Display for Unreadable<'_> {
    ghost output = { λ u. Some (reason_of u) };

    fn fmt<W: fmt::Write>(&self, f: &mut fmt::Formatter<W>) -> fmt::Result {
        match self {
            Unreadable::NoText => f.write_str("not UTF-8 text"),
            Unreadable::NoOrder(word) => write!(f, "'{}' is no order", Escaped(word)),
            Unreadable::NoShape(word) => write!(f, "'{}' is no shape", Escaped(word)),
            Unreadable::Count { wanted: 1, given } => write!(f, "1 number wanted, {given} there"),
            Unreadable::Count { wanted, given } => write!(
                f,
                "{wanted} numbers wanted, {given} there"
            ),
            Unreadable::NoOver => f.write_str("'over' is wanted"),
            Unreadable::NoNumber(word) => write!(f, "'{}' is no number", Escaped(word)),
            Unreadable::NoPosition(word) => write!(f, "'{}' is no position", Escaped(word)),
            Unreadable::NoAllowance(word) => write!(f, "'{}' is no allowance", Escaped(word)),
            Unreadable::NoQuestion(word) => write!(f, "'{}' is no question", Escaped(word)),
            Unreadable::NoKey => f.write_str("a key is 'within POSITION' or 'outside'"),
            Unreadable::NoPage => f.write_str("a page has a name, and then at most two sizes"),
            Unreadable::NoSize { word, most } => write!(
                f,
                "'{}' is no size up to {most}",
                Escaped(word)
            ),
        }
    }
}
