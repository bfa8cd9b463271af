//! Set points with their keys.
ghost use Rattle.std.specs.Prelude.{◌≡◌};
ghost use Rattle.orders.specs.SetPoints.{set_point, within};
ghost use Rattle.orders.specs.SetPoints.{key as next_key};
ghost use Rattle.orders.specs.Views.{left_of, Reads, Answers};

use super::order::SetPoint;
use super::unreadable::Unreadable;
use super::words::{Words, position};

// A point, and its key, and nothing after it.
#[tactic(auto, using(crate::proofs::Others::other), unfolding(crate::specs::SetPoints::set_point))]
pub(crate) fn read_set<'a>(words: &mut Words<'a>) -> Result<SetPoint, Unreadable<'a>>
    ensures { Answers (λ p. p) result (set_point (left_of words.old)) }
{
    let at = words.point()?;
    let key = read_key(words)?;
    match words.word() {
        "" => Ok(SetPoint { at, key }),
        _ => Err(Unreadable::NoKey),
    }
}

// The position of the mark that should be uppermost, or nothing.
#[tactic(auto, using(crate::proofs::Others::other), unfolding(crate::specs::SetPoints::key))]
fn read_key<'a>(words: &mut Words<'a>) -> Result<Option<usize>, Unreadable<'a>>
    ensures { Reads (λ k. k) result (next_key (left_of words.old)) (left_of words.new) }
{
    match words.word() {
        "within" => Ok(Some(read_within(words)?)),
        "outside" => Ok(None),
        _ => Err(Unreadable::NoKey),
    }
}

// The position after `within`.
#[tactic(auto, using(crate::proofs::Others::other), unfolding(crate::specs::SetPoints::within))]
fn read_within<'a>(words: &mut Words<'a>) -> Result<usize, Unreadable<'a>>
    ensures { Reads (λ n. n) result (within (left_of words.old)) (left_of words.new) }
{
    match words.word() {
        "" => Err(Unreadable::NoKey),
        word => position(word),
    }
}
