//! Questions about a covering of two shapes, on no sheet.
ghost use Rattle.std.specs.Prelude.{◌≡◌};
ghost use Rattle.orders.specs.Covers.{cover, question};
ghost use Rattle.orders.specs.Values.{covering};
ghost use Rattle.orders.specs.Covers.{upper as upper_shape};
ghost use Rattle.orders.specs.Views.{left_of, Reads, Answers};

use super::order::{CoverQuery, Question};
use super::sheet::{Placed, read_nothing, read_placed, read_point, read_tolerance};
use super::unreadable::Unreadable;
use super::words::Words;
use layers::fault::MoveFault;
use layers::moves::Move;
use layers::placing::Placing;
use marks::mark::Mark;
use pieces::piece::Piece;
use plane::affine::Affine;

// An upper shape over a lower one, and a question about them; or why the numbers of a move make none, the upper's
// before the lower's.
#[tactic(auto, unfolding(crate::specs::Covers::cover))]
pub(crate) fn read_cover<'a>(
    words: &mut Words<'a>,
) -> Result<Result<CoverQuery, MoveFault>, Unreadable<'a>>
    ensures { Answers (λ a. a) result (cover (left_of words.old)) }
{
    let (upper, upper_by) = read_upper(words)?;
    let Placed { mark, by, next } = read_placed(words)?;
    let question = read_question(next, words)?;
    Ok(cover(upper, upper_by, mark, by).map(|piece| CoverQuery { piece, question }))
}

// The upper shape with the numbers of its move, up to `over`.
#[tactic(auto, using(crate::proofs::Others::other), unfolding(crate::specs::Covers::upper, crate::specs::Covers::up_to_over))]
fn read_upper<'a>(words: &mut Words<'a>) -> Result<(Mark, Affine), Unreadable<'a>>
    ensures { Reads (λ u. u) result (upper_shape (left_of words.old)) (left_of words.new) }
{
    let Placed { mark, by, next } = read_placed(words)?;
    match next {
        "over" => Ok((mark, by)),
        "" => Err(Unreadable::NoOver),
        _ => Err(words.miscount()),
    }
}

// What is asked, by the word that says so and those after it.
#[tactic(auto, using(crate::proofs::Others::other), unfolding(crate::specs::Covers::question))]
fn read_question<'a>(word: &'a str, words: &mut Words<'a>) -> Result<Question, Unreadable<'a>>
    ensures { Answers (λ q. q) result (question word.now (left_of words.old)) }
{
    match word {
        "winding" => Ok(Question::Winding(read_point(words)?)),
        "bounding_box" => {
            read_nothing(words)?;
            Ok(Question::BoundingBox)
        }
        "draw" => Ok(Question::Draw(read_tolerance(words)?)),
        _ => Err(Unreadable::NoQuestion(word)),
    }
}

// The covering, each shape placed by its move.
#[tactic(auto, unfolding(crate::specs::Values::covering))]
fn cover(upper: Mark, upper_by: Affine, lower: Mark, lower_by: Affine) -> Result<Piece, MoveFault>
    ensures { result ≡ covering upper upper_by lower lower_by }
{
    let upper = Placing::new(Move::new(upper_by)?, upper);
    let lower = Placing::new(Move::new(lower_by)?, lower);
    Ok(Piece::cover(upper, lower))
}
