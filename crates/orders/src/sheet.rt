//! The orders to a sheet, of marks or of frames.
ghost use Rattle.std.specs.Prelude.{◌≡◌};
ghost use Rattle.orders.specs.Runs.{run, end};
ghost use Rattle.orders.specs.Sheets.{order, call, put, shift, shift_all, last_position, last_point, last_tolerance, placed, moved};
ghost use Rattle.orders.specs.Moved.{move_of};
ghost use Rattle.orders.specs.Views.{left_of, Reads, Answers, placement_of};

use super::kinds::Named;
use super::order::SheetOrder;
use super::set_point::read_set;
use super::unreadable::Unreadable;
use super::words::Words;
use layers::fault::MoveFault;
use layers::moves::Move;
use plane::affine::Affine;
use plane::point::Point;
use sheets::order::Order;

// A set point or a call, or why the numbers of the call make no move.
#[tactic(auto, using(crate::proofs::Others::other), unfolding(crate::specs::Sheets::order))]
pub(crate) fn read_order<'a, M: Named>(
    words: &mut Words<'a>,
) -> Result<Result<SheetOrder<M>, MoveFault>, Unreadable<'a>>
    ensures { Answers (λ o. o) result (order M.reads (left_of words.old)) }
{
    match words.word() {
        "set" => Ok(Ok(SheetOrder::Set(read_set(words)?))),
        word => Ok(read_call(word, words)?.map(SheetOrder::Call)),
    }
}

// A call, by the word that names it and those after it.
#[tactic(auto, using(crate::proofs::Others::other), unfolding(crate::specs::Sheets::call))]
fn read_call<'a, M: Named>(
    word: &'a str,
    words: &mut Words<'a>,
) -> Result<Result<Order<M>, MoveFault>, Unreadable<'a>>
    ensures { Answers (λ o. o) result (call M.reads word.now (left_of words.old)) }
{
    match word {
        "put" => read_put(words),
        "shift" => read_shift(words),
        "shift_all" => read_shift_all(words),
        "lift" => Ok(Ok(Order::Lift(read_lifted(words)?))),
        "winding" => Ok(Ok(Order::Winding(read_point(words)?))),
        "top" => Ok(Ok(Order::Top(read_point(words)?))),
        "bounding_box" => {
            read_nothing(words)?;
            Ok(Ok(Order::BoundingBox))
        }
        "draw" => Ok(Ok(Order::Draw(read_tolerance(words)?))),
        _ => Err(Unreadable::NoOrder(word)),
    }
}

// A mark, and its first move.
#[tactic(auto, unfolding(crate::specs::Sheets::put))]
fn read_put<'a, M: Named>(
    words: &mut Words<'a>,
) -> Result<Result<Order<M>, MoveFault>, Unreadable<'a>>
    ensures { Answers (λ o. o) result (put M.reads (left_of words.old)) }
{
    let Placed { mark, by, next } = read_placed(words)?;
    if !next.is_empty() {
        return Err(words.miscount());
    }
    Ok(read_move(by).map(|by| Order::Put(mark, by)))
}

// A position, and the move of the mark there.
#[tactic(auto, unfolding(crate::specs::Sheets::shift))]
fn read_shift<'a, M: Named>(
    words: &mut Words<'a>,
) -> Result<Result<Order<M>, MoveFault>, Unreadable<'a>>
    ensures { Answers (λ o. o) result (shift (left_of words.old)) }
{
    words.run(7);
    let position = words.position()?;
    let by = words.affine()?;
    words.end()?;
    Ok(read_move(by).map(|by| Order::Shift(position, by)))
}

// The move of all marks.
#[tactic(auto, unfolding(crate::specs::Sheets::shift_all))]
fn read_shift_all<'a, M: Named>(
    words: &mut Words<'a>,
) -> Result<Result<Order<M>, MoveFault>, Unreadable<'a>>
    ensures { Answers (λ o. o) result (shift_all (left_of words.old)) }
{
    words.run(6);
    let by = words.affine()?;
    words.end()?;
    Ok(read_move(by).map(|by| Order::ShiftAll(by)))
}

// The move with these numbers.
fn read_move(by: Affine) -> Result<Move, MoveFault>
    ensures { result ≡ move_of by }
{
    Move::new(by)
}

// The position of a mark to be lifted, and nothing after it.
#[tactic(auto, unfolding(crate::specs::Sheets::last_position))]
fn read_lifted<'a>(words: &mut Words<'a>) -> Result<usize, Unreadable<'a>>
    ensures { Answers (λ n. n) result (last_position (left_of words.old)) }
{
    words.run(1);
    let position = words.position()?;
    words.end()?;
    Ok(position)
}

// A point, and nothing after it.
#[tactic(auto, unfolding(crate::specs::Sheets::last_point))]
pub(crate) fn read_point<'a>(words: &mut Words<'a>) -> Result<Point, Unreadable<'a>>
    ensures { Answers (λ p. p) result (last_point (left_of words.old)) }
{
    let pt = words.point()?;
    words.end()?;
    Ok(pt)
}

// A tolerance, and nothing after it.
#[tactic(auto, unfolding(crate::specs::Sheets::last_tolerance))]
pub(crate) fn read_tolerance<'a>(words: &mut Words<'a>) -> Result<f64, Unreadable<'a>>
    ensures { Answers (λ t. t) result (last_tolerance (left_of words.old)) }
{
    words.run(1);
    let tolerance = words.number()?;
    words.end()?;
    Ok(tolerance)
}

// That nothing follows.
pub(crate) fn read_nothing<'a>(words: &mut Words<'a>) -> Result<(), Unreadable<'a>>
    ensures { Answers (λ x. x) result (end (run 0 (left_of words.old).words)) }
{
    words.run(0);
    words.end()
}

// A mark, the numbers of its move, and the word after them, or ''.
#[derive(Drop)]
pub(crate) struct Placed<'a, M> {
    pub(crate) mark: M,
    pub(crate) by: Affine,
    pub(crate) next: &'a str,
}

// A shape with its numbers, and its move.
#[tactic(auto, unfolding(crate::specs::Sheets::placed))]
pub(crate) fn read_placed<'a, M: Named>(
    words: &mut Words<'a>,
) -> Result<Placed<'a, M>, Unreadable<'a>>
    ensures { Reads placement_of result (placed M.reads (left_of words.old)) (left_of words.new) }
{
    let mark = M::read(words)?;
    read_by(mark, words)
}

// The mark with the move after `by`. Where there is none, it lies as it is.
#[tactic(auto, using(crate::proofs::Others::other), unfolding(crate::specs::Sheets::moved))]
fn read_by<'a, M: Named>(mark: M, words: &mut Words<'a>) -> Result<Placed<'a, M>, Unreadable<'a>>
    ensures { Reads placement_of result (moved mark (left_of words.old)) (left_of words.new) }
{
    match words.word() {
        "by" => {
            words.run(6);
            let by = words.affine()?;
            let next = words.word();
            Ok(Placed { mark, by, next })
        }
        next => Ok(Placed {
            mark,
            by: Move::unmoved().numbers(),
            next,
        }),
    }
}
