//! The words of a line, from left to right.
ghost use Rattle.std.specs.Prelude.{◌≡◌};
ghost use Rattle.orders.specs.Words.{words_of};
ghost use Rattle.orders.specs.Reasons.{reason_of};
ghost use Rattle.orders.specs.Runs.{run, next, after, word, end, number, position, allowance, numbers, six, two, number_of, position_of, allowance_of, size_of};
ghost use Rattle.orders.specs.Views.{left_of, Reads, Answers};

use super::unreadable::Unreadable;
use plane::affine::Affine;
use plane::point::Point;
use std::str::SplitWhitespace;

// The words of a line that are still to be read, and how far a run of numbers among them has come.
#[derive(Drop)]
pub(crate) struct Words<'a> {
    left: SplitWhitespace<'a>,
    wanted: usize,
    given: usize,
}

impl<'a> Words<'a> {
    // All words of a line.
    pub(crate) fn new(text: &'a str) -> Words<'a>
        ensures { left_of result ≡ run 0 (words_of text.now) }
    {
        Words {
            left: text.split_whitespace(),
            wanted: 0,
            given: 0,
        }
    }

    // The next word, or '' at the end of the line, since no word is ''.
    pub(crate) fn word(&mut self) -> &'a str
        ensures word { result.now ≡ word (left_of self.old) }
        ensures left { left_of self.new ≡ after (left_of self.old) }
    {
        let word = self.left.next().unwrap_or("");
        if !word.is_empty() {
            self.given = self.given.saturating_add(1);
        }
        word
    }

    // Begins a run of so many numbers.
    pub(crate) fn run(&mut self, wanted: usize)
        ensures { left_of self.new ≡ run wanted (left_of self.old).words }
    {
        self.wanted = wanted;
        self.given = 0;
    }

    // The next word of the run.
    #[tactic(auto, unfolding(crate::specs::Runs::next))]
    fn next_of_run(&mut self) -> Result<&'a str, Unreadable<'a>>
        ensures { Reads (λ w. w.now) result (next (left_of self.old)) (left_of self.new) }
    {
        match self.word() {
            "" => Err(self.miscount()),
            word => Ok(word),
        }
    }

    // The next word of the run, a number.
    #[tactic(auto, unfolding(crate::specs::Runs::number))]
    pub(crate) fn number(&mut self) -> Result<f64, Unreadable<'a>>
        ensures { Reads (λ x. x) result (number (left_of self.old)) (left_of self.new) }
    {
        number(self.next_of_run()?)
    }

    // The next word of the run, a position.
    #[tactic(auto, unfolding(crate::specs::Runs::position))]
    pub(crate) fn position(&mut self) -> Result<usize, Unreadable<'a>>
        ensures { Reads (λ x. x) result (position (left_of self.old)) (left_of self.new) }
    {
        position(self.next_of_run()?)
    }

    // The next word of the run, an allowance of steps.
    #[tactic(auto, unfolding(crate::specs::Runs::allowance))]
    pub(crate) fn allowance(&mut self) -> Result<u32, Unreadable<'a>>
        ensures { Reads (λ x. x) result (allowance (left_of self.old)) (left_of self.new) }
    {
        allowance(self.next_of_run()?)
    }

    // The next `N` words of the run, a number each.
    pub(crate) fn numbers<const N: usize>(&mut self) -> Result<[f64; N], Unreadable<'a>>
        ensures { Reads (λ xs. xs) result (numbers N (left_of self.old)) (left_of self.new) }
    {
        let mut values = [0.0; N];
        for value in values.iter_mut() {
            *value = self.number()?;
        }
        Ok(values)
    }

    // The next six numbers of the run, those of a move.
    #[tactic(auto, unfolding(crate::specs::Runs::six))]
    pub(crate) fn affine(&mut self) -> Result<Affine, Unreadable<'a>>
        ensures { Reads (λ m. m) result (six (left_of self.old)) (left_of self.new) }
    {
        let [a, b, c, d, e, f] = self.numbers::<6>()?;
        Ok(Affine::new(a, b, c, d, e, f))
    }

    // The two coordinates of a point, which are a run of their own.
    #[tactic(auto, unfolding(crate::specs::Runs::two))]
    pub(crate) fn point(&mut self) -> Result<Point, Unreadable<'a>>
        ensures { Reads (λ p. p) result (two (left_of self.old)) (left_of self.new) }
    {
        self.run(2);
        let [x, y] = self.numbers::<2>()?;
        Ok(Point::new(x, y))
    }

    // That the line ends with the run.
    #[tactic(auto, unfolding(crate::specs::Runs::end))]
    pub(crate) fn end(&mut self) -> Result<(), Unreadable<'a>>
        ensures { Answers (λ x. x) result (end (left_of self.old)) }
    {
        match self.word() {
            "" => Ok(()),
            _ => Err(self.miscount()),
        }
    }

    // That the run has too few words or too many: those that were read and all that follow.
    pub(crate) fn miscount(&mut self) -> Unreadable<'a>
        ensures { reason_of result ≡ (left_of self.old).miscount }
    {
        while !self.word().is_empty() {}
        let (wanted, given) = (self.wanted, self.given);
        Unreadable::Count { wanted, given }
    }
}

// The number that a word is, as Rust reads it.
#[tactic(auto, unfolding(crate::specs::Runs::number_of))]
fn number(word: &str) -> Result<f64, Unreadable<'_>>
    ensures { Answers (λ x. x) result (number_of word.now) }
{
    word.parse().map_err(|_| Unreadable::NoNumber(word))
}

// The position that a word is.
#[tactic(auto, using(crate::proofs::Numbers::whole_is), unfolding(crate::specs::Runs::position_of))]
pub(crate) fn position(word: &str) -> Result<usize, Unreadable<'_>>
    ensures { Answers (λ x. x) result (position_of word.now) }
{
    word.parse().map_err(|_| Unreadable::NoPosition(word))
}

// The allowance of steps that a word is.
#[tactic(auto, using(crate::proofs::Numbers::whole_is), unfolding(crate::specs::Runs::allowance_of))]
fn allowance(word: &str) -> Result<u32, Unreadable<'_>>
    ensures { Answers (λ x. x) result (allowance_of word.now) }
{
    word.parse().map_err(|_| Unreadable::NoAllowance(word))
}

// The size that a word is, `most` at most.
#[tactic(auto, using(crate::proofs::Numbers::whole_is), unfolding(crate::specs::Runs::size_of))]
pub(crate) fn size(word: &str, most: usize) -> Result<usize, Unreadable<'_>>
    ensures { Answers (λ x. x) result (size_of most word.now) }
{
    match word.parse() {
        Ok(size) if size <= most => Ok(size),
        _ => Err(Unreadable::NoSize { word, most }),
    }
}
