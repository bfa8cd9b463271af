//! When two answers agree.
ghost use Rattle.std.specs.Prelude.{◌≡◌, IsTrue};
ghost use Rattle.comparison.specs.Agree.{AgreeBy, SameWord, equal};

use cases::number::{Number, same_bits, same_value};
use questions::question::Kind;

/// Whether two numbers are the same in answers of this kind. The sign of a zero counts in an ellipse, whose angle
/// depends on it.
pub fn same_number(kind: Kind, x: f64, y: f64) -> bool
    ensures { result ≡ equal kind x y }
{
    match kind {
        Kind::Ellipse => same_bits(x, y),
        _ => same_value(x, y),
    }
}

/// Whether two answers of this kind have the same words, the numbers among them compared as numbers.
pub fn same_words(got: &str, expected: &str, kind: Kind) -> bool
    ensures { IsTrue result → AgreeBy (λ x y. IsTrue (equal kind x y)) got.now expected.now }
{
    let mut others = expected.split_whitespace();
    for word in got.split_whitespace() {
        let Some(other) = others.next() else {
            return false;
        };
        if !same_word(word, other, kind) {
            return false;
        }
    }
    others.next().is_none()
}

fn same_word(word: &str, other: &str, kind: Kind) -> bool
    ensures { IsTrue result → SameWord (λ x y. IsTrue (equal kind x y)) word.now other.now }
{
    match (word.parse(), other.parse()) {
        (Ok(Number(x)), Ok(Number(y))) => same_number(kind, x, y),
        _ => word == other,
    }
}
