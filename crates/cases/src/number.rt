//! Numbers as a list of cases has them, and when two of them agree.
ghost use Rattle.std.specs.Prelude.{◌≡◌, ◌^◌, ◌<◌, Some};
ghost use Rattle.std.specs.Result.{result_ok};
ghost use Rattle.cases.specs.Texts.{Finds, Writes, hex_digit, hexadecimal, written};
ghost use Rattle.cases.specs.Equal.{same_bits, same_value as of_one_value};

use std::fmt;
use std::num::{f64_from_bits_with_nan, f64_to_bits_with_nan};
use std::str::FromStr;

/// A number, as a list has it: `nan`, or the sixteen digits of the bits of any other number.
#[derive(Clone, Copy, Debug)]
pub struct Number(pub f64);

/// A word that is no number.
#[derive(Clone, Copy, Debug, PartialEq, Eq)]
pub struct NoNumber;

impl FromStr for Number {
    type Err = NoNumber;

    ghost from_str_gives = { λ word r. Finds (λ n. Writes word n.0) (result_ok r) };

    fn from_str(word: &str) -> Result<Number, NoNumber> {
        if word == "nan" {
            return Ok(Number(f64::NAN));
        }
        let x = f64_from_bits_with_nan(sixteen_digits(word).ok_or(NoNumber)?);
        if x.is_nan() {
            return Err(NoNumber);
        }
        Ok(Number(x))
    }
}

impl fmt::Display for Number {
    ghost output = { λ n. Some (written n.0) };

    fn fmt<W: fmt::Write>(&self, f: &mut fmt::Formatter<W>) -> fmt::Result {
        let Number(x) = *self;
        if x.is_nan() {
            f.write_str("nan")
        } else {
            let bits = f64_to_bits_with_nan(x);
            write!(f, "{bits:016x}")
        }
    }
}

/// Whether the bits agree. Every not-a-number is alike, and the two zeros are not.
pub fn same_bits(a: f64, b: f64) -> bool
    ensures { result ≡ same_bits a b }
{
    f64_to_bits_with_nan(a) == f64_to_bits_with_nan(b)
}

/// Whether the values agree. The two zeros do, and not-a-number is one value.
pub fn same_value(a: f64, b: f64) -> bool
    ensures { result ≡ of_one_value a b }
{
    a == b || (a.is_nan() && b.is_nan())
}

// The number with these sixteen digits. Std's own reading takes capitals and a sign too: with a test for those before it,
// each byte would be read twice.
fn sixteen_digits(word: &str) -> Option<u64>
    ensures { Finds (λ n. (n < 2 ^ 64) × (word.now ≡ hexadecimal 16 n)) result }
{
    if word.len() != 16 {
        return None;
    }
    let mut value = 0;
    for byte in word.as_bytes() {
        value = value * 16 + digit(*byte)?;
    }
    Some(value)
}

fn digit(byte: u8) -> Option<u64>
    ensures { Finds (λ d. (d < 16) × (byte ≡ hex_digit d)) result }
{
    match byte {
        b'0'..=b'9' => Some(u64::from(byte - b'0')),
        b'a'..=b'f' => Some(u64::from(byte - b'a' + 10)),
        _ => None,
    }
}
