//! The square root, correctly rounded, by whole numbers alone.
//!
//! A number above 0 is taken apart into 53 binary digits and an exponent, which is made even. The
//! whole root of the digits is then found in four parts, of 7, 7, 13 and 26 binary digits: the first
//! from a table, each other by one division. What is left over says to which side to round.
ghost use Rattle.std.specs.Prelude.{◌≡◌, ◌+◌, ◌*◌, ◌^◌, ◌<◌, ◌≤◌, false, T, from_bits};
ghost use Rattle.std.specs.Float.Ieee.{lt, eq};
ghost use Rattle.std.specs.Float.Ieee.Exact.{HasValue};
ghost use Rattle.std.specs.Float as Floats;
ghost use Rattle.std.specs.Float.{float_zero, float_is_finite, binary64, nan, inf};
ghost use Rattle.elementary.specs.Roots.{NearestRoot, RootLaws, RootSpecimens, Guess, NearestWhole};

// The first root is found by the upper seven of 14 binary digits, from 32 on: the other seven count
// to 128.
const TABLE_STEP: u64 = 128;

const TABLE_START: u64 = 32;

// For each of these upper digits, the whole root of the largest number that begins with them.
const FIRST_ROOTS: [u8; 96] = [
    64, 65, 66, 67, 68, 69, 70, 71, 72, 73, 74, 75, 75, 76, 77, 78, 79, 79, 80, 81, 82, 83, 83, 84,
    85, 86, 86, 87, 88, 89, 89, 90, 91, 91, 92, 93, 93, 94, 95, 95, 96, 97, 97, 98, 99, 99, 100,
    101, 101, 102, 103, 103, 104, 104, 105, 106, 106, 107, 107, 108, 109, 109, 110, 110, 111, 111,
    112, 113, 113, 114, 114, 115, 115, 116, 117, 117, 118, 118, 119, 119, 120, 120, 121, 121, 122,
    122, 123, 123, 124, 124, 125, 125, 126, 126, 127, 127,
];

// The whole root of a number of 14 binary digits with the upper seven `high`, or one more: two
// numbers with the same upper digits have roots less than 1 apart.
fn first_root(high: u64) -> u64
    requires { (32 ≤ high) × (high < 128) }
    ensures { Guess high result }
{
    FIRST_ROOTS[(high - TABLE_START) as usize] as u64
}

// A whole root, and what is left of its number above the root's square: too little for a root of 1 more.
#[derive(Clone, Copy)]
struct Part {
    root: u64,
    rest: u64,
    ghost whole: { rest ≤ 2 * root },
}

impl Part {
    // The part of the number root² + left - square, whose whole root is `root`, or one less where more
    // is to be taken off than is left: one less has a square that is smaller by 2 * root - 1.
    fn settled(root: u64, left: u64, square: u64) -> Part
        requires not_too_small { left ≤ square + 2 * root }
        requires one_too_large_at_most { square < left + 2 * root }
        requires room { left + 2 * root < 2 ^ 64 }
        ensures { result.root * result.root + result.rest + square ≡ root * root + left }
    {
        if square <= left {
            Part {
                root,
                rest: left - square,
            }
        } else {
            Part {
                root: root - 1,
                rest: left + 2 * root - 1 - square,
            }
        }
    }

    // The whole root of an n of 13 or 14 binary digits.
    fn first(n: u64) -> Part
        requires { (2 ^ 12 ≤ n) × (n < 2 ^ 14) }
        ensures { result.root * result.root + result.rest ≡ n }
    {
        let root = first_root(n / TABLE_STEP);
        Part::settled(root, n, root * root)
    }

    // The whole root of a number that goes on with two more digits in `base`. The root gets one more
    // digit: the quotient by twice the root, or one less.
    fn extended(self, base: u64, upper: u64, lower: u64) -> Part
        requires small { (self.root < 2 ^ 27) × (base ≤ 2 ^ 26) }
        requires enough { base ≤ 2 * self.root }
        requires digits { (upper < base) × (lower < base) }
        ensures { result.root * result.root + result.rest ≡ (self.root * self.root + self.rest) * (base * base) + (upper * base + lower) }
    {
        let twice = 2 * self.root;
        let top = self.rest * base + upper;
        let digit = top / twice;
        Part::settled(
            self.root * base + digit,
            top % twice * base + lower,
            digit * digit,
        )
    }
}

// The bases of the parts of a root that follow its first seven binary digits: 7, 13 and 26 more
// make 53.
const SECOND: u64 = 0x80;

const THIRD: u64 = 0x2000;

const LAST: u64 = 0x400_0000;

// The whole number nearest to the root of d * 2^52. The 54 digits of d are used up by the third
// part, and zeros follow.
fn nearest_root(d: u64) -> u64
    requires { (2 ^ 52 ≤ d) × (d < 2 ^ 54) }
    ensures { NearestWhole (d * 2 ^ 52) result }
{
    let high = d / (THIRD * THIRD);
    let first = Part::first(high / (SECOND * SECOND));
    let second = first.extended(SECOND, high / SECOND % SECOND, high % SECOND);
    let third = second.extended(THIRD, d / THIRD % THIRD, d % THIRD);
    let last = third.extended(LAST, 0, 0);
    if last.root < last.rest {
        last.root + 1
    } else {
        last.root
    }
}

// The weight of the leading binary digit of a significand: 52 digits stand below it, and 11 places
// above it.
const LEAD: u64 = 0x10_0000_0000_0000;

const BELOW_LEAD: u64 = 52;

const ABOVE_LEAD: u64 = 11;

// A number above 0, taken apart: it is m * 2^(scale - 1126). The smallest, 2^-1074, is 2^52 at the
// scale 0, so no scale is below 0.
#[derive(Clone, Copy)]
struct Scaled {
    m: u64,
    scale: u64,
}

// The number above 0 with these bits, with an m of exactly 53 binary digits.
fn take_apart(bits: u64) -> Scaled
    requires { (0 < bits) × (bits < 0x7ff0_0000_0000_0000) }
    ensures digits { (2 ^ 52 ≤ result.m) × (result.m < 2 ^ 53) }
    ensures range { result.scale < 2098 }
    ensures value { HasValue (from_bits binary64 bits) false (result.m * 2 ^ result.scale) (2 ^ 1126) }
{
    let field = bits / LEAD;
    if field == 0 {
        // A subnormal number: its highest digit is moved to the place of the lead.
        let shift = bits.leading_zeros() as u64 - ABOVE_LEAD;
        Scaled {
            m: bits << shift,
            scale: BELOW_LEAD - shift,
        }
    } else {
        // A field of 1 has the scale of the subnormal numbers.
        Scaled {
            m: bits % LEAD + LEAD,
            scale: field + (BELOW_LEAD - 1),
        }
    }
}

// The exponent of a root, in units of 2^-1074, is half of its number's scale and this: the root of
// 2^-1126 is 2^-563, the whole root has 26 places more, and 1074 - 563 - 26 is 485.
const ROOT_SCALE: u64 = 485;

// The root of a number above 0. The whole root has 53 binary digits, as a significand has, and its
// leading digit adds 1 to the exponent's field. So a root is neither subnormal nor too large.
fn positive_root(x: f64) -> f64
    requires { (T (lt float_zero x)) × (T (float_is_finite x)) }
    ensures nearest { NearestRoot x result }
    ensures defined { result ≡ Floats.sqrt binary64 x }
{
    let s = take_apart(x.to_bits());
    let q = nearest_root(s.m * (1 + s.scale % 2));
    f64::from_bits((s.scale / 2 + ROOT_SCALE) * LEAD + q)
}

/// The square root of `x`, correctly rounded: the `f64` nearest to it. A tie never arises.
/// Either zero and the upper infinity give themselves; not-a-number and every number below 0 give
/// not-a-number.
pub fn sqrt(x: f64) -> f64
    ensures nearest { T (lt float_zero x) → T (float_is_finite x) → NearestRoot x result }
    ensures zeros { T (eq x float_zero) → result ≡ x }
    ensures infinity { x ≡ inf false → result ≡ inf false }
    ensures below { T (lt x float_zero) → result ≡ nan }
    ensures nothing { x ≡ nan → result ≡ nan }
    ensures defined { result ≡ Floats.sqrt binary64 x }
{
    if x > 0.0 && x < f64::INFINITY {
        positive_root(x)
    } else if x >= 0.0 {
        x
    } else {
        f64::NAN
    }
}

/// No number has two nearest roots, where an `f64` is the root exactly it is the nearest one, and a
/// larger number has no smaller root.
pub fn root_laws()
    ensures { RootLaws }
{}

/// The roots of 0.25, 4, 9, 144, 2^-1074 and 2, of the largest number below 1 and the largest of all,
/// which come nearest to a tie, and of the square of 1 + 2^-52, rounded.
pub fn root_specimens()
    ensures { RootSpecimens }
{}

#[cfg(test)]
mod tests {
    use super::*;

    #[test]
    fn roots(rt: HostRuntime) {
        assert_eq!(rt; sqrt(4.0), 2.0);
        assert_eq!(rt; sqrt(2.0), 1.4142135623730951);
        assert_eq!(rt; sqrt(0.25), 0.5);
        assert_eq!(rt; sqrt(f64::MAX), 1.3407807929942596e154);
        assert_eq!(rt; sqrt(5e-324), 2.2227587494850775e-162);
        assert_eq!(rt; sqrt(2.2250738585072009e-308), 1.4916681462400412e-154);
    }

    #[test]
    fn edges(rt: HostRuntime) {
        assert_eq!(rt; 1.0 / sqrt(0.0), f64::INFINITY);
        assert_eq!(rt; 1.0 / sqrt(-0.0), f64::NEG_INFINITY);
        assert_eq!(rt; sqrt(f64::INFINITY), f64::INFINITY);
        assert!(rt; sqrt(f64::NEG_INFINITY).is_nan());
        assert!(rt; sqrt(-5e-324).is_nan());
        assert!(rt; sqrt(f64::NAN).is_nan());
    }
}
