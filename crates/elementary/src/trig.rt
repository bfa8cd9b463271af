//! Sine, cosine, tangent, and the angle of a vector.
ghost use Rattle.std.specs.Prelude.{◌≡◌};
ghost use Rattle.std.specs.Float.{binary64};
ghost use Rattle.std.specs.Float.Ieee.{mul};
ghost use Rattle.elementary.specs.Angles.{one, folded, series as series_of, near_sine, near_cosine, turned, quarters, quarter as quarter_of, left_over, sin_cos, tangent, slope as slope_of, nearer as nearer_to, small_angle, first_quarter, first_half, angle};

use std::f64::consts::{FRAC_2_PI, FRAC_PI_2, FRAC_PI_4, PI};
use std::num::saturating_f64_to_i64;

// Larger angles are not taken: 2²⁰.
const LARGEST: f64 = 1048576.0;

// What π/2 is more than the float nearest to it.
const FRAC_PI_2_REST: f64 = 6.123233995736766e-17;

// What the steps of the sine's series divide by, from the last term to the first: 14 × 15 down to 2 × 3.
const SINE_DIVISORS: [u8; 7] = [210, 156, 110, 72, 42, 20, 6];

// The same for the cosine: 15 × 16 down to 1 × 2.
const COSINE_DIVISORS: [u8; 8] = [240, 182, 132, 90, 56, 30, 12, 2];

/// The sine and the cosine of the angle `th`, in radians. Not-a-number twice unless |th| ≤ 2²⁰.
pub fn sin_cos(th: f64) -> (f64, f64)
    ensures { result ≡ sin_cos th }
{
    if th.abs() <= LARGEST {
        let k = quarters_of(th);
        let r = reduced(th, k);
        by_quarter(quarter(k), near_sin(r), near_cos(r))
    } else {
        (f64::NAN, f64::NAN)
    }
}

/// The tangent of the angle `th`: its sine over its cosine.
pub fn tan(th: f64) -> f64
    ensures { result ≡ tangent th }
{
    let (s, c) = sin_cos(th);
    s / c
}

// The whole number of quarter turns nearest to `th`, halves to even. A whole number 0 has no sign, so
// a zero is made +0.
fn quarters_of(th: f64) -> f64
    ensures { result ≡ quarters th }
{
    (th * FRAC_2_PI).round_ties_even() + 0.0
}

// What is left of `th` after `k` quarter turns.
const fn reduced(th: f64, k: f64) -> f64
    ensures { result ≡ left_over th k }
{
    (th - k * FRAC_PI_2) - k * FRAC_PI_2_REST
}

// The rest by 4 of the whole number `k`.
fn quarter(k: f64) -> u64
    ensures { result ≡ quarter_of k }
{
    saturating_f64_to_i64(k).rem_euclid(4) as u64
}

// The pair (s, c), turned by `n` quarters. A rest by 4 stays a number: to make an enum of it takes the
// same four cases.
const fn by_quarter(n: u64, s: f64, c: f64) -> (f64, f64)
    ensures { result ≡ turned n s c }
{
    match n {
        0 => (s, c),
        1 => (c, -s),
        2 => (-s, -c),
        _ => (-c, s),
    }
}

// One step of a series: 1 - (q / d) × p.
const fn step(q: f64, p: f64, d: u8) -> f64
    ensures { result ≡ folded q p d }
{
    1.0 - (q / d as f64) * p
}

// The sum of a series, from its last term to its first: from 1 on, a step for each divisor in turn.
fn series(q: f64, divisors: &[u8]) -> f64
    ensures { result ≡ series_of q one divisors.now }
{
    divisors.iter().fold(1.0, |p, d| step(q, p, *d))
}

// The sine near 0.
fn near_sin(r: f64) -> f64
    ensures { result ≡ near_sine r }
{
    r * series(r * r, &SINE_DIVISORS)
}

// The cosine near 0.
fn near_cos(r: f64) -> f64
    ensures { result ≡ near_cosine r }
{
    series(r * r, &COSINE_DIVISORS)
}

/// The angle of the vector (x, y), from −π to π, in radians: not-a-number if `x` or `y` is. A zero
/// counts by its sign, as a number of that sign would.
pub fn atan2(y: f64, x: f64) -> f64
    ensures { result ≡ angle y x }
{
    if x.is_nan() || y.is_nan() {
        return f64::NAN;
    }
    let a = in_first_quarter(x.abs(), y.abs());
    let b = in_first_half(x.is_sign_negative(), a);
    b.copysign(y)
}

// The angle of the vector (ax, ay), neither below 0.
fn in_first_quarter(ax: f64, ay: f64) -> f64
    ensures { result ≡ first_quarter ax ay }
{
    if ax < ay {
        FRAC_PI_2 - angle_of_slope(slope(ax, ay))
    } else {
        angle_of_slope(slope(ay, ax))
    }
}

// The angle `a`, or on the other side of a quarter turn.
const fn in_first_half(mirrored: bool, a: f64) -> f64
    ensures { result ≡ first_half mirrored a }
{
    if mirrored { PI - a } else { a }
}

// The smaller of two sizes over the larger: 1 if both are infinite, 0 if both are zero.
const fn slope(small: f64, large: f64) -> f64
    ensures { result ≡ slope_of small large }
{
    if small.is_infinite() {
        1.0
    } else if large == 0.0 {
        0.0
    } else {
        small / large
    }
}

// The angle, up to a quarter of π, whose tangent is `t`: a guess, moved nearer twice.
fn angle_of_slope(t: f64) -> f64
    ensures { result ≡ small_angle t }
{
    nearer(t, nearer(t, t * FRAC_PI_4))
}

// The angle `a`, moved nearer to the one whose tangent is `t`.
fn nearer(t: f64, a: f64) -> f64
    ensures { result ≡ nearer_to t a }
{
    let (s, c) = sin_cos(a);
    let d = (t * c - s) / (c + t * s);
    a + (d - d * d * d / 3.0)
}
