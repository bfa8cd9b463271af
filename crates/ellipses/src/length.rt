//! The length of an ellipse, by its radii.
ghost use Rattle.std.specs.Prelude.{◌≡◌, ◌+◌, ◌<◌, ◌≤◌};
ghost use Rattle.ellipses.specs.Lengths.{unlikeness, series as series_of, series_length, series_range, term, last, next as next_of, total as total_of, first, ordered, mean_length, length_of};

use elementary::powers::{powi2, powi7};
use elementary::sqrt::sqrt;
use floats::order::greater;
use plane::fault::ShapeFault;
use plane::vec2::Vec2;
use std::f64::consts::PI;

// More steps than these are never allowed.
const MOST_STEPS: u32 = 64;

// What the factors of the series lack after the sixth power: 4/π - (1 + 1/4 + 1/64 + 1/256 + 25/16384 +
// 49/65536 + 441/1048576).
const REMAINDER: f64 = 0.00101416479131503;

/// The length of the ellipse with these radii, and the steps that it took. An `allowance` above 64 counts as 64; it
/// refuses 9 STEPS where that is spent before the last turn.
pub fn length(radii: Vec2, accuracy: f64, allowance: u32) -> Result<(f64, u32), ShapeFault>
    ensures { result ≡ length_of radii accuracy allowance }
{
    if radii.x.is_finite() && radii.y.is_finite() {
        if radii.x == 0.0 || radii.y == 0.0 {
            // A line, there and back.
            Ok((4.0 * greater(radii.x, radii.y), 0))
        } else if series_range(radii) <= accuracy {
            Ok((series_length(radii), 0))
        } else {
            mean_length(greater_first(radii), accuracy, allowance.min(MOST_STEPS))
        }
    } else {
        Ok((f64::NAN, 0))
    }
}

// The square of the difference of the radii over their sum.
const fn unlike(radii: Vec2) -> f64
    ensures { result ≡ unlikeness radii }
{
    powi2((radii.x - radii.y) / (radii.x + radii.y))
}

// The length by Kummer's series up to the sixth power, which is not above the true one.
const fn series_length(radii: Vec2) -> f64
    ensures { result ≡ series_length radii }
{
    (radii.x + radii.y) * series(unlike(radii))
}

// The sum of the series over x + y.
const fn series(h: f64) -> f64
    ensures { result ≡ series_of h }
{
    let h2 = h * h;
    let h3 = h2 * h;
    let h4 = h3 * h;
    let h5 = h4 * h;
    let h6 = h5 * h;
    PI + h * (PI / 4.0)
        + h2 * (PI / 64.0)
        + h3 * (PI / 256.0)
        + h4 * (PI * 25.0 / 16384.0)
        + h5 * (PI * 49.0 / 65536.0)
        + h6 * (PI * 441.0 / 1048576.0)
}

// What that length may be below the true one.
const fn series_range(radii: Vec2) -> f64
    ensures { result ≡ series_range radii }
{
    PI * REMAINDER * powi7(unlike(radii)) * (radii.x + radii.y)
}

// The radii, the greater first.
const fn greater_first(radii: Vec2) -> Vec2
    ensures { result ≡ ordered radii }
{
    if radii.x >= radii.y {
        radii
    } else {
        Vec2::new(radii.y, radii.x)
    }
}

// Where the arithmetic-geometric mean of 1 and the quotient of the radii has come to.
#[derive(Clone, Copy)]
struct Means {
    // What is left of 1 after the terms so far.
    sum: f64,
    // The arithmetic mean.
    a: f64,
    // The geometric mean.
    g: f64,
    // Half of what the means before these differ by.
    c: f64,
    // The square of c counts by this.
    weight: f64,
}

impl Means {
    // Before the first turn.
    fn first(g: f64) -> Means
        ensures { result ≡ first g }
    {
        Means {
            sum: 1.0,
            a: 1.0,
            g,
            c: sqrt(1.0 - powi2(g)),
            weight: 0.5,
        }
    }

    // What the turn takes from the sum. It is also as much as all later turns may take.
    const fn term(self) -> f64
        ensures { result ≡ term self }
    {
        self.weight * powi2(self.c)
    }

    // Whether the turn is the last.
    const fn is_last(self, tolerance: f64) -> bool
        ensures { result ≡ last tolerance self }
    {
        self.term() <= tolerance * self.g
    }

    // After a turn that is not the last.
    fn next(self) -> Means
        ensures { result ≡ next_of self }
    {
        Means {
            sum: self.sum - self.term(),
            a: (self.a + self.g) / 2.0,
            g: sqrt(self.a * self.g),
            c: (self.a - self.g) / 2.0,
            weight: self.weight * 2.0,
        }
    }

    // The length after the last turn, and the turns made. What later turns would take is taken at once, so that the
    // length is not above the true one.
    const fn total(self, x: f64, made: u32) -> (f64, u32)
        requires { made < 64 }
        ensures { result ≡ (total_of x self, made + 1) }
    {
        let sum = self.sum - self.term() - self.term();
        (2.0 * PI * x / self.a * sum, made + 1)
    }
}

// The length by the arithmetic-geometric mean, and the turns that it took.
fn mean_length(radii: Vec2, accuracy: f64, allowance: u32) -> Result<(f64, u32), ShapeFault>
    requires { allowance ≤ 64 }
    ensures { result ≡ mean_length radii accuracy allowance }
{
    let tolerance = accuracy / (2.0 * PI * radii.x);
    let mut means = Means::first(radii.y / radii.x);
    for made in 0..allowance {
        if means.is_last(tolerance) {
            return Ok(means.total(radii.x, made));
        }
        means = means.next();
    }
    Err(ShapeFault::Steps)
}
