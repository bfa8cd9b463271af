//! The sixth root, in sixteenths.
ghost use Rattle.std.specs.Prelude.{◌≡◌, ℕ, ◌^◌, ◌<◌, ◌≤◌};
ghost use Rattle.std.specs.Float.Ieee.{mul, to_unsigned};
ghost use Rattle.std.specs.Float.{ceil, binary64};
ghost use Rattle.elementary.specs.SixthRoots.{SixthRoot, scale, sixth_root_of};

use std::num::saturating_f64_to_u64;

// The largest number whose root is taken, and what a number is multiplied by: 16 to the sixth.
const MOST: f64 = 68719476736.0;

const SCALE: f64 = 16777216.0;

const SIXTEENTH: f64 = 0.0625;

/// The sixth root of `v`, rounded up to a sixteenth: k/16 for the least whole k from 1 to 1024 with
/// k⁶ ≥ v × 2²⁴, for a `v` from 0 to 2³⁶. Not-a-number for any other `v`.
pub fn sixth_root(v: f64) -> f64
    ensures root { SixthRoot v result }
    ensures defined { result ≡ sixth_root_of v }
{
    if (0.0..=MOST).contains(&v) {
        least_root(scaled_up(v)) as f64 * SIXTEENTH
    } else {
        f64::NAN
    }
}

// v × 2²⁴, rounded up to a whole number.
fn scaled_up(v: f64) -> u64
    ensures { result ≡ to_unsigned 64 (ceil binary64 (mul binary64 v scale)) }
{
    saturating_f64_to_u64((v * SCALE).ceil())
}

// The least number from 1 to 1024 whose sixth power is at least `need`, by halving the range: there is no list
// of the powers to search.
fn least_root(need: u64) -> u64
    requires { need ≤ 2 ^ 60 }
    ensures bounds { (1 ≤ result) × (result ≤ 1024) }
    ensures enough { need ≤ result ^ 6 }
    ensures least { (j : ℕ) → j < result → 1 ≤ j → j ^ 6 < need }
{
    let mut low: u64 = 1;
    let mut high: u64 = 1024;
    while low < high {
        let mid = (low + high) / 2;
        if mid.pow(6) < need {
            low = mid + 1;
        } else {
            high = mid;
        }
    }
    low
}
