//! The lesser and the greater of two floats, down to the sign of a zero.
ghost use Rattle.std.specs.Prelude.{◌≡◌};
ghost use Rattle.std.specs.Float.{float_min, float_max};

/// The lesser of `x` and `y`: `x` where they are equal, as 0 and -0 are, and the other where one is not-a-number.
pub const fn lesser(x: f64, y: f64) -> f64
    ensures { result ≡ float_min x y }
{
    if x <= y || y.is_nan() { x } else { y }
}

/// The greater of `x` and `y`: `x` where they are equal, as 0 and -0 are, and the other where one is not-a-number.
pub const fn greater(x: f64, y: f64) -> f64
    ensures { result ≡ float_max x y }
{
    if y <= x || y.is_nan() { x } else { y }
}
