//! The laws of floats that the answers on a page rest on. Each function does nothing: its contract
//! is the law, and without its proof the crate does not pass.
ghost use Rattle.floats.specs.Laws.{Exact, Ordered, ZerosAgree};

/// On numbers k / 2^i sums, differences, products and negations are exact while the numerator fits
/// 53 bits, and the comparisons are those of the numerators.
pub fn exact_on_fractions()
    ensures { Exact }
{}

/// Rounding keeps the order of finite floats of any size and sign: of x ≤ y follow x + e ≤ y + e and
/// x − e ≤ y − e as computed, and products of numbers that are not negative keep their order.
pub fn rounding_keeps_order()
    ensures { Ordered }
{}

/// Floats that are equal but for the sign of a zero have equal sums, differences, products,
/// negations, sizes, minima and maxima, again but for the sign of a zero, and compare alike.
pub fn zero_signs_agree()
    ensures { ZerosAgree }
{}
