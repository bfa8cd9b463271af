//! The whole powers that the shapes use, each by a fixed order of products.
ghost use Rattle.std.specs.Prelude.{◌≡◌};
ghost use Rattle.elementary.specs.Powers.{square, seventh};

/// The second power: h × h.
pub const fn powi2(h: f64) -> f64
    ensures { result ≡ square h }
{
    h * h
}

/// The seventh power: (h × h²) × (h² × h²).
pub const fn powi7(h: f64) -> f64
    ensures { result ≡ seventh h }
{
    let s = powi2(h);
    (h * s) * (s * s)
}
