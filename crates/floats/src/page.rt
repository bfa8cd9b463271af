//! Which floats are grid numbers, and where the page and the field end.
ghost use Rattle.std.specs.Prelude.{◌≡◌, T};
ghost use Rattle.std.specs.Float.Ieee.{eq};
ghost use Rattle.floats.specs.Page.{GridNumber, UpTo, OnPage, InField};
ghost use Rattle.floats.specs.Page.{on_grid, up_to, on_page as paged, in_field as fielded};
ghost use Rattle.floats.specs.Coarse.{back};

// The page runs from minus this to this, and the field too, ends included.
const PAGE_END: u16 = 4096;

const FIELD_END: u16 = 32768;

// From here on every float is a multiple of 1/256, and just below it the floats are 1/512 apart.
const COARSE: f64 = 17592186044416.0;

/// Whether `x` is a grid number, a multiple of 1/256 of any size. Not-a-number and the infinities
/// are none.
pub fn is_grid(x: f64) -> bool
    ensures only { T result → GridNumber x }
    ensures every { GridNumber x → T result }
    ensures value { result ≡ on_grid x }
{
    let size = x.abs();
    if size < COARSE {
        is_kept(size)
    } else {
        size < f64::INFINITY
    }
}

/// Whether `x` lies on the page: from -4096 to 4096, ends included. Not-a-number does not.
pub fn on_page(x: f64) -> bool
    ensures only { T result → OnPage x }
    ensures every { OnPage x → T result }
    ensures value { result ≡ paged x }
{
    is_up_to(x, PAGE_END)
}

/// Whether `x` lies in the field: from -32768 to 32768, ends included. Not-a-number does not.
pub fn in_field(x: f64) -> bool
    ensures only { T result → InField x }
    ensures every { InField x → T result }
    ensures value { result ≡ fielded x }
{
    is_up_to(x, FIELD_END)
}

// Whether `size`, below `COARSE`, comes back from a sum that lies where floats are 1/256 apart.
fn is_kept(size: f64) -> bool
    ensures { result ≡ eq (back size) size }
{
    (size + COARSE) - COARSE == size
}

// Whether `x` is finite, and at most `end` in size.
fn is_up_to(x: f64, end: u16) -> bool
    ensures only { T result → UpTo end x }
    ensures every { UpTo end x → T result }
    ensures value { result ≡ up_to end x }
{
    x.abs() <= end as f64
}
