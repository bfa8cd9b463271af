//! Numbers and their texts: the fewest digits that read back.
use super::write_number;
use std::alloc::Global;
use std::process::Abort;
use std::test::Fail;

fn expect(rt: &impl Abort, heap: Global, x: f64, text: &str) -> Result<(), Fail> {
    let mut out = Vec::new(heap);
    write_number(x, &mut out)?;
    assert!(rt; out.as_slice() == text.as_bytes(), "{text}");
    Ok(())
}

#[test]
fn whole_numbers_have_no_point(rt: HostRuntime) -> Result<(), Fail> {
    let heap = rt.alloc();
    expect(&rt, heap, 0.0, "0")?;
    expect(&rt, heap, -0.0, "-0")?;
    expect(&rt, heap, 1.0, "1")?;
    expect(&rt, heap, -1.0, "-1")?;
    expect(&rt, heap, 10.0, "10")?;
    expect(&rt, heap, 4096.0, "4096")
}

#[test]
fn fractions_have_as_few_digits_as_serve(rt: HostRuntime) -> Result<(), Fail> {
    let heap = rt.alloc();
    expect(&rt, heap, 0.5, "0.5")?;
    expect(&rt, heap, -0.1, "-0.1")?;
    expect(&rt, heap, 100.01, "100.01")?;
    expect(&rt, heap, 0.00390625, "0.00390625")?;
    expect(&rt, heap, 1e300, "1e300")?;
    expect(&rt, heap, 5e-324, "5e-324")
}

#[test]
fn what_is_not_finite_is_a_word(rt: HostRuntime) -> Result<(), Fail> {
    let heap = rt.alloc();
    expect(&rt, heap, f64::NAN, "nan")?;
    expect(&rt, heap, f64::INFINITY, "inf")?;
    expect(&rt, heap, f64::NEG_INFINITY, "-inf")
}
