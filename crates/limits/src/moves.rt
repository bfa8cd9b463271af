//! Moves: all products of turns, and offsets at the ends of the page.
use layers::moves::Move;
use plane::affine::Affine;
use std::test::Fail;

// The turns, in the order of the rules.
const TURNS: [[f64; 4]; 8] = [
    [1.0, 0.0, 0.0, 1.0],
    [0.0, 1.0, -1.0, 0.0],
    [-1.0, 0.0, 0.0, -1.0],
    [0.0, -1.0, 1.0, 0.0],
    [1.0, 0.0, 0.0, -1.0],
    [-1.0, 0.0, 0.0, 1.0],
    [0.0, 1.0, 1.0, 0.0],
    [0.0, -1.0, -1.0, 0.0],
];

// In row n and column m the turn that m and then n make. It was worked out from the laws of quarter turns R and
// the mirror M = turn 4, with turns 6, 5 and 7 for RM, RRM and RRRM, and MR = RRRM.
const PRODUCTS: [[usize; 8]; 8] = [
    [0, 1, 2, 3, 4, 5, 6, 7],
    [1, 2, 3, 0, 6, 7, 5, 4],
    [2, 3, 0, 1, 5, 4, 7, 6],
    [3, 0, 1, 2, 7, 6, 4, 5],
    [4, 7, 5, 6, 0, 2, 3, 1],
    [5, 6, 4, 7, 2, 0, 1, 3],
    [6, 4, 7, 5, 1, 3, 0, 2],
    [7, 5, 6, 4, 3, 1, 2, 0],
];

// Six numbers, and the number of the refusal that they get, or 0.
const CASES: [([f64; 6], u8); 11] = [
    ([1.0, 0.0, 0.0, 1.0, 4096.0, -4096.0], 0),
    ([1.0, 0.0, 0.0, 1.0, 4096.00390625, 0.0], 7),
    ([1.0, 0.0, 0.0, 1.0, 0.0, 4096.00390625], 7),
    ([1.0, 0.0, 0.0, 1.0, -4096.00390625, 0.0], 7),
    ([1.0, 0.0, 0.0, 1.0, 0.001, 0.0], 6),
    ([1.0, 0.0, 0.0, 1.0, 5000.0, 0.001], 6),
    ([1.0, 0.0, 0.0, 1.0, f64::NAN, 0.0], 6),
    ([2.0, 0.0, 0.0, 1.0, 5000.0, 0.001], 10),
    ([1.0, 1.0, 0.0, 1.0, 0.0, 0.0], 10),
    ([f64::NAN, 0.0, 0.0, 1.0, 0.0, 0.0], 10),
    ([-0.0, -1.0, 1.0, -0.0, -0.0, 0.0], 0),
];

fn turn(n: usize) -> Result<Move, Fail> {
    match TURNS.get(n) {
        Some(&[a, b, c, d]) => Ok(Move::new(Affine::new(a, b, c, d, 0.0, 0.0))?),
        None => Err(Fail::new("no turn has this number")),
    }
}

#[test]
fn products_of_turns(rt: HostRuntime) -> Result<(), Fail> {
    for (n, row) in PRODUCTS.iter().enumerate() {
        for (m, &which) in row.iter().enumerate() {
            let product = turn(n)?.mul(turn(m)?)?;
            let expected = turn(which)?;
            assert_eq!(rt; product.numbers(), expected.numbers());
            assert_eq!(rt; product.sign(), if (n < 4) == (m < 4) { 1 } else { -1 });
        }
    }
    Ok(())
}

#[test]
fn offsets_and_refusals(rt: HostRuntime) {
    for ([a, b, c, d, e, f], number) in CASES {
        let answer = match Move::new(Affine::new(a, b, c, d, e, f)) {
            Ok(_) => 0,
            Err(fault) => fault.number(),
        };
        assert_eq!(rt; answer, number);
    }
}

#[test]
fn products_off_the_page(rt: HostRuntime) -> Result<(), Fail> {
    let far = Move::new(Affine::new(0.0, 1.0, -1.0, 0.0, 4000.0, 0.0))?;
    let up = Move::new(Affine::new(1.0, 0.0, 0.0, 1.0, 0.0, -96.0))?;
    // (x, y) goes to (x, y - 96), and then to (96 - y + 4000, x).
    let edge = far.mul(up)?.numbers();
    assert!(rt; edge.e == 4096.0 && edge.f == 0.0);
    let higher = Move::new(Affine::new(1.0, 0.0, 0.0, 1.0, 0.0, -96.00390625))?;
    match far.mul(higher) {
        Ok(_) => Err(Fail::new("a product off the page")),
        Err(fault) => {
            assert_eq!(rt; fault.number(), 7);
            Ok(())
        },
    }
}
