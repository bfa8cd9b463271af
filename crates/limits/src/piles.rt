//! Placings and coverings, one over the other, with answers worked out by hand.
use layers::covering::Covering;
use layers::moves::Move;
use layers::placing::Placing;
use plane::affine::Affine;
use plane::bezpath::PathEl;
use plane::point::Point;
use plane::rect::Rect;
use plane::shape::Shape;
use std::test::Fail;

// Points of the pile below, with its winding there. At the first both shapes are, and the upper one answers, as a
// mirror. It holds its side at y = 4 before the turn, and not the one at y = 3, where the lower one answers.
const WINDINGS: [(f64, f64, i32); 5] = [
    (6.5, 1.5, -1),
    (6.5, 2.5, 1),
    (7.5, 0.5, 0),
    (6.0, 1.0, -1),
    (7.0, 1.0, 1),
];

const PATH: [PathEl; 10] = [
    PathEl::MoveTo(Point { x: 6.0, y: 0.0 }),
    PathEl::LineTo(Point { x: 6.0, y: 2.0 }),
    PathEl::LineTo(Point { x: 7.0, y: 2.0 }),
    PathEl::LineTo(Point { x: 7.0, y: 0.0 }),
    PathEl::ClosePath,
    PathEl::MoveTo(Point { x: 8.0, y: 1.0 }),
    PathEl::LineTo(Point { x: 8.0, y: 3.0 }),
    PathEl::LineTo(Point { x: 6.0, y: 3.0 }),
    PathEl::LineTo(Point { x: 6.0, y: 1.0 }),
    PathEl::ClosePath,
];

// The rectangle (0, 0)–(2, 1), mirrored to (0, 3)–(2, 4), over (1, 2)–(3, 4), all of it by a quarter turn and ten
// to the right: (x, y) goes to (10 - y, x).
fn pile() -> Result<Placing<Covering<Placing<Rect>, Rect>>, Fail> {
    let mirror = Move::new(Affine::new(1.0, 0.0, 0.0, -1.0, 0.0, 4.0))?;
    let upper = Placing::new(mirror, Rect::new(0.0, 0.0, 2.0, 1.0));
    let lower = Rect::new(1.0, 2.0, 3.0, 4.0);
    let turn = Move::new(Affine::new(0.0, 1.0, -1.0, 0.0, 10.0, 0.0))?;
    Ok(Placing::new(turn, Covering::new(upper, lower)))
}

#[test]
fn windings_of_a_pile(rt: HostRuntime) -> Result<(), Fail> {
    let pile = pile()?;
    for (x, y, winding) in WINDINGS {
        assert_eq!(rt; pile.winding(Point::new(x, y)), winding);
    }
    assert_eq!(rt; pile.bounding_box(), Rect::new(6.0, 0.0, 8.0, 3.0));
    Ok(())
}

#[test]
fn path_of_a_pile(rt: HostRuntime) -> Result<(), Fail> {
    let mut path = pile()?.path_elements(1.0)?;
    for expected in PATH {
        assert_eq!(rt; path.next(), Some(expected));
    }
    assert_eq!(rt; path.next(), None);
    Ok(())
}

#[test]
fn placings_without_end(rt: HostRuntime) -> Result<(), Fail> {
    let shift = Move::new(Affine::new(1.0, 0.0, 0.0, 1.0, 4096.0, 0.0))?;
    let plane = Placing::new(
        shift,
        Rect::new(
            f64::NEG_INFINITY,
            f64::NEG_INFINITY,
            f64::INFINITY,
            f64::INFINITY,
        ),
    );
    let b = plane.bounding_box();
    assert!(rt; b.x0.is_nan() && b.y0.is_nan() && b.x1.is_nan() && b.y1.is_nan());
    // The field ends at -32768, before the points are taken back by 4096.
    assert_eq!(rt; plane.winding(Point::new(-28672.0, 0.0)), 1);
    assert_eq!(rt; plane.winding(Point::new(-28672.00390625, 0.0)), 0);
    Ok(())
}
