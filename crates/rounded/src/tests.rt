//! Answers at limits.
use super::rounded_rect::RoundedRect;
use super::rounded_rect_radii::RoundedRectRadii;
use plane::point::Point;

#[test]
fn radii_are_repaired(rt: HostRuntime) {
    let radii = RoundedRectRadii::new(5.0, -0.5, f64::NAN, f64::INFINITY);
    let kept = RoundedRect::new(4.0, 2.0, 0.0, 0.0, radii).radii();
    assert!(rt; kept == RoundedRectRadii::new(1.0, 0.5, 1.0, 1.0));
}

#[test]
fn an_outline_is_held(rt: HostRuntime) {
    let capsule = RoundedRect::new(
        0.0,
        0.0,
        4.0,
        2.0,
        RoundedRectRadii::from_single_radius(5.0),
    );
    assert!(rt; capsule.winding(Point::new(0.0, 0.0)) == 0);
    assert!(rt; capsule.winding(Point::new(0.0, 1.0)) == 1);
    assert!(rt; capsule.winding(Point::new(2.0, 2.0)) == 1);
    assert!(rt; capsule.winding(Point::new(4.00390625, 1.0)) == 0);
    assert!(rt; capsule.winding(Point::new(f64::NAN, 1.0)) == 0);
}

#[test]
fn each_quarter_has_its_radius(rt: HostRuntime) {
    let leaf = RoundedRect::new(
        0.0,
        0.0,
        4.0,
        4.0,
        RoundedRectRadii::new(2.0, 0.0, 2.0, 0.0),
    );
    assert!(rt; !leaf.contains(Point::new(0.0, 0.0)));
    assert!(rt; leaf.contains(Point::new(4.0, 0.0)));
    assert!(rt; !leaf.contains(Point::new(4.0, 4.0)));
    assert!(rt; leaf.contains(Point::new(0.0, 4.0)));
}

#[test]
fn no_radius_leaves_the_rectangle(rt: HostRuntime) {
    let plain = RoundedRect::new(
        0.0,
        0.0,
        4.0,
        2.0,
        RoundedRectRadii::from_single_radius(0.0),
    );
    assert!(rt; plain.area() == 8.0);
    assert!(rt; plain.perimeter() == 12.0);
}
