//! What the library answers at the limits: the ends of the half-open box, both zeros, not-a-number,
//! infinities, the smallest numbers, and the ends of the page and of the field. The answers are
//! worked out from the rules.
#![tactic(auto)]

#[cfg(test)]
mod moves;
#[cfg(test)]
mod piles;
#[cfg(test)]
mod tables;

#[cfg(test)]
mod tests {
    use floats::page::{in_field, is_grid, on_page};
    use plane::point::Point;
    use plane::rect::Rect;
    use shapes::circle::Circle;
    use shapes::triangle::Triangle;

    // The smallest number above 0, and the distance of two grid numbers.
    const LEAST: f64 = 5e-324;

    const STEP: f64 = 0.00390625;

    #[test]
    fn grid_numbers(rt: HostRuntime) {
        assert!(rt; is_grid(0.0) && is_grid(-0.0) && is_grid(STEP) && is_grid(-3.0 - STEP));
        assert!(rt; !is_grid(STEP / 2.0) && !is_grid(0.1) && !is_grid(LEAST) && !is_grid(-LEAST));
        assert!(rt; !is_grid(f64::NAN) && !is_grid(f64::INFINITY) && !is_grid(f64::NEG_INFINITY));
        // Just below 2^44 there are still halves of 1/256; from there on every float is a multiple.
        assert!(rt;
            is_grid(17592186044416.0) && is_grid(17592186044416.0 - STEP) && is_grid(f64::MAX)
        );
        assert!(rt; !is_grid(17592186044416.0 - STEP / 2.0));
    }

    #[test]
    fn page_and_field(rt: HostRuntime) {
        assert!(rt; on_page(4096.0) && on_page(-4096.0) && on_page(0.1) && on_page(-0.0));
        assert!(rt; !on_page(4096.0 + STEP) && !on_page(f64::NAN) && !on_page(f64::NEG_INFINITY));
        assert!(rt; in_field(32768.0) && in_field(-32768.0) && in_field(LEAST));
        assert!(rt; !in_field(-32768.0 - STEP) && !in_field(f64::NAN) && !in_field(f64::INFINITY));
    }

    #[test]
    fn rect_is_half_open(rt: HostRuntime) {
        let r = Rect::new(0.0, 0.0, 2.0, 1.0);
        assert_eq!(rt; r.winding(Point::new(0.0, 0.0)), 1);
        assert_eq!(rt; r.winding(Point::new(-0.0, -0.0)), 1);
        assert_eq!(rt; r.winding(Point::new(2.0 - STEP, 1.0 - STEP)), 1);
        assert_eq!(rt; r.winding(Point::new(2.0, 0.5)), 0);
        assert_eq!(rt; r.winding(Point::new(1.0, 1.0)), 0);
        assert_eq!(rt; r.winding(Point::new(-LEAST, 0.5)), 0);
        assert_eq!(rt;
            Rect::new(2.0, 0.0, 0.0, 1.0).winding(Point::new(1.0, 0.5)),
            -1
        );
        assert_eq!(rt;
            Rect::new(2.0, 1.0, 0.0, 0.0).winding(Point::new(0.0, 0.0)),
            1
        );
        assert!(rt; Rect::new(2.0, 0.0, 0.0, 1.0).contains(Point::new(1.0, 0.5)));
        assert_eq!(rt;
            Rect::new(1.0, 0.0, 1.0, 1.0).winding(Point::new(1.0, 0.5)),
            0
        );
    }

    #[test]
    fn rect_of_unusual_sides(rt: HostRuntime) {
        let least = Rect::new(0.0, 0.0, LEAST, LEAST);
        assert_eq!(rt; least.winding(Point::new(0.0, -0.0)), 1);
        assert_eq!(rt; least.winding(Point::new(LEAST, 0.0)), 0);
        let field = Rect::new(-32768.0, -32768.0, 32768.0, 32768.0);
        assert_eq!(rt; field.winding(Point::new(-32768.0, -32768.0)), 1);
        assert_eq!(rt; field.winding(Point::new(32768.0, 0.0)), 0);
        let all = Rect::new(
            f64::NEG_INFINITY,
            f64::NEG_INFINITY,
            f64::INFINITY,
            f64::INFINITY,
        );
        assert_eq!(rt; all.winding(Point::new(f64::MAX, f64::MIN)), 1);
        assert_eq!(rt; all.winding(Point::new(f64::INFINITY, 0.0)), 0);
        assert_eq!(rt; all.winding(Point::new(f64::NAN, 0.0)), 0);
        // The lesser and the greater of a number and not-a-number are that number: nothing lies between.
        assert_eq!(rt;
            Rect::new(f64::NAN, 0.0, 2.0, 1.0).winding(Point::new(2.0, 0.5)),
            0
        );
    }

    #[test]
    fn circle_is_open(rt: HostRuntime) {
        let c = Circle::new(Point::new(0.0, -0.0), 1.0);
        assert_eq!(rt; c.winding(Point::new(1.0, 0.0)), 0);
        assert_eq!(rt; c.winding(Point::new(1.0 - STEP, -0.0)), 1);
        assert_eq!(rt;
            Circle::new(Point::new(0.0, 0.0), -1.0).winding(Point::new(0.5, 0.5)),
            1
        );
        assert_eq!(rt;
            Circle::new(Point::new(0.0, 0.0), 0.0).winding(Point::new(0.0, 0.0)),
            0
        );
        // The square of the smallest number is 0.
        assert_eq!(rt;
            Circle::new(Point::new(0.0, 0.0), LEAST).winding(Point::new(0.0, 0.0)),
            0
        );
        assert_eq!(rt;
            Circle::new(Point::new(0.0, 0.0), f64::NAN).winding(Point::new(0.0, 0.0)),
            0
        );
        assert_eq!(rt;
            Circle::new(Point::new(0.0, 0.0), f64::INFINITY).winding(Point::new(9.0, 9.0)),
            1
        );
        let corner = Circle::new(Point::new(32768.0, 32768.0), 32768.0);
        assert_eq!(rt; corner.winding(Point::new(32768.0, STEP)), 1);
        assert_eq!(rt; corner.winding(Point::new(32768.0, 0.0)), 0);
    }

    #[test]
    fn triangle_edges(rt: HostRuntime) {
        let a = Point::new(0.0, 0.0);
        let b = Point::new(4.0, 0.0);
        let c = Point::new(0.0, 4.0);
        let t = Triangle::new(a, b, c);
        assert_eq!(rt; t.winding(Point::new(-0.0, -0.0)), 1);
        assert_eq!(rt; t.winding(Point::new(2.0, 2.0)), 1);
        assert_eq!(rt; t.winding(Point::new(2.0, 2.0 + STEP)), 0);
        let back = Triangle::new(a, c, b);
        assert_eq!(rt; back.winding(Point::new(1.0, 1.0)), -1);
        assert_eq!(rt; back.winding(Point::new(2.0, 2.0)), 0);
        assert_eq!(rt; back.winding(a), 0);
        assert_eq!(rt; Triangle::new(a, b, b).winding(b), 0);
        assert_eq!(rt;
            Triangle::new(a, b, Point::new(f64::NAN, 4.0)).winding(Point::new(1.0, 1.0)),
            0
        );
    }

    #[test]
    fn triangle_at_the_ends_of_the_field(rt: HostRuntime) {
        let t = Triangle::new(
            Point::new(-32768.0, -32768.0),
            Point::new(32768.0, -32768.0),
            Point::new(32768.0, 32768.0),
        );
        assert_eq!(rt; t.winding(Point::new(0.0, 0.0)), 1);
        assert_eq!(rt; t.winding(Point::new(0.0, STEP)), 0);
        assert_eq!(rt; t.winding(Point::new(32768.0, -32768.0)), 1);
        assert!(rt; t.area() == 2147483648.0);
    }

    #[test]
    fn boxes_and_areas(rt: HostRuntime) {
        assert_eq!(rt;
            Rect::new(2.0, 1.0, 0.0, 3.0).bounding_box(),
            Rect::new(0.0, 1.0, 2.0, 3.0)
        );
        assert!(rt; Rect::new(2.0, 1.0, 0.0, 3.0).area() == -4.0);
        assert_eq!(rt;
            Circle::new(Point::new(1.0, 2.0), -0.5).bounding_box(),
            Rect::new(0.5, 1.5, 1.5, 2.5)
        );
        assert!(rt; Circle::new(Point::new(1.0, 2.0), 2.0).area() == 4.0 * std::f64::consts::PI);
    }
}
