//! A rounded rectangle behind the interface of shapes, and its path.
ghost use Rattle.std.specs.Prelude.{◌≡◌};
ghost use Rattle.std.specs.Iterator.{YieldsFirst, item_count};
ghost use Rattle.std.proofs.Common.{rules};
ghost use Rattle.rounded.specs.Roundings.{wind as rounded_wind};
ghost use Rattle.rounded.specs.Outlines.{frame as rounded_frame, drawn as rounded_drawn, rest as path_rest, all_finite, quarter_arc, corner_arc as arc_at, corner_start as start_at, Rounds};
ghost use Rattle.rounded.specs.Corners.{rounded_lawful};
ghost use Rattle.rounded.specs.Outlined.{rounded_formed};

use super::rounded_rect::RoundedRect;
use arcs::arc::{Arc, ArcPath};
use plane::bezpath::PathEl;
use plane::cursor::Cursor;
use plane::fault::{Corner, CornerFault, ShapeFault};
use plane::point::Point;
use plane::rect::Rect;
use plane::shape::{Shape, check_drawable};
use plane::vec2::Vec2;
use std::f64::consts::FRAC_PI_2;

// Where a cursor on the path stands: before it, in one of the corners in drawing order, or after it.
#[derive(Clone, Copy)]
enum Stage {
    Start,
    TopLeft,
    TopRight,
    BottomRight,
    BottomLeft,
    Done,
}

/// A cursor on a rounded rectangle's path: each corner's curves, and the sides between them.
// It keeps its own stage: a chain of iterators would have the whole path in its type.
#[derive(Clone, Copy)]
pub struct RoundedRectPath {
    of: RoundedRect,
    stage: Stage,
    top_left: ArcPath,
    top_right: ArcPath,
    bottom_right: ArcPath,
    bottom_left: ArcPath,
}

impl Iterator for RoundedRectPath {
    type Item = PathEl;

    ghost next_gives = { YieldsFirst path_rest };

    ghost remaining = { item_count path_rest };

    fn next(&mut self) -> Option<PathEl> {
        // The corner's next curve, and what comes after its last one: the element and the stage.
        let (curve, after, stage) = match self.stage {
            Stage::Start => (
                None,
                PathEl::MoveTo(self.of.corner_start(Corner::TopLeft)),
                Stage::TopLeft,
            ),
            Stage::TopLeft => (
                self.top_left.next(),
                PathEl::LineTo(self.of.corner_start(Corner::TopRight)),
                Stage::TopRight,
            ),
            Stage::TopRight => (
                self.top_right.next(),
                PathEl::LineTo(self.of.corner_start(Corner::BottomRight)),
                Stage::BottomRight,
            ),
            Stage::BottomRight => (
                self.bottom_right.next(),
                PathEl::LineTo(self.of.corner_start(Corner::BottomLeft)),
                Stage::BottomLeft,
            ),
            Stage::BottomLeft => (self.bottom_left.next(), PathEl::ClosePath, Stage::Done),
            Stage::Done => return None,
        };
        if curve.is_none() {
            self.stage = stage;
        }
        curve.or(Some(after))
    }
}

impl Cursor for RoundedRectPath {
    ghost rest = { path_rest };

    ghost ready = { λ c. tt };

    ghost steps = { λ c d el s. s };

    ghost ends = { Prim.search rules };
}

impl Shape for RoundedRect {
    type Path = RoundedRectPath;

    ghost wind = { rounded_wind };

    ghost frame = { rounded_frame };

    ghost drawn = { rounded_drawn };

    ghost small = { λ s p. (rounded_lawful s p).small };

    ghost same = { λ s p q e. (rounded_lawful s p).same q e };

    ghost boxed = { λ s p f g n. (rounded_lawful s p).boxed f g n };

    ghost formed = { λ s t. rounded_formed s t };

    fn winding(&self, pt: Point) -> i32 {
        RoundedRect::winding(self, pt)
    }

    fn bounding_box(&self) -> Rect {
        RoundedRect::bounding_box(self)
    }

    fn path_elements(&self, tolerance: f64) -> Result<RoundedRectPath, ShapeFault> {
        check_drawable(tolerance, self.has_finite_numbers())?;
        Ok(RoundedRectPath {
            of: *self,
            stage: Stage::Start,
            top_left: self.corner_curves(Corner::TopLeft, tolerance)?,
            top_right: self.corner_curves(Corner::TopRight, tolerance)?,
            bottom_right: self.corner_curves(Corner::BottomRight, tolerance)?,
            bottom_left: self.corner_curves(Corner::BottomLeft, tolerance)?,
        })
    }
}

impl RoundedRect {
    // Whether all sides and radii are finite.
    const fn has_finite_numbers(&self) -> bool
        ensures { result ≡ all_finite self.now }
    {
        self.rect().is_finite() && self.radii().is_finite()
    }

    // The curves of a corner's arc. A fault names the corner by its number.
    fn corner_curves(&self, corner: Corner, tolerance: f64) -> Result<ArcPath, CornerFault>
        ensures { Rounds self.now corner tolerance result }
    {
        self.corner_arc(corner)
            .append_iter(tolerance)
            .map_err(|fault| CornerFault {
                corner: corner.number(),
                fault,
            })
    }

    // The arc that rounds a corner.
    const fn corner_arc(&self, corner: Corner) -> Arc
        ensures { result ≡ arc_at self.now corner }
    {
        let Rect { x0, y0, x1, y1 } = self.rect();
        let r = self.radii().at(corner);
        match corner {
            Corner::TopLeft => quarter_circle(x0 + r, y0 + r, r, 2),
            Corner::TopRight => quarter_circle(x1 - r, y0 + r, r, 3),
            Corner::BottomRight => quarter_circle(x1 - r, y1 - r, r, 0),
            Corner::BottomLeft => quarter_circle(x0 + r, y1 - r, r, 1),
        }
    }

    // Where a corner's arc begins, and the side before it ends.
    const fn corner_start(&self, corner: Corner) -> Point
        ensures { result ≡ start_at self.now corner }
    {
        let Rect { x0, y0, x1, y1 } = self.rect();
        let r = self.radii().at(corner);
        match corner {
            Corner::TopLeft => Point::new(x0, y0 + r),
            Corner::TopRight => Point::new(x1 - r, y0),
            Corner::BottomRight => Point::new(x1, y1 - r),
            Corner::BottomLeft => Point::new(x0 + r, y1),
        }
    }
}

// A quarter of the circle about (x, y), from the quarter turn `from` on.
const fn quarter_circle(x: f64, y: f64, radius: f64, from: u8) -> Arc
    ensures { result ≡ quarter_arc x y radius from }
{
    Arc {
        center: Point::new(x, y),
        radii: Vec2::new(radius, radius),
        start_angle: FRAC_PI_2 * from as f64,
        sweep_angle: FRAC_PI_2,
        x_rotation: 0.0,
    }
}
