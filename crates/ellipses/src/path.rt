//! An ellipse behind the interface of shapes, and its path.
ghost use Rattle.std.specs.Prelude.{◌≡◌};
ghost use Rattle.std.specs.Iterator.{YieldsFirst, item_count};
ghost use Rattle.std.proofs.Common.{rules};
ghost use Rattle.ellipses.specs.Ellipses.{box as ellipse_box, wind as ellipse_wind};
ghost use Rattle.ellipses.specs.Ovals.{whole_arc, drawn as ellipse_drawn, rest as path_rest};
ghost use Rattle.ellipses.specs.Oval.{ellipse_lawful, ellipse_formed};

use super::ellipse::Ellipse;
use arcs::arc::{Arc, ArcPath};
use plane::bezpath::PathEl;
use plane::cursor::Cursor;
use plane::fault::ShapeFault;
use plane::point::Point;
use plane::rect::Rect;
use plane::shape::{Shape, check_drawable};
use std::f64::consts::PI;

// Where a cursor on an ellipse's path stands: a stage of its own, as every cursor here has.
#[derive(Clone, Copy)]
enum Stage {
    Start,
    Curves,
}

/// A cursor on an ellipse's path: the start, and then the curves of its arc.
#[derive(Clone, Copy)]
pub struct EllipsePath {
    stage: Stage,
    start: Point,
    curves: ArcPath,
}

impl Iterator for EllipsePath {
    type Item = PathEl;

    ghost next_gives = { YieldsFirst path_rest };

    ghost remaining = { item_count path_rest };

    fn next(&mut self) -> Option<PathEl> {
        match self.stage {
            Stage::Start => {
                self.stage = Stage::Curves;
                Some(PathEl::MoveTo(self.start))
            }
            Stage::Curves => self.curves.next(),
        }
    }
}

impl Cursor for EllipsePath {
    ghost rest = { path_rest };

    ghost ready = { λ c. tt };

    ghost steps = { λ c d el s. s };

    ghost ends = { Prim.search rules };
}

impl Shape for Ellipse {
    type Path = EllipsePath;

    ghost wind = { ellipse_wind };

    ghost frame = { ellipse_box };

    ghost drawn = { ellipse_drawn };

    ghost small = { λ s p. (ellipse_lawful s p).small };

    ghost same = { λ s p q e. (ellipse_lawful s p).same q e };

    ghost boxed = { λ s p f g n. (ellipse_lawful s p).boxed f g n };

    ghost formed = { λ s t. ellipse_formed s t };

    fn winding(&self, pt: Point) -> i32 {
        Ellipse::winding(self, pt)
    }

    fn bounding_box(&self) -> Rect {
        Ellipse::bounding_box(self)
    }

    fn path_elements(&self, tolerance: f64) -> Result<EllipsePath, ShapeFault> {
        check_drawable(tolerance, self.affine().is_finite())?;
        let arc = whole(self);
        let curves = arc.append_iter(tolerance)?;
        Ok(EllipsePath {
            stage: Stage::Start,
            start: arc.start(),
            curves,
        })
    }
}

// The arc that goes round an ellipse once.
fn whole(ellipse: &Ellipse) -> Arc
    ensures { result ≡ whole_arc ellipse.now }
{
    let (radii, x_rotation) = ellipse.affine().svd();
    Arc {
        center: ellipse.center(),
        radii,
        start_angle: 0.0,
        sweep_angle: 2.0 * PI,
        x_rotation,
    }
}
