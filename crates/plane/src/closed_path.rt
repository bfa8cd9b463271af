//! The path of a polygon: from corner to corner by straight lines, and closed.
ghost use Rattle.std.specs.Prelude.{◌≡◌, ◌<◌, ◌^◌, OnSome};
ghost use Rattle.std.specs.List.{slice_get};
ghost use Rattle.std.specs.Iterator.{YieldsFirst, item_count};
ghost use Rattle.std.proofs.Common.{rules};
ghost use Rattle.plane.specs.Outlines.{outline, rest};
ghost use Rattle.plane.specs.Outlines.{rest as path_rest};

use super::bezpath::PathEl;
use super::cursor::Cursor;
use super::point::Point;

/// A cursor on the path of a polygon with `N` corners.
#[derive(Clone, Copy)]
pub struct ClosedPath<const N: usize> {
    corners: [Point; N],
    ix: usize,
}

impl<const N: usize> ClosedPath<N> {
    /// A cursor on the path from corner to corner, as they are given.
    pub const fn new(corners: [Point; N]) -> ClosedPath<N>
        ensures { rest result ≡ outline corners.entry }
    {
        ClosedPath { corners, ix: 0 }
    }
}

impl<const N: usize> Iterator for ClosedPath<N> {
    type Item = PathEl;

    ghost next_gives = { YieldsFirst path_rest };

    ghost remaining = { item_count path_rest };

    fn next(&mut self) -> Option<PathEl> {
        let el = element(&self.corners, self.ix)?;
        self.ix += 1;
        Some(el)
    }
}

impl<const N: usize> Cursor for ClosedPath<N> {
    ghost rest = { path_rest };

    ghost ready = { λ c. tt };

    ghost steps = { λ c d el s. s };

    ghost ends = { Prim.search rules };
}

// The element at the place `ix` of the path, if it is not past the end.
fn element(corners: &[Point], ix: usize) -> Option<PathEl>
    ensures value { result ≡ slice_get (outline corners.now) ix }
    ensures within { OnSome result (ix < 2 ^ 63) }
{
    match corners.get(ix) {
        Some(corner) if ix == 0 => Some(PathEl::MoveTo(*corner)),
        Some(corner) => Some(PathEl::LineTo(*corner)),
        None if ix == corners.len() => Some(PathEl::ClosePath),
        None => None,
    }
}
