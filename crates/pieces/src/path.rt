//! The paths of pieces.
ghost use Rattle.std.specs.Prelude.{◌≡◌, ◌-◌, ◌^◌, min, length};
ghost use Rattle.std.specs.Iterator.{YieldsFirst, item_count};
ghost use Rattle.std.proofs.Common.{rules};
ghost use Rattle.pieces.specs.Traced.{rest};
ghost use Rattle.pieces.specs.Traced.{rest as path_rest};

use layers::covering::CoveringPath;
use layers::placing::PlacingPath;
use marks::mark::MarkPath;
use plane::bezpath::PathEl;
use plane::cursor::Cursor;

/// A cursor on the path of a piece.
#[derive(Clone, Copy)]
pub enum PiecePath {
    /// On a single mark's.
    One(PlacingPath<MarkPath>),
    /// On a covering's.
    Two(PlacingPath<CoveringPath<PlacingPath<MarkPath>, PlacingPath<MarkPath>>>),
}

impl PiecePath {
    /// How many elements are still to come. The count stops at 2^64 - 1.
    pub fn count(self) -> u64
        ensures { result ≡ min (length (rest self)) (2 ^ 64 - 1) }
    {
        self.fold(0, |count: u64, _| count.saturating_add(1))
    }
}

impl Iterator for PiecePath {
    type Item = PathEl;

    ghost next_gives = { YieldsFirst path_rest };

    ghost remaining = { item_count path_rest };

    fn next(&mut self) -> Option<PathEl> {
        match self {
            PiecePath::One(c) => c.next(),
            PiecePath::Two(c) => c.next(),
        }
    }
}

impl Cursor for PiecePath {
    ghost rest = { path_rest };

    ghost ready = { λ c. tt };

    ghost steps = { λ c d el s. s };

    ghost ends = { Prim.search rules };
}
