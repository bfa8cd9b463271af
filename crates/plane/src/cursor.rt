//! What walks along a path.
ghost use Rattle.std.specs.Prelude.{List, Option, length};
ghost use Rattle.std.specs.Iterator.{YieldsFirst, UpTo};
ghost use Rattle.plane.specs.declared.bezpath.PathEl.{PathEl};

use super::bezpath::PathEl;

/// A cursor on a path: an iterator over its elements. It means the elements still to come, at first the whole path. Each
/// works in place, by a stage and an index of its own, so that a shape's path asks for no memory.
pub trait Cursor: Iterator<Item = PathEl> {
    /// The elements still to come.
    ghost rest: { Self → List PathEl };

    /// It may always be asked for the next element.
    ghost ready: { (c : Self) → Self.can_next c };

    /// It gives the next element, and afterwards means the rest. After the last it gives nothing, for ever.
    ghost steps: { (c d : Self) (el : Option PathEl) → Self.next_gives c el d → YieldsFirst rest c el d };

    /// It gives no more elements than those.
    ghost ends: { (c : Self) → UpTo (Self.remaining c) (length (rest c)) };
}
