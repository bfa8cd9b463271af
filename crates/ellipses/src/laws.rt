//! What the lengths of ellipses mean beyond their steps. The function does nothing: its contract is the law, and
//! without its proof the crate does not pass.
ghost use Rattle.ellipses.specs.Lengths.{FirstLast};

/// A length that takes steps is the one after the first turn that comes within the tolerance, and counts the turns up
/// to that one; it is refused just where no turn of the allowance does.
pub fn steps_are_counted()
    ensures { FirstLast }
{}
