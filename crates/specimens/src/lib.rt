//! Worked examples, from a rectangle to a sheet of marks, proved together.
#![tactic(auto)]

ghost use Rattle.specimens.specs.Specimens.{Specimens};

/// The specimens hold, all of them, by the definitions alone. The function does nothing: its contract is the theorem.
pub fn specimens_hold()
    ensures { Specimens }
{}
