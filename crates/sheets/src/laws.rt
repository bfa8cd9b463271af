//! The law of a sheet's opening. The function does nothing: its contract is the law, and without its proof the crate does
//! not pass.
ghost use Rattle.std.specs.Prelude.{List, []};
ghost use Rattle.sheets.specs.declared.sheet.Entry.{Entry};
ghost use Rattle.sheets.specs.Book.{marks};
ghost use Rattle.sheets.specs.Tables.{counting};
ghost use Rattle.sheets.specs.Runs.{After};

use plane::shape::Shape;

/// A sheet that counts no marks, as one just opened, and any table beside it stand after no calls at all.
pub fn opening_follows_no_calls<M: Shape>()
    ensures { (t : List (Entry M)) → After (marks M.Shape) [] (counting 0) t }
{}
