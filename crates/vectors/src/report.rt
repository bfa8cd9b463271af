//! What is counted, and what is written of it.
ghost use Rattle.std.specs.Prelude.{◌≡◌};
ghost use Rattle.vectors.specs.Counts.{IsEmpty, TakesLine};

use super::case::{Case, Function, NoCase};
use cases::lines::Taker;
use cases::report::Report;
use std::io;
use std::io::Write;

/// The count of the functions' cases.
#[derive(Drop)]
pub struct Vectors {
    report: Report<Function, { Function::COUNT }>,
}

impl Vectors {
    /// Nothing is counted yet.
    pub fn new() -> Vectors
        ensures { IsEmpty result }
    {
        Vectors {
            report: Report::new(),
        }
    }
}

impl Taker for Vectors {
    ghost takes = { TakesLine };

    ghost sums_up = { λ old ok new. new ≡ old };

    // Counts the line, and writes it if it differs.
    fn take(&mut self, line: &[u8], out: &mut impl Write) -> io::Result<()> {
        self.report.next_line();
        match Case::on_line(line) {
            Ok(Some(case)) => {
                let agrees = case.agrees();
                self.report.count(case.function, agrees, &case.got, out)
            }
            Ok(None) => Ok(()),
            Err(NoCase) => self.report.pass_over(out),
        }
    }

    fn sum_up(&mut self, out: &mut impl Write) -> io::Result<()> {
        write!(out, "{}", self.report)
    }
}
