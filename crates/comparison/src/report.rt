//! What is counted, and what is written of it.
ghost use Rattle.std.specs.Prelude.{◌≡◌, is_ok};
ghost use Rattle.comparison.specs.Counts.{IsEmpty, PutsCase, TakesLine};

use super::agree::same_words;
use super::read::case;
use cases::lines::{Taker, text_in};
use cases::report::Report;
use questions::question::{Kind, Question};
use std::alloc::Global;
use std::io;
use std::io::Write;

/// The count of each kind's cases.
#[derive(Drop)]
pub struct Comparison {
    report: Report<Kind, { Kind::COUNT }>,
    heap: Global,
}

impl Comparison {
    /// Nothing is counted yet.
    pub fn new(heap: Global) -> Comparison
        ensures { IsEmpty result }
    {
        Comparison {
            report: Report::new(),
            heap,
        }
    }

    // Puts the question, and counts whether it is answered as expected.
    fn put(&mut self, question: Question, expected: &str, out: &mut impl Write) -> io::Result<()>
        ensures { PutsCase self.old question expected.now (is_ok result) self.new }
    {
        let kind = question.kind();
        let got = question.answer_text(self.heap)?;
        // A blank stands before the words, and the report writes one of its own.
        let got = got.strip_prefix(' ').unwrap_or_default();
        let agrees = same_words(got, expected, kind);
        self.report.count(kind, agrees, &got, out)
    }
}

impl Taker for Comparison {
    ghost takes = { TakesLine };

    ghost sums_up = { λ old ok new. new ≡ old };

    // Counts the line, and writes it if it differs.
    fn take(&mut self, line: &[u8], out: &mut impl Write) -> io::Result<()> {
        self.report.next_line();
        match text_in(line) {
            Ok(Some(text)) => match case(text) {
                Some((question, expected)) => self.put(question, expected, out),
                None => self.report.pass_over(out),
            },
            Ok(None) => Ok(()),
            Err(_) => self.report.pass_over(out),
        }
    }

    fn sum_up(&mut self, out: &mut impl Write) -> io::Result<()> {
        write!(out, "{}", self.report)
    }
}
