//! What is counted of a list of cases, and what is written of it.
ghost use Rattle.std.specs.Prelude.{◌≡◌, ℕ, ◌+◌, ◌<◌, false, Some, IsTrue, IfSome, OnOk, OnErr};
ghost use Rattle.std.specs.Io.KnownBytes.{Appends};
ghost use Rattle.cases.specs.Reports.{lines_of, is_shown, got_lines, unreadable_lines, summary, IsEmpty, IsUnchanged, Tallied, Unread};
ghost use Rattle.cases.specs.Counts.{none_yet, at_most};

use super::named::Named;
use super::tally::Tally;
use std::io::Write;
use std::marker::PhantomData;
use std::{fmt, io};

// At most so many differences are written.
const SHOWN: u64 = 20;

/// What cases are counted for: a named value with a place of its own below `N`.
pub trait Counted<const N: usize>: Named {
    /// The place.
    ghost place_of: { Self → ℕ };

    /// The place.
    fn place(self) -> usize
        ensures { result ≡ place_of self };

    /// It is below `N`.
    ghost within: { (k : Self) → place_of k < N };
}

/// The count so far: of lines, of each kind's cases, and of all cases with the lines that cannot be read.
#[derive(Drop)]
pub struct Report<K, const N: usize> {
    lines: u64,
    tallies: [Tally; N],
    total: Tally,
    kind: PhantomData<K>,
}

impl<K: Counted<N>, const N: usize> Report<K, N> {
    /// Nothing is counted yet.
    pub fn new() -> Report<K, N>
        ensures { IsEmpty result }
    {
        Report {
            lines: 0,
            tallies: [Tally::NONE; N],
            total: Tally::NONE,
            kind: PhantomData,
        }
    }

    /// Counts one more line, of which nothing is known yet.
    pub fn next_line(&mut self)
        ensures lines { lines_of self.new ≡ at_most (lines_of self.old + 1) }
        ensures counts { IsUnchanged self.old self.new }
    {
        self.lines = self.lines.saturating_add(1);
    }

    /// Counts the line's case, for its kind and in all, and writes what it got if it differs and no more than twenty do.
    /// It fails only where it writes.
    pub fn count<D: fmt::Display, W: Write>(
        &mut self,
        kind: K,
        agrees: bool,
        got: &D,
        out: &mut W,
    ) -> io::Result<()>
        ensures lines { lines_of self.new ≡ lines_of self.old }
        ensures counts { Tallied self.old (K.place_of kind) agrees self.new }
        ensures written { OnOk result (IfSome (got_lines self.new agrees (K.name_of kind) (D.output got.now))
            (Appends (W.contents out.old) (W.contents out.new))) }
        ensures failed { OnErr result (IsTrue (is_shown self.new agrees)) }
    {
        self.tallies[kind.place()].count(agrees);
        self.total.count(agrees);
        if agrees || SHOWN < self.total.differ {
            return Ok(());
        }
        let line = self.lines;
        let name = kind.name();
        writeln!(out, "line {line}: {name} got {got}")
    }

    /// Counts a line that cannot be read as one that differs, and writes so if no more than twenty do. It fails only
    /// where it writes.
    pub fn pass_over<W: Write>(&mut self, out: &mut W) -> io::Result<()>
        ensures lines { lines_of self.new ≡ lines_of self.old }
        ensures counts { Unread self.old self.new }
        ensures written { OnOk result (Appends (W.contents out.old) (W.contents out.new) (unreadable_lines self.new)) }
        ensures failed { OnErr result (IsTrue (is_shown self.new false)) }
    {
        self.total.count(false);
        if SHOWN < self.total.differ {
            return Ok(());
        }
        let line = self.lines;
        writeln!(out, "line {line}: unreadable")
    }
}

// How many cases of each kind agree, and whether all do.
impl<K: Counted<N>, const N: usize> fmt::Display for Report<K, N> {
    ghost output = { λ r. Some (summary K.name_of K.place_of K.all r) };

    fn fmt<W: fmt::Write>(&self, f: &mut fmt::Formatter<W>) -> fmt::Result {
        for kind in K::all() {
            let name = kind.name();
            let tally = self.tallies[kind.place()];
            let agree = tally.agree;
            let all = tally.all();
            writeln!(f, "{name}: {agree} of {all} agree")?;
        }
        let all = self.total.all();
        if self.total.all_agree() {
            writeln!(f, "all {all} cases agree")
        } else {
            let differ = self.total.differ;
            writeln!(f, "{differ} of {all} cases differ")
        }
    }
}
