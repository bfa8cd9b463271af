//! A list on the standard input, taken line by line.
ghost use Rattle.std.specs.Prelude.{ℕ, Bool, List, IfSome, OnOk, is_ok};
ghost use Rattle.cases.specs.Lines.{FirstLinesOf, LinesOf, TakenInTurn, TextOf};

use std::alloc::Global;
use std::io;
use std::io::{BufRead, BufReader, BufWriter, Write};
use std::str::{Utf8Error, from_utf8};

/// The text of a line, or none where there is nothing on it or a comment: a line that begins with `#`. It refuses a
/// line that is no text.
pub fn text_in(line: &[u8]) -> Result<Option<&str>, Utf8Error>
    ensures { TextOf line.now result }
{
    let text = from_utf8(line)?;
    if text.is_empty() || text.starts_with('#') {
        Ok(None)
    } else {
        Ok(Some(text))
    }
}

/// What takes the lines of a list one by one, and sums them up at the end.
pub trait Taker {
    /// What a line makes of what took those before it, and whether all went well.
    ghost takes: { Self → List ℕ → Bool → Self → Type 0 };

    /// What summing up makes of what took the lines, and whether all went well.
    ghost sums_up: { Self → Bool → Self → Type 0 };

    /// Takes the next line, without its end.
    fn take(&mut self, line: &[u8], out: &mut impl Write) -> io::Result<()>
        ensures { takes self.old line.now (is_ok result) self.new };

    /// Writes what came of the lines.
    fn sum_up(&mut self, out: &mut impl Write) -> io::Result<()>
        ensures { sums_up self.old (is_ok result) self.new };
}

/// Takes the lines of the standard input, and sums them up, on the standard output.
pub fn run<T: Taker + Drop>(
    mut taker: T,
    rt: &(impl Input + Print + AllocGlobal),
) -> io::Result<()> {
    let mut out = BufWriter::new(rt.alloc(), io::writer(rt))?;
    let input = BufReader::new(rt.alloc(), rt.reader())?;
    take_lines(&mut taker, input, &mut out, rt.alloc())?;
    taker.sum_up(&mut out)?;
    out.flush()
}

/// Takes the lines of the input in turn, up to the first that is not taken well.
pub fn take_lines<T: Taker, R: BufRead + Drop>(
    taker: &mut T,
    input: R,
    out: &mut impl Write,
    heap: Global,
) -> io::Result<()>
    ensures { (lines : List (List ℕ)) × TakenInTurn T.takes taker.old lines (is_ok result) taker.new
        × IfSome (R.remaining input) (λ bs. FirstLinesOf bs lines)
        × OnOk result (IfSome (R.remaining input) (λ bs. LinesOf bs lines)) }
{
    for line in input.split(heap, b'\n') {
        taker.take(line?.as_slice(), out)?;
    }
    Ok(())
}
