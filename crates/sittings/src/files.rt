//! The files of a sitting, taken in turn.
ghost use Rattle.std.specs.Prelude.{◌≡◌, ◌≤◌, Bool, true, List, length, Ok, Some, None, is_some, IfOk};
ghost use Rattle.std.specs.Io.KnownBytes.{IsAtEnd, Keeps};
ghost use Rattle.lines.specs.Readers.{bytes_left};
ghost use Rattle.orders.specs.Words.{Text};
ghost use Rattle.sittings.specs.Files.{IsNoLine, TakesLine, TakesLines, TakesFiles, SittingSays, files_read};
ghost use Rattle.sittings.specs.Moments.{SittingAfter};
ghost use Rattle.sittings.specs.Courses.{Input, fresh};
ghost use Rattle.sittings.specs.Transcripts.{Written};

use super::sitting::Sitting;
use lines::failure::Failure;
use lines::reader::LineReader;
use orders::escaped::Escaped;
use std::fmt::Display;
use std::io::{Read, Write};
use std::rt::Files;
use std::{fs, io};

/// The name by which the standard input is called.
pub const STANDARD_INPUT: &str = "-";

/// Takes the files in turn, and ends the sitting. Whether every line was read: one that was not is told with its place, and
/// so is a file that cannot be read; in a strict sitting the first of them is the last. It fails where it cannot write, or
/// where there is no memory for a page.
pub fn take_files<R, W: Write, E: Write>(
    files: &[&str],
    strict: bool,
    rt: &R,
    out: &mut W,
    errors: &mut E,
) -> io::Result<bool>
where
    R: Files + Input + AllocGlobal,
    // What is written is what a sitting says of files, whose lines no contract can know.
    ensures { IfOk result (λ read. (taken : List (List Text)) × (length taken ≤ length files.now) × (read ≡ true → length taken ≡ length files.now)
        × (read ≡ true → files_read fresh taken ≡ true) × Written (SittingSays taken) (W.contents out.old) (W.contents out.new)) }
{
    let mut sitting = Sitting::new(rt.alloc());
    let all_read = take_in_turn(&mut sitting, files, strict, rt, out, errors)?;
    sitting.finish(out)?;
    out.flush()?;
    Ok(all_read)
}

// Takes the files in turn. Whether every line was read; in a strict sitting the first that was not is the last.
fn take_in_turn<R, W: Write, E: Write>(
    sitting: &mut Sitting,
    files: &[&str],
    strict: bool,
    rt: &R,
    out: &mut W,
    errors: &mut E,
) -> io::Result<bool>
where
    R: Files + Input + AllocGlobal,
    ensures { (past : List Input) → SittingAfter past sitting.old → IfOk result (λ read. (taken : List (List Text))
        × TakesFiles past (length files.now) read taken sitting.new (W.contents out.old) (W.contents out.new)) }
{
    let mut is_whole = true;
    for name in files {
        is_whole &= take_file(sitting, name, strict, rt, out, errors)?;
        if strict && !is_whole {
            return Ok(is_whole);
        }
    }
    Ok(is_whole)
}

// Takes a file. Whether every line of it was read.
fn take_file<R, W: Write, E: Write>(
    sitting: &mut Sitting,
    name: &str,
    strict: bool,
    rt: &R,
    out: &mut W,
    errors: &mut E,
) -> io::Result<bool>
where
    R: Files + Input + AllocGlobal,
    ensures { (past : List Input) → SittingAfter past sitting.old → IfOk result (λ read. (taken : List (List Text))
        × TakesFiles past 1 read taken sitting.new (W.contents out.old) (W.contents out.new)) }
{
    if name == STANDARD_INPUT {
        let mut lines = LineReader::new(rt.alloc(), rt.reader())?;
        return take_whole(sitting, &mut lines, name, strict, out, errors);
    }
    match fs::open(rt, name) {
        Ok(file) => {
            let mut lines = LineReader::new(rt.alloc(), file)?;
            take_whole(sitting, &mut lines, name, strict, out, errors)
        }
        Err(error) => {
            tell(Escaped(name), &error, out, errors)?;
            Ok(false)
        }
    }
}

// Takes the lines of a file and ends it. Whether every line was read.
fn take_whole<R: Read, W: Write, E: Write>(
    sitting: &mut Sitting,
    lines: &mut LineReader<R>,
    name: &str,
    strict: bool,
    out: &mut W,
    errors: &mut E,
) -> io::Result<bool>
    ensures { (past : List Input) → SittingAfter past sitting.old → IfOk result (λ read. (taken : List (List Text))
        × TakesFiles past 1 read taken sitting.new (W.contents out.old) (W.contents out.new)) }
{
    let taken = take_lines(sitting, lines, name, strict, out, errors)?;
    let is_whole = tell_broken(name, &taken, out, errors)?;
    sitting.end_file(out)?;
    // The next file may be one that is waited for.
    out.flush()?;
    Ok(is_whole & taken.all_read)
}

// Whether the input was read to its end, or as far as it was to be; else why not is told.
fn tell_broken<W: Write, E: Write>(
    name: &str,
    taken: &Taken,
    out: &mut W,
    errors: &mut E,
) -> io::Result<bool>
    ensures { Keeps (W.contents out.old) (W.contents out.new) }
{
    match &taken.broken {
        None => Ok(true),
        Some(error) => {
            tell(Escaped(name), error, out, errors)?;
            Ok(false)
        }
    }
}

// Tells what cannot be read, and why, behind what was answered before it.
fn tell<W: Write, E: Write>(
    place: impl Display + Drop,
    why: &impl Display,
    out: &mut W,
    errors: &mut E,
) -> io::Result<()>
    ensures { Keeps (W.contents out.old) (W.contents out.new) }
{
    out.flush()?;
    writeln!(errors, "{place}: {why}")
}

/// How the lines of an input were taken.
#[derive(Drop)]
pub struct Taken {
    /// Whether each of them was read.
    pub all_read: bool,
    /// Why the input gave no more, where that was not its end.
    pub broken: Option<io::Error>,
}

/// Takes the lines of an input in turn, and tells whether each was read: one that was not is told on `errors` too, as
/// `NAME:LINE: REASON` behind what was answered before it; in a strict sitting it is the last one. An input that breaks off
/// leaves a sitting of the lines before that. It fails where it cannot write, or where there is no memory for a page.
pub fn take_lines<R: Read, W: Write, E: Write>(
    sitting: &mut Sitting,
    lines: &mut LineReader<R>,
    name: &str,
    strict: bool,
    out: &mut W,
    errors: &mut E,
) -> io::Result<Taken>
    // For every list of lines, and of files that ended, after which the sitting can stand.
    ensures { (past : List Input) → SittingAfter past sitting.old → IfOk result (λ t. (taken : List Text)
        × TakesLines past taken (bytes_left R.remaining lines.old) strict t sitting.new (W.contents out.old) (W.contents out.new)) }
{
    let mut all_read = true;
    for _ in 0..u64::MAX {
        match take_next(sitting, lines, name, out, errors) {
            Ok(Some(read)) => all_read &= read,
            Ok(None) => return Ok(Taken::to_the_end(all_read)),
            Err(Failure::Input(error)) => return Ok(Taken::broken_off(all_read, error)),
            Err(Failure::Output(error)) => return Err(error),
        }
        if strict && !all_read {
            return Ok(Taken::to_the_end(all_read));
        }
    }
    let error = io::Error::other("it has too many lines");
    Ok(Taken::broken_off(all_read, error))
}

impl Taken {
    // The input ended, or the sitting did.
    fn to_the_end(all_read: bool) -> Taken
        ensures { (result.all_read ≡ all_read) × (result.broken ≡ None) }
    {
        Taken {
            all_read,
            broken: None,
        }
    }

    // The input broke off.
    fn broken_off(all_read: bool, error: io::Error) -> Taken
        ensures { (result.all_read ≡ all_read) × (is_some result.broken ≡ true) }
    {
        Taken {
            all_read,
            broken: Some(error),
        }
    }
}

// Takes the next line, if there is one. Whether it was read; one that was not is told. What fails beside the input is a
// failure of the output: it ends the sitting.
fn take_next<R: Read, W: Write, E: Write>(
    sitting: &mut Sitting,
    lines: &mut LineReader<R>,
    name: &str,
    out: &mut W,
    errors: &mut E,
) -> Result<Option<bool>, Failure>
    ensures end { result ≡ Ok None → IsAtEnd (bytes_left R.remaining lines.old) × Keeps (bytes_left R.remaining lines.old) (bytes_left R.remaining lines.new) }
    ensures none { IsNoLine result → (sitting.new ≡ sitting.old) × Keeps (W.contents out.old) (W.contents out.new) }
    ensures line { (past : List Input) (read : Bool) → SittingAfter past sitting.old → result ≡ Ok (Some read)
        → TakesLine past (bytes_left R.remaining lines.old) (bytes_left R.remaining lines.new) read sitting.new (W.contents out.old) (W.contents out.new) }
{
    if !lines.read_line(out)? {
        return Ok(None);
    }
    match sitting.take_line(lines.line(), out) {
        Ok(None) => Ok(Some(true)),
        Ok(Some(why)) => {
            let name = Escaped(name);
            let number = sitting.lines();
            let place = format_args!("{name}:{number}");
            tell(place, &why, out, errors).map_err(Failure::Output)?;
            Ok(Some(false))
        }
        Err(error) => Err(Failure::Output(error)),
    }
}

#[cfg(test)]
mod tests {
    use super::*;
    use std::test::Fail;

    #[test]
    fn tells_each_line_that_cannot_be_read(rt: HostRuntime) -> Result<(), Fail> {
        let text = b"page one\nbad\r\nmarks top 0 0\rworse\n";
        let wants = [
            (false, "a:2: 'bad' is no order\na:4: 'worse' is no order\n"),
            (true, "a:2: 'bad' is no order\n"),
        ];
        for (strict, want) in wants {
            let mut sitting = Sitting::new(rt.alloc());
            let mut lines = LineReader::new(rt.alloc(), text.as_slice())?;
            let mut out = Vec::new(rt.alloc());
            let mut errors = Vec::new(rt.alloc());
            let taken = take_lines(&mut sitting, &mut lines, "a", strict, &mut out, &mut errors);
            assert!(rt;
                matches!(
                    taken,
                    Ok(Taken {
                        all_read: false,
                        broken: None
                    })
                ),
                "strict: {strict}"
            );
            assert_eq!(rt; errors.as_slice(), want.as_bytes(), "strict: {strict}");
        }
        Ok(())
    }
}
