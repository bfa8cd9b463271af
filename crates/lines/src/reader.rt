//! What takes an input line by line.
ghost use Rattle.std.specs.Prelude.{◌≡◌, ◌≢◌, ℕ, ◌<◌, ◌++◌, true, false, Ok, Some, position, List, [], length, IfSome, IfOk, IfErr, OnErr};
ghost use Rattle.std.specs.IoError.{error_kind};
ghost use Rattle.std.specs.Io.Buffered.{reader_buffer, reader_remaining};
ghost use Rattle.std.specs.Io.KnownBytes.{Consumes, IsAtEnd, Keeps};
ghost use Rattle.lines.specs.Lines.{is_line_end, first_line, behind_first_line, GivesLine, HasNoEnd};

use super::failure::Failure;
use std::alloc::{AllocError, Global};
use std::io;
use std::io::{BufRead, BufReader, ErrorKind, Read, Write};

// Whether a byte ends a line.
fn is_line_end(byte: u8) -> bool
    ensures { result ≡ is_line_end byte }
{
    byte == b'\n' || byte == b'\r'
}

// The place of the first byte that ends a line.
fn end_in(bytes: &[u8]) -> Option<usize>
    ensures { result ≡ position is_line_end bytes.now }
{
    bytes.iter().position(|byte| is_line_end(*byte))
}

// Waits for input where none is buffered, and flushes `out` first. False at the end of the input.
fn fill_buffer<R: Read, W: Write>(input: &mut BufReader<R>, out: &mut W) -> Result<bool, Failure>
    ensures bytes { Keeps (reader_remaining R.remaining input.old) (reader_remaining R.remaining input.new) }
    ensures end { result ≡ Ok false → IsAtEnd (reader_remaining R.remaining input.old) }
    ensures out { Keeps (W.contents out.old) (W.contents out.new) }
{
    if !input.buffer().is_empty() {
        return Ok(true);
    }
    out.flush().map_err(Failure::Output)?;
    match input.fill_buf() {
        Ok(bytes) => Ok(!bytes.is_empty()),
        Err(e) if e.kind() == ErrorKind::Interrupted => Ok(true),
        Err(e) => Err(Failure::Input(e)),
    }
}

/// Takes the lines of an input in turn. A line ends at LF, CR LF or CR, or where the input ends; what stands after the
/// last end is a line too, if it is not empty. No more than one line is kept in memory.
#[derive(Drop)]
pub struct LineReader<R> {
    input: BufReader<R>,
    line: Vec<u8>,
    after_cr: bool,
}

impl<R: Read> LineReader<R> {
    ghost use Rattle.lines.specs.Readers.{bytes_left, line_of};

    /// A reader before the first line of the input. It fails only where there is no memory.
    pub fn new(heap: Global, input: R) -> io::Result<LineReader<R>>
    where
        R: Drop,
        ensures left { IfOk result (λ r. bytes_left R.remaining r ≡ R.remaining input) }
        ensures memory { IfErr result (λ e. error_kind e ≡ ErrorKind.OutOfMemory) }
    {
        Ok(LineReader {
            input: BufReader::new(heap, input)?,
            line: Vec::new(heap),
            after_cr: false,
        })
    }

    /// The line that was read last, without its end.
    pub fn line(&self) -> &[u8]
        ensures { result.now ≡ line_of self.now }
    {
        self.line.as_slice()
    }

    // Waits for input where none is buffered, and flushes `out` first. False at the end of the input.
    fn fill<W: Write>(&mut self, out: &mut W) -> Result<bool, Failure>
        ensures left { Keeps (bytes_left R.remaining self.old) (bytes_left R.remaining self.new) }
        ensures end { result ≡ Ok false → IsAtEnd (bytes_left R.remaining self.old) }
        ensures line { self.new.line ≡ self.old.line }
        ensures out { Keeps (W.contents out.old) (W.contents out.new) }
    {
        fill_buffer(&mut self.input, out)
    }

    // Passes over the LF of an end that is CR LF, once it is there.
    fn pass_line_feed(&mut self)
        ensures left { bytes_left R.remaining self.new ≡ bytes_left R.remaining self.old }
        ensures line { self.new.line ≡ self.old.line }
        ensures passed { self.new.after_cr ≡ true → reader_buffer self.new.input ≡ [] }
    {
        if let Some(&first) = self.input.buffer().first() {
            if self.after_cr && first == b'\n' {
                self.input.consume(1);
            }
            self.after_cr = false;
        }
    }

    // Takes what is buffered of the line, and its end if that is there too. Whether it is.
    fn take_part(&mut self) -> Result<bool, AllocError>
        requires { self.old.after_cr ≡ true → reader_buffer self.old.input ≡ [] }
        ensures done { result ≡ Ok true → IfSome (bytes_left R.remaining self.old) (λ bs. (0 < length bs)
            × (line_of self.new ≡ line_of self.old ++ first_line bs)
            × (bytes_left R.remaining self.new ≡ Some (behind_first_line bs))) }
        ensures goes_on { result ≢ Ok true → (part : List ℕ) × (line_of self.new ≡ line_of self.old ++ part) × HasNoEnd part
            × Consumes (bytes_left R.remaining self.old) (bytes_left R.remaining self.new) part }
        ensures whole { HasNoEnd (line_of self.old) → HasNoEnd (line_of self.new) }
    {
        let buffered = self.input.buffer();
        match end_in(buffered) {
            Some(end) => {
                self.line.extend_from_slice(&buffered[..end])?;
                self.after_cr = buffered[end] == b'\r';
                self.input.consume(end + 1);
                Ok(true)
            }
            None => {
                let len = buffered.len();
                self.line.extend_from_slice(buffered)?;
                self.input.consume(len);
                Ok(false)
            }
        }
    }

    /// Reads the next line. False at the end of the input. Before it waits for input it flushes `out`. After an error,
    /// what was taken of the line is in `line`, and the next call goes on behind it.
    pub fn read_line<W: Write>(&mut self, out: &mut W) -> Result<bool, Failure>
        ensures given { result ≡ Ok true
            → GivesLine (bytes_left R.remaining self.old) (line_of self.new) (bytes_left R.remaining self.new) }
        ensures ended { result ≡ Ok false → IsAtEnd (bytes_left R.remaining self.old)
            × Keeps (bytes_left R.remaining self.old) (bytes_left R.remaining self.new) × (line_of self.new ≡ []) }
        ensures broken { OnErr result
            (Consumes (bytes_left R.remaining self.old) (bytes_left R.remaining self.new) (line_of self.new)) }
        ensures whole { HasNoEnd (line_of self.new) }
        ensures out { Keeps (W.contents out.old) (W.contents out.new) }
    {
        self.line.clear();
        for _ in 0..u64::MAX {
            if !self.fill(out)? {
                return Ok(!self.line.is_empty());
            }
            self.pass_line_feed();
            if self.take_part()? {
                return Ok(true);
            }
        }
        Err(Failure::Input(io::Error::other("the line does not end")))
    }
}

#[cfg(test)]
mod tests;
