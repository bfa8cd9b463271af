//! Mixed ends in pieces of any size, each wait behind a flush, and an input that fails.
use super::*;
use std::cell::Cell;
use std::test::Fail;

// An input that comes in pieces. It wants the output flushed before each of them, and fails at the end if so told.
#[derive(Drop)]
struct Pieces<'a> {
    left: &'a [u8],
    most: usize,
    is_flushed: &'a Cell<bool>,
    breaks: bool,
}

impl Read for Pieces<'_> {
    fn read(&mut self, buf: &mut [u8]) -> io::Result<usize> {
        if !self.is_flushed.replace(false) {
            return Err(io::Error::other("not flushed"));
        }
        if self.left.is_empty() && self.breaks {
            return Err(io::Error::other("broken"));
        }
        let len = self.most.min(self.left.len()).min(buf.len());
        let (piece, left) = self.left.split_at(len);
        buf[..len].copy_from_slice(piece);
        self.left = left;
        Ok(len)
    }
}

// An output that notes that it was flushed.
#[derive(Drop)]
struct Flushes<'a>(&'a Cell<bool>);

impl Write for Flushes<'_> {
    fn write(&mut self, buf: &[u8]) -> io::Result<usize> {
        Ok(buf.len())
    }

    fn flush(&mut self) -> io::Result<()> {
        self.0.set(true);
        Ok(())
    }
}

#[test]
fn reads_mixed_ends(rt: HostRuntime) -> Result<(), Fail> {
    let is_flushed = Cell::new(false);
    let mut out = Flushes(&is_flushed);
    for most in 1..5 {
        let input = Pieces {
            left: b"one\ntwo\r\nthree\r\rfive\n\r\n\nlast",
            most,
            is_flushed: &is_flushed,
            breaks: false,
        };
        let mut lines = LineReader::new(rt.alloc(), input)?;
        let wants = ["one", "two", "three", "", "five", "", "", "last"];
        for want in wants {
            assert!(rt; lines.read_line(&mut out)?, "in pieces of {most}");
            assert_eq!(rt; lines.line(), want.as_bytes(), "in pieces of {most}");
        }
        assert!(rt; !lines.read_line(&mut out)?, "in pieces of {most}");
    }
    Ok(())
}

#[test]
fn gives_a_line_before_what_follows_its_cr(rt: HostRuntime) -> Result<(), Fail> {
    let is_flushed = Cell::new(false);
    let mut out = Flushes(&is_flushed);
    let input = Pieces {
        left: b"one\r",
        most: 4,
        is_flushed: &is_flushed,
        breaks: true,
    };
    let mut lines = LineReader::new(rt.alloc(), input)?;
    assert!(rt; lines.read_line(&mut out)?);
    assert_eq!(rt; lines.line(), b"one".as_slice());
    assert!(rt; matches!(lines.read_line(&mut out), Err(Failure::Input(_))));
    Ok(())
}
