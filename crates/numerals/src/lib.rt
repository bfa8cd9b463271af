//! Numbers as text.
#![tactic(auto)]

ghost use Rattle.std.specs.Prelude.{OnOk};
ghost use Rattle.std.specs.Io.KnownBytes.{Appends};
ghost use Rattle.numerals.specs.Numerals.{IsNumeral, Text};

#[cfg(test)]
mod tests;

use ryu::Buffer;
use std::io;
use std::io::Write;

/// Writes a number in digits that read back as that very number, and few of them: `0`, `-0`, `-1`, `0.5`, `1e300`.
/// No `.0` stands behind a whole number. What is not finite is `nan`, `inf` or `-inf`. The contract has that it reads
/// back, the layout and the words, and not how few the digits are. It fails only where the output does.
pub fn write_number<W: Write>(x: f64, out: &mut W) -> io::Result<()>
    ensures { OnOk result ((text : Text)
        × IsNumeral x text × Appends (W.contents out.old) (W.contents out.new) text) }
{
    if x.is_nan() {
        return out.write_all(b"nan");
    }
    let mut buffer = Buffer::new();
    let text = buffer.format(x).as_bytes();
    out.write_all(text.strip_suffix(b".0").unwrap_or(text))
}
