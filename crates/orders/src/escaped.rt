//! Text that is echoed.
ghost use Rattle.std.specs.Prelude.{Some};
ghost use Rattle.std.specs.Fmt.{WritesOnOk};
ghost use Rattle.orders.specs.Escapes.{escape, escaped};

use std::fmt;

/// A text that is displayed with its control characters (U+0000 to U+001F, and U+007F to U+009F) written as escapes: a tab
/// as `\t`, any other by its number in hexadecimal digits without leading zeros, as `\u{1b}`.
#[derive(Clone, Copy)]
pub struct Escaped<'a>(pub &'a str);

impl fmt::Display for Escaped<'_> {
    ghost output = { λ e. Some (escaped e.0.now) };

    fn fmt<W: fmt::Write>(&self, f: &mut fmt::Formatter<W>) -> fmt::Result {
        write_escaped(self.0, f)
    }
}

// Character by character.
fn write_escaped<W: fmt::Write>(text: &str, f: &mut fmt::Formatter<W>) -> fmt::Result
    ensures { WritesOnOk W.write_str_gives f.old result (escaped text.now) f.new }
{
    for c in text.chars() {
        write_char(c, f)?;
    }
    Ok(())
}

// One of them.
fn write_char<W: fmt::Write>(c: char, f: &mut fmt::Formatter<W>) -> fmt::Result
    ensures { WritesOnOk W.write_str_gives f.old result (escape c) f.new }
{
    if c == '\t' {
        return f.write_str("\\t");
    }
    if c.is_control() {
        return write!(f, "\\u{{{:x}}}", u32::from(c));
    }
    f.write_char(c)
}
