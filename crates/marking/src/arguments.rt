//! The command line.
ghost use Rattle.std.specs.Prelude.{◌<◌, IfOk, vec_len};

use clap::{Arg, ArgAction, Command, Error};
use sittings::files::STANDARD_INPUT;
use std::alloc::{AllocError, Global};
use std::convert::AsStr;

const VERSION: &str = "0.1.0";

const ORDERS: &str = "\
Orders, one a line; '#' starts a comment:
  page NAME [ENTRIES [PLACES]]  a new page, with tables and a buffer so large
  marks put SHAPE [by MOVE]     a mark on top of the others
  marks shift POSITION MOVE     the mark is moved on
  marks shift_all MOVE          all marks are
  marks lift POSITION           the mark is taken out
  marks winding X Y             the sum of the windings there
  marks top X Y                 the uppermost mark there
  marks bounding_box            the box of all marks
  marks draw TOLERANCE          their paths
  frames ...                    the same on the sheet of frames, put rect alone
  set X Y within POSITION       a set point, and the mark it should lie within
  set X Y outside               a set point that should lie on none
                                (also marks set ..., frames set ...)
  measure SHAPE                 area, length and box of a shape; an ellipse
                                takes ACCURACY and ALLOWANCE after its numbers
  cover SHAPE [by MOVE] over SHAPE [by MOVE] QUESTION
                                what one shape over another answers

  SHAPE     rect X0 Y0 X1 Y1
            circle X Y R
            triangle AX AY BX BY CX CY
            rounded X0 Y0 X1 Y1 TL TR BR BL
            ellipse X Y RX RY ANGLE, in radians
  MOVE      A B C D E F: (x, y) goes to (A x + C y + E, B x + D y + F);
            A to D are one of eight turns, E and F multiples of 1/256
  QUESTION  winding X Y, bounding_box or draw TOLERANCE

Marks count from 0, the lowest first. y grows downwards. Points that are set or
asked have multiples of 1/256. The last two lines count.

Example:
  page one                      1 page one -> 0 marks
  marks put circle 0 0 0.5      2 marks put circle 0 0 0.5 -> position 0
  set 0.25 0 within 0           3 set 0.25 0 within 0 -> right
  marks top 2 2                 4 marks top 2 2 -> top none
                                page one: right 1 of 1, refused 0, unreadable 0
                                pages 1, orders 4, refused 0, unreadable lines 0
                                right 1 of 1
";

/// What a command line asks for.
#[derive(Drop)]
pub struct Arguments<'a> {
    /// Whether the sitting ends at the first line that cannot be read.
    pub strict: bool,
    /// The files of the sitting, in turn.
    pub files: Vec<&'a str>,
}

impl<'a> Arguments<'a> {
    /// Reads the words of a command line, the first of which names the program. Without a file it is the standard input.
    /// It refuses what is no use of the program; so it does where help or the version is asked for, which the error then
    /// says.
    pub fn read<S: AsStr>(heap: Global, words: &'a [S]) -> Result<Arguments<'a>, Error>
        ensures { IfOk result (λ a. 0 < vec_len a.files) }
    {
        let matches = command(heap)?.try_get_matches_from(words)?;
        let files = match matches.get_strs("file") {
            Some(named) if !named.is_empty() => Vec::from_slice(heap, named)?,
            _ => vec![in heap; STANDARD_INPUT]?,
        };
        Ok(Arguments {
            strict: matches.get_flag("strict"),
            files,
        })
    }
}

// How the program is called.
fn command<'a>(heap: Global) -> Result<Command<'a>, AllocError> {
    let strict = Arg::new(heap, "strict")
        .long("strict")
        .action(ArgAction::SetTrue)
        .help("End the sitting at the first line or file that cannot be read");
    let file = Arg::new(heap, "file").value_name("FILE").num_args(0..).help(
        "Files of the sitting, in turn; none, or -, is the standard input",
    );
    Command::new(heap, "marking")
        .version(VERSION)
        .about("Marks an examination in choral engraving: answers orders, one a line")
        .after_help(ORDERS)
        .arg(strict)?
        .arg(file)
}

#[cfg(test)]
mod tests {
    use super::*;
    use clap::error::ErrorKind;
    use std::test::Fail;

    #[test]
    fn reads_command_lines(rt: HostRuntime) -> Result<(), Fail> {
        let none = Arguments::read(rt.alloc(), ["marking"].as_slice())?;
        assert!(rt; !none.strict);
        assert_eq!(rt; none.files.as_slice(), ["-"].as_slice());
        let words = ["marking", "b", "--strict", "-", "a"];
        let some = Arguments::read(rt.alloc(), words.as_slice())?;
        assert!(rt; some.strict);
        assert_eq!(rt; some.files.as_slice(), ["b", "-", "a"].as_slice());
        let wants = [
            ("--what", ErrorKind::UnknownArgument),
            ("--help", ErrorKind::DisplayHelp),
            ("-V", ErrorKind::DisplayVersion),
        ];
        for (word, want) in wants {
            let words = ["marking", word];
            let error = Arguments::read(rt.alloc(), words.as_slice())
                .err()
                .ok_or("read")?;
            assert_eq!(rt; error.kind(), want, "{word}");
        }
        Ok(())
    }
}
