//! Marks an examination in choral engraving. Each line of its files is an order of a sitting; each is answered on a line of
//! its own, and the counts come last.
#![tactic(auto)]

mod arguments;

use arguments::Arguments;
use sittings::files::take_files;
use std::io::{BufWriter, LineWriter, Write};
use std::process::ExitCode;
use std::rt::{Env, Files};
use std::{env, io};

fn main(rt: HostRuntime) -> ExitCode {
    match run(&rt, rt.stderr()) {
        Ok(status) => status,
        Err(error) => {
            let _ = eprintln!(rt; "marking: {error}");
            ExitCode::FAILURE
        }
    }
}

// Does what the command line asks for: 0 where every line was read, 1 where one was not, and 2 where the command line was
// not understood. It fails where it cannot write.
fn run<R>(rt: &R, errors: impl Write + Drop) -> io::Result<ExitCode>
where
    R: Env + Files + Input + Print + Eprint + AllocGlobal,
{
    let words: Vec<String> = env::args(rt)?.collect(rt.alloc())?;
    let arguments = match Arguments::read(rt.alloc(), words.as_slice()) {
        Ok(arguments) => arguments,
        Err(error) => {
            error.print(rt)?;
            return Ok(ExitCode::from(if error.use_stderr() { 2 } else { 0 }));
        }
    };
    let mut out = BufWriter::new(rt.alloc(), io::writer(rt))?;
    let mut errors = LineWriter::new(rt.alloc(), errors)?;
    if take_files(
        arguments.files.as_slice(),
        arguments.strict,
        rt,
        &mut out,
        &mut errors,
    )? {
        Ok(ExitCode::SUCCESS)
    } else {
        Ok(ExitCode::FAILURE)
    }
}
