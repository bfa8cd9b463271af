//! Replays random sittings, whose answers an independent model has worked out.
#![tactic(auto)]

use sittings::files::{STANDARD_INPUT, take_files};
use std::io;
use std::io::{BufWriter, LineWriter};

fn main(rt: HostRuntime) -> io::Result<()> {
    let mut out = BufWriter::new(rt.alloc(), io::writer(&rt))?;
    let mut errors = LineWriter::new(rt.alloc(), rt.stderr())?;
    let _ = take_files(&[STANDARD_INPUT], false, &rt, &mut out, &mut errors)?;
    Ok(())
}
