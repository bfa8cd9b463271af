//! Compares the elementary functions with a list of cases on the standard input. Each case that differs is written,
//! and the count comes last.
#![tactic(auto)]

mod case;
mod report;

use cases::lines::run;
use report::Vectors;

fn main(rt: HostRuntime) -> anyhow::Result<()> {
    run(Vectors::new(), &rt)?;
    Ok(())
}
