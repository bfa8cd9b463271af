//! Compares the shapes and the affine maps with a list of cases on the standard input. Each case that differs is
//! written, and the count comes last.
#![tactic(auto)]

mod agree;
mod read;
mod report;

use cases::lines::run;
use report::Comparison;

fn main(rt: HostRuntime) -> anyhow::Result<()> {
    run(Comparison::new(rt.alloc()), &rt)?;
    Ok(())
}
