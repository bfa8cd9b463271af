//! Why a line was not read.
use std::alloc::AllocError;
use std::io;

/// What failed where the next line was to be read.
#[derive(Debug, Drop)]
pub enum Failure {
    /// The input, or the memory for the line.
    Input(io::Error),
    /// The output, which is flushed before a wait.
    Output(io::Error),
}

/// Memory is wanted for a line of the input.
impl From<AllocError> for Failure {
    ghost use Rattle.lines.specs.Failures.{LacksMemory};

    ghost from_gives = { λ _ f. LacksMemory f };

    fn from(error: AllocError) -> Failure {
        Failure::Input(io::Error::from(error))
    }
}
