//! The errors of a run.
ghost use Rattle.std.specs.Prelude.{◌≡◌};
ghost use Rattle.wat_show.specs.declared.error.RunError.TheVariants.{Memory};

use std::alloc::AllocError;
use thiserror::Error;

/// The error of a run.
#[derive(Clone, Copy, Debug, PartialEq, Eq, Error)]
pub enum RunError {
    /// A read failed.
    #[error("cannot read")]
    Read,
    /// A write failed, or wrote nothing.
    #[error("cannot write")]
    Write,
    /// Memory ran out.
    #[error("out of memory")]
    Memory,
}

impl From<AllocError> for RunError {
    ghost from_gives = { λ _ error. error ≡ Memory };

    fn from(_: AllocError) -> RunError {
        RunError::Memory
    }
}
