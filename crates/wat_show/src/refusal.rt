//! The output for a text that is refused.

ghost use Rattle.std.specs.Prelude.{◌≡◌, ◌≢◌, IfOk};
ghost use Rattle.wat_show.specs.Prelude.{Memory, offset_of};
ghost use Rattle.wat_show.specs.Shown.{refusal};

use crate::words::{add, add_number};
use std::alloc::{AllocError, Global};
use wat_tokens::{Error, Fault};

/// Returns the line of a refusal, and the exit status 1. If the refusal is out of memory, returns the
/// error.
pub(crate) fn refused(alloc: Global, error: Error) -> Result<(Vec<u8>, u8), AllocError>
    ensures fault { IfOk result (λ made. error.fault ≢ Memory) }
    ensures line { IfOk result (λ made. made.0.items ≡ refusal error.fault (offset_of error.span)) }
    ensures status { IfOk result (λ made. made.1 ≡ 1) }
{
    if error.fault == Fault::Memory {
        return Err(AllocError);
    }
    let mut out = Vec::new(alloc);
    add(&mut out, "refused ")?;
    add(&mut out, error.fault.name())?;
    add(&mut out, " at ")?;
    add_number(&mut out, error.span.offset())?;
    add(&mut out, "\n")?;
    Ok((out, 1))
}
