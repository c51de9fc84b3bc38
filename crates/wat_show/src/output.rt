//! Writing the whole output.
ghost use Rattle.std.specs.Prelude.{◌↔◌, ◌⊎◌, IsTrue, IsErr, OnOk, OnErr, IsOkUnless};
ghost use Rattle.wat_show.specs.Prelude.{Appends, AppendsBeginning};

use crate::error::RunError;
use crate::watched::Watched;
use std::io::Write;

/// Writes all of `out`. The writer isn't flushed.
///
/// Returns [`RunError::Write`] if a write fails or writes nothing. In this case a prefix of `out` is
/// written.
pub fn write_all_of<W: Write>(writer: &mut Watched<W>, out: &[u8]) -> Result<(), RunError>
    ensures all { OnOk result
        (Appends (W.contents writer.old.inner) (W.contents writer.new.inner) out.now) }
    ensures part { OnErr result
        (AppendsBeginning (W.contents writer.old.inner) (W.contents writer.new.inner) out.now) }
    ensures failed { IsTrue writer.new.failed ↔ (IsTrue writer.old.failed ⊎ IsErr result) }
    ensures only_write { IsOkUnless result RunError.Write }
{
    let mut rest = out;
    while !rest.is_empty() {
        match writer.write(rest) {
            Ok(0) => return Err(RunError::Write),
            Ok(count) => rest = &rest[count..],
            Err(_) => return Err(RunError::Write),
        }
    }
    Ok(())
}
