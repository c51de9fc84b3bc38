//! Reading all input.
ghost use Rattle.std.specs.Prelude.{◌↔◌, ◌⊎◌, IsTrue, IfOk, OnErr, IsErrOf};
ghost use Rattle.wat_show.specs.Streams.{ReadsAll, ReadsOn};

use crate::error::RunError;
use crate::watched::Watched;
use std::alloc::Global;
use std::io::Read;

/// Reads all input, up to the first read that returns 0 bytes. A read that returns fewer bytes than
/// requested is not the end.
pub(crate) fn read_all<R: Read>(alloc: Global, reader: &mut Watched<R>) -> Result<Vec<u8>, RunError>
    ensures all { IfOk result (λ bytes.
        ReadsAll (R.remaining reader.old.inner) (R.remaining reader.new.inner) bytes.items) }
    ensures part { OnErr result
        (ReadsOn (R.remaining reader.old.inner) (R.remaining reader.new.inner)) }
    ensures failed { IsTrue reader.new.failed
        ↔ (IsTrue reader.old.failed ⊎ IsErrOf result RunError.Read) }
    ensures not_write { ¬ IsErrOf result RunError.Write }
{
    let mut bytes = Vec::new(alloc);
    let mut piece = [0u8; 65536];
    loop {
        match reader.read(&mut piece) {
            Ok(0) => return Ok(bytes),
            Ok(count) => bytes.extend_from_slice(&piece[..count])?,
            Err(_) => return Err(RunError::Read),
        }
    }
}
