//! Reading all of an input.

ghost use Rattle.std.specs.Prelude.{◌≡◌, true, IfOk, IsErrOf, OnOk};
ghost use Rattle.promql_run.specs.Inputs.{HasRead};

use crate::ended::Ended;
use std::alloc::Global;
use std::io::Read;
use thiserror::Error;

/// Why an input was not read to its end.
#[derive(Clone, Copy, Debug, Error)]
pub enum ReadFault {
    /// An allocation failed.
    #[error("out of memory")]
    Memory,
    /// A read failed.
    #[error("read failed")]
    Read,
}

/// Reads all that the reader has. Each read but the last adds a byte, so an endless input ends in `Memory`.
///
/// # Errors
///
/// `Read` where a read failed, `Memory` where an allocation failed.
pub fn read_all<R: Read>(alloc: Global, reader: &mut Ended<R>) -> Result<Vec<u8>, ReadFault>
    ensures read { IfOk result (λ bytes. HasRead (R.remaining reader.old.inner)
        (R.remaining reader.new.inner) bytes.items) }
    ensures quiet { OnOk result (reader.new.failed ≡ reader.old.failed) }
    ensures memory { IsErrOf result ReadFault.Memory → reader.new.failed ≡ reader.old.failed }
    ensures failed { IsErrOf result ReadFault.Read → reader.new.failed ≡ true }
{
    let mut bytes = Vec::new(alloc);
    let mut chunk = [0; 4096];
    loop {
        let Ok(count) = reader.read(&mut chunk) else {
            return Err(ReadFault::Read);
        };
        if count == 0 {
            return Ok(bytes);
        }
        if bytes.extend_from_slice(&chunk[..count]).is_err() {
            return Err(ReadFault::Memory);
        }
    }
}
