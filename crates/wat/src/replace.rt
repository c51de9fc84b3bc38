//! The replacing of a file by another that is whole before it takes the place.

use std::alloc::Global;
use std::fs::{OpenFile, OpenOptions, Permissions};
use std::io;
use std::io::Write;
use std::os::unix::fs::OpenOptionsExt;
use std::rt::Files;

/// How many names are tried for a new file.
const TRIES: u32 = 100;

/// Makes a file beside the file of that path, which only its owner may read. Returns its path and the
/// file.
fn new_beside<R: Files>(rt: &R, alloc: Global, path: &str) -> io::Result<(String, R::File)> {
    for number in 0..TRIES {
        let beside = format!(in alloc; "{path}.wat-fmt-{number}")?;
        let mut how = OpenOptions::new();
        how.write(true).create_new(true).mode(0o600);
        match how.open(rt, beside.as_str()) {
            Ok(file) => return Ok((beside, file)),
            Err(error) if error.kind() == io::ErrorKind::AlreadyExists => {}
            Err(error) => return Err(error),
        }
    }
    Err(io::Error::from(io::ErrorKind::AlreadyExists))
}

/// Gives a new file its permissions and its text, and waits until the disk has it.
fn fill<F: Write + OpenFile + Drop>(
    file: F,
    permissions: Permissions,
    text: &str,
) -> io::Result<()> {
    let mut file = file;
    file.set_permissions(permissions)?;
    file.write_all(text.as_bytes())?;
    file.sync_all()
}

/// Puts a text in the place of a file. A symbolic link stays, and what it points to is replaced.
///
/// The text is written to a new file in the same folder, with the permissions of the old one, which
/// then takes its place. Whatever fails before that, the old file stays as it is, and the new one
/// is removed.
pub(crate) fn replace_file<R: Files>(
    rt: &R,
    alloc: Global,
    name: &str,
    text: &str,
) -> io::Result<()> {
    let path = rt.canonicalize(alloc, name)?;
    let found = rt.metadata(path.as_str())?;
    if !found.is_file() {
        return Err(io::Error::new(
            io::ErrorKind::InvalidInput,
            "not a file that can be replaced",
        ));
    }
    let (beside, file) = new_beside(rt, alloc, path.as_str())?;
    let filled = match fill(file, found.permissions(), text) {
        Ok(()) => rt.rename(beside.as_str(), path.as_str()),
        Err(error) => Err(error),
    };
    if filled.is_err() {
        let _ = rt.remove_file(beside.as_str());
    }
    filled
}
