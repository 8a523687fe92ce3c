//! Files of the system that are replaced as a whole, where the system allows that.
use crate::faults::StoreFault;
use crate::streams::write_whole;
use std::alloc::Global;
use std::fs;
use std::fs::{File, Files, OpenFile, OpenOptions};
use std::io::ErrorKind;

/// What came of a file that was to be replaced.
enum Replacement {
    /// It holds the new bytes.
    Done,
    /// It is as it was: the new bytes could not be written.
    Unwritten,
    /// It is as it was: it can't be replaced, so it may be written itself.
    Impossible,
}

/// Makes the file hold these bytes and no others, by way of a file beside it.
pub(crate) fn store_file<R: Files>(
    rt: &R,
    alloc: Global,
    name: &str,
    bytes: &[u8],
) -> Result<(), StoreFault> {
    let Ok(beside) = format!(in alloc; "{name}.unfinished") else {
        return Err(StoreFault::Memory);
    };
    let is_stored = match replace_file(rt, name, beside.as_str(), bytes) {
        Replacement::Done => true,
        Replacement::Unwritten => false,
        Replacement::Impossible => write_file(rt, name, bytes),
    };
    if is_stored {
        Ok(())
    } else {
        Err(StoreFault::Failed)
    }
}

/// Writes the bytes to a new file beside the named one, and gives it the name.
fn replace_file<R: Files>(rt: &R, name: &str, beside: &str, bytes: &[u8]) -> Replacement {
    if !is_replaceable(rt, name) {
        return Replacement::Impossible;
    }
    // A run that was killed may have left one.
    let _ = fs::remove_file(rt, beside);
    let Ok(mut file) = File::create_new(rt, beside) else {
        return Replacement::Impossible;
    };
    if let Ok(old) = fs::metadata(rt, name) {
        let _ = file.set_permissions(old.permissions());
    }
    let replacement = if !write_whole(&mut file, bytes) || file.sync_all().is_err() {
        Replacement::Unwritten
    } else if fs::rename(rt, beside, name).is_err() {
        Replacement::Impossible
    } else {
        return Replacement::Done;
    };
    let _ = fs::remove_file(rt, beside);
    replacement
}

/// Whether nothing has the name, or a file that may be written. A device, a folder or a link is to stay
/// what it is.
fn is_replaceable<R: Files>(rt: &R, name: &str) -> bool {
    match fs::symlink_metadata(rt, name) {
        Ok(old) => old.is_file() && OpenOptions::new().write(true).open(rt, name).is_ok(),
        Err(error) => error.kind() == ErrorKind::NotFound,
    }
}

/// Makes the file itself hold these bytes and no others, and says whether it does.
fn write_file<R: Files>(rt: &R, name: &str, bytes: &[u8]) -> bool {
    match fs::create(rt, name) {
        Ok(mut file) => write_whole(&mut file, bytes),
        Err(_) => false,
    }
}
