//! The files of a replay are held by one run at a time.

use std::fs::{File, TryLockError};
use std::os::unix::fs::{FileTypeExt, MetadataExt};

/// Locks both files of a replay until they are closed, which a kill of the program does too; or says
/// why they cannot be had. A file that is opened twice takes one lock alone, so two paths of one file
/// are refused even where they are not seen to be one.
pub fn hold(journal: &File, output: &File) -> Result<(), &'static str> {
    if are_one(journal, output) {
        return Err("JOURNAL and OUTPUT are one file");
    }
    match lock(journal) {
        Ok(()) => {}
        Err(TryLockError::WouldBlock) => return Err("another run holds JOURNAL"),
        Err(TryLockError::Error(_)) => return Err("JOURNAL cannot be locked where it lies"),
    }
    match lock(output) {
        Ok(()) => Ok(()),
        Err(TryLockError::WouldBlock) => Err("another run holds OUTPUT"),
        Err(TryLockError::Error(_)) => Err("OUTPUT cannot be locked where it lies"),
    }
}

/// Whether two open files are one, whatever paths they were opened by.
fn are_one(journal: &File, output: &File) -> bool {
    let Ok(one) = journal.metadata() else {
        return false;
    };
    let Ok(other) = output.metadata() else {
        return false;
    };
    one.dev() == other.dev() && one.ino() == other.ino()
}

/// Locks a file. A character device, such as /dev/null, keeps nothing that a second run could break,
/// and is every run's.
fn lock(file: &File) -> Result<(), TryLockError> {
    if let Ok(metadata) = file.metadata() {
        if metadata.file_type().is_char_device() {
            return Ok(());
        }
    }
    file.try_lock()
}
