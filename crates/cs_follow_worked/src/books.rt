// Books over disks in memory.
ghost use Rattle.std.specs.Prelude.{◌≡◌, false, IfOk};
ghost use Rattle.cs_book.specs.Waiting.{AreFree};

use cs_book::Book;
use cs_device::MemDisk;
use cs_types::{Items, Memory, Window};
use std::alloc::Global;

/// The disks of a book.
#[derive(Drop)]
pub struct Disks {
    pub journal: MemDisk,
    pub output: MemDisk,
}

fn empty_disk(alloc: Global) -> Result<MemDisk, Memory> {
    MemDisk::new(alloc, Items::new(alloc), 100_000, 1_000, Items::new(alloc))
}

/// Disks without bytes.
pub fn empty_disks(alloc: Global) -> Result<Disks, Memory> {
    Ok(Disks {
        journal: empty_disk(alloc)?,
        output: empty_disk(alloc)?,
    })
}

/// The disks after a crash.
pub fn after_crash(disks: Disks) -> Result<Disks, Memory> {
    Ok(Disks {
        journal: disks.journal.after_crash()?,
        output: disks.output.after_crash()?,
    })
}

/// The book of a window over disks, or the disks where it cannot be opened.
pub fn opened(
    alloc: Global,
    disks: Disks,
    window: &Window,
) -> Result<Result<Book<MemDisk, MemDisk>, Disks>, Memory>
    ensures { IfOk result (λ r. IfOk r (λ book. AreFree book.board.rows × (book.is_opening ≡ false))) }
{
    if window.stream.as_str().len() > 128 {
        return Err(Memory);
    }
    if window.start.us() > window.end.us() {
        return Err(Memory);
    }
    match Book::open(alloc, disks.journal, disks.output, window) {
        Ok(book) => Ok(Ok(book)),
        Err((_fault, journal, output)) => Ok(Err(Disks { journal, output })),
    }
}

/// The bytes of a disk, as the text that they are.
pub fn tell_bytes(told: &mut String, disk: &MemDisk) -> Result<(), Memory> {
    for byte in disk.bytes() {
        told.push(char::from(*byte))?;
    }
    Ok(())
}
