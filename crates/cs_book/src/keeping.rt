//! What a book is and keeps.
ghost use Rattle.std.specs.Prelude.{◌≡◌, List, false};
ghost use Rattle.cs_journal.specs.State.{IsSettled};
ghost use Rattle.cs_schedule.specs.declared.entry.Entry.{Entry};
ghost use Rattle.cs_schedule.specs.Board.{IsOrdered};
ghost use Rattle.cs_book.specs.Book.{IsRunning, AreEntriesOf, IsSound, failure};

use crate::book::Book;
use crate::fault::CommitFault;
use cs_device::Disk;
use cs_schedule::Board;

impl<J: Disk, O: Disk> Book<J, O> {
    /// The window, and the rows of the journal's entries. It takes no memory.
    pub fn board(&self) -> &Board
        ensures { result.now ≡ self.now.board }
    {
        &self.board
    }

    /// The fault that the book answers until it is opened again, where a call of a disk has failed.
    /// It takes no memory.
    pub fn failure(&self) -> Option<CommitFault>
        ensures { result ≡ failure self.now.journal.failed self.now.output_failed }
    {
        if self.journal.has_failed() {
            return Some(CommitFault::JournalFault);
        }
        if self.output_failed {
            return Some(CommitFault::OutputFault);
        }
        None
    }

    /// What the book keeps: while no call of a disk has failed there are entries of which the journal,
    /// the rows and the output are, and while none of the journal's has a crash leaves the journal as
    /// it is. Each row that is leased is not finished, and its parents are finished rows.
    pub fn settled(&self)
        ensures sound { IsSound self.now.board self.now.is_opening }
        ensures ordered { IsOrdered self.now.board.rows }
        ensures journal { self.now.journal.failed ≡ false → IsSettled (J.seen self.now.journal.disk) (J.crash self.now.journal.disk) self.now.journal.gate }
        ensures entries { IsRunning self.now → (es : List Entry) × AreEntriesOf J.seen O.seen self.now es }
    {
        let _gate = self.journal.gate();
        let _rows = self.board.rows();
    }

    /// Gives the disks back.
    pub fn close(self) -> (J, O)
        ensures { result ≡ (self.journal.disk, self.output) }
    {
        let Book {
            journal,
            output,
            ..
        } = self;
        (journal.close(), output)
    }
}
