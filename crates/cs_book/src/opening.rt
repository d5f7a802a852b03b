//! Opening a book.
ghost use Rattle.std.specs.Prelude.{◌≡◌, ◌≤◌, ◌<◌, ◌↔◌, [], ◌∷◌, List, Some, Ok, false, length, IfOk, IfErr, IfSome, IsTrue, MatchResult};
ghost use Rattle.std.specs.Io.KnownBytes.{Keeps};
ghost use Rattle.cs_device.specs.Crash.{CrashesLeave, LeavesOnly};
ghost use Rattle.cs_journal.specs.Crashes.{HasSamePayloads, KeepsAnOldImage, IsUntouched};
ghost use Rattle.cs_journal.specs.Rows.{limit, stored_of, place_behind};
ghost use Rattle.cs_journal.specs.State.{WhereTold};
ghost use Rattle.cs_schedule.specs.declared.entry.Entry.{Entry as TheEntry};
ghost use Rattle.cs_schedule.specs.declared.entry.Entry.TheVariants.{Begin};
ghost use Rattle.cs_schedule.specs.Spelling.{payload, IsInFormat};
ghost use Rattle.cs_book.specs.Waiting.{AreFree};
ghost use Rattle.cs_book.specs.Book.{AreEntriesOf, IsRunning, StillTells};
ghost use Rattle.cs_book.specs.Entries.{HoldsEntries};
ghost use Rattle.cs_book.specs.Reading.{IsTold};
ghost use Rattle.cs_book.specs.Opening.{IsOutputFault, IsReopenFault, IsBeginFault, IsFirstFault, IsOpenFault, IsRefusal, IsFrom, HoldsSameOrFirst, HoldsOldOrFirst, IfNothingIsWritten, IfGateIsBroken};

use crate::book::Book;
use crate::fault::OpenFault;
use crate::found::Found;
use crate::reading::{begin_telling, read_all};
use cs_device::Disk;
use cs_journal::{Framed, Journal, JournalFault, Stored, frame};
use cs_redo::{RedoFault, redo};
use cs_schedule::{Entry, leases_are_no_entries};
use cs_text::Telling;
use cs_types::{Duplicate, Memory, Window};
use std::alloc::Global;

fn is_same_text(one: &[u8], other: &[u8]) -> bool
    ensures { IsTrue result ↔ (one.now ≡ other.now) }
{
    one == other
}

/// Whether two windows are one.
fn is_same_window(one: &Window, other: &Window) -> bool
    ensures { IsTrue result ↔ (one.now ≡ other.now) }
{
    if one.start.us() != other.start.us() {
        return false;
    }
    if one.end.us() != other.end.us() {
        return false;
    }
    is_same_text(
        one.stream.as_str().as_bytes(),
        other.stream.as_str().as_bytes(),
    )
}

/// That the entry that begins a window is within the grammar, and how long its payload may be.
fn window_fits(window: &Window)
    requires { length window.now.stream ≤ 128 }
    ensures format { IsInFormat (Begin window.now) }
    ensures short { length (payload (Begin window.now)) ≤ 150 }
{
    let _stream = window.stream.as_str();
    let _start = window.start.us();
    let _end = window.end.us();
}

/// The payload of the entry that begins a window, in its frame.
fn frame_begin(alloc: Global, window: &Window) -> Result<Framed, Memory>
    requires { length (payload (Begin window.now)) ≤ limit }
    ensures { IfOk result (λ f. f ≡ payload (Begin window.now)) }
{
    let entry = Entry::Begin(window.copy()?);
    let payload = entry.encode(alloc)?;
    frame(alloc, payload.as_slice())
}

impl<J: Disk, O: Disk> Book<J, O> {
    /// A book over a journal of which this is told; the output is made to say it.
    fn over(
        alloc: Global,
        journal: Journal<J>,
        output: O,
        telling: Telling,
    ) -> Result<Book<J, O>, (OpenFault, J, O)>
        requires running { journal.failed ≡ false }
        requires order { telling.board.window.start ≤ telling.board.window.end }
        requires told { (es : List TheEntry) × IfSome (J.seen journal.disk) (λ bytes. HoldsEntries bytes es) × IsTold telling es }
        ensures journal { IfOk result (λ b. b.journal ≡ journal) }
        ensures window { IfOk result (λ b. b.board.window ≡ telling.board.window) }
        ensures free { IfOk result (λ b. AreFree b.board.rows × (b.is_opening ≡ false)) }
        ensures running { IfOk result (λ b. b.output_failed ≡ false) }
        ensures entries { IfOk result (λ b. (es : List TheEntry) → IfSome (J.seen journal.disk) (λ bytes. HoldsEntries bytes es) → IsTold telling es → AreEntriesOf J.seen O.seen b es) }
        ensures durable { IfOk result (λ b. IfSome (O.seen b.output) (LeavesOnly (O.crash b.output))) }
        // What told its bytes tells bytes still.
        ensures still { IfOk result (λ b. StillTells (J.seen journal.disk) (J.seen b.journal.disk) × StillTells (O.seen output) (O.seen b.output)) }
        ensures back { IfErr result (λ e. e.1 ≡ journal.disk) }
        ensures refused { IfErr result (λ e. IsOutputFault (O.faults output) e.0 (O.faults e.2)) }
        ensures object { MatchResult result (λ b. O.same output b.output) (λ e. O.same output e.2) }
        ensures later { MatchResult result (λ b. O.faults b.output ≡ O.faults output) (λ e. O.faults output ≤ O.faults e.2) }
    {
        leases_are_no_entries();
        let mut output = output;
        let Telling {
            mut board,
            lines,
            marked,
        } = telling;
        let text = match lines.into_text() {
            Ok(text) => text,
            Err(_) => return Err((OpenFault::Memory, journal.close(), output)),
        };
        match redo(alloc, &mut output, text.as_str().as_bytes()) {
            Ok(()) => {}
            Err(RedoFault::DiskFault) => {
                return Err((OpenFault::OutputFault, journal.close(), output));
            }
            Err(RedoFault::Memory) => return Err((OpenFault::Memory, journal.close(), output)),
        }
        board.fresh();
        Ok(Book {
            journal,
            output,
            board,
            marked,
            is_opening: false,
            output_failed: false,
        })
    }

    /// A book over a journal that has entries, which are told; they are to be of this window.
    fn reopened(
        alloc: Global,
        journal: Journal<J>,
        output: O,
        window: &Window,
        telling: Telling,
    ) -> Result<Book<J, O>, (OpenFault, J, O)>
        requires running { journal.failed ≡ false }
        requires order { window.now.start ≤ window.now.end }
        requires told { (es : List TheEntry) × IfSome (J.seen journal.disk) (λ bytes. HoldsEntries bytes es) × IsTold telling es }
        ensures journal { IfOk result (λ b. b.journal ≡ journal) }
        ensures window { IfOk result (λ b. b.board.window ≡ window.now) }
        ensures free { IfOk result (λ b. AreFree b.board.rows × (b.is_opening ≡ false)) }
        ensures running { IfOk result (λ b. b.output_failed ≡ false) }
        ensures entries { IfOk result (λ b. (es : List TheEntry) → IfSome (J.seen journal.disk) (λ bytes. HoldsEntries bytes es) → IsTold telling es → AreEntriesOf J.seen O.seen b es) }
        ensures durable { IfOk result (λ b. IfSome (O.seen b.output) (LeavesOnly (O.crash b.output))) }
        // What told its bytes tells bytes still.
        ensures still { IfOk result (λ b. StillTells (J.seen journal.disk) (J.seen b.journal.disk) × StillTells (O.seen output) (O.seen b.output)) }
        ensures back { IfErr result (λ e. e.1 ≡ journal.disk) }
        ensures refused { IfErr result (λ e. IsReopenFault telling.board.window window.now (O.faults output) e.0 (O.faults e.2)) }
        ensures stays { IfErr result (λ e. IfNothingIsWritten e.0 (Keeps (O.seen output) (O.seen e.2))) }
        ensures output_untouched { IfErr result (λ e. IfNothingIsWritten e.0 (IsUntouched (O.seen output) (O.seen e.2) (O.crash output) (O.crash e.2))) }
        ensures object { MatchResult result (λ b. O.same output b.output) (λ e. O.same output e.2) }
        ensures later { MatchResult result (λ b. O.faults b.output ≡ O.faults output) (λ e. O.faults output ≤ O.faults e.2) }
    {
        if is_same_window(telling.board.window(), window) {
            return Book::over(alloc, journal, output, telling);
        }
        match telling.board.window().copy() {
            Ok(other) => Err((OpenFault::OtherJournal(other), journal.close(), output)),
            Err(_) => Err((OpenFault::Memory, journal.close(), output)),
        }
    }
}

impl<J: Disk, O: Disk> Book<J, O> {
    /// A book over a journal without entries, into which its first is put.
    fn put_begin(
        alloc: Global,
        journal: Journal<J>,
        output: O,
        telling: Telling,
        framed: Framed,
    ) -> Result<Book<J, O>, (OpenFault, J, O)>
        requires running { journal.failed ≡ false }
        requires place { journal.gate ≡ 0 }
        requires none { IfSome (J.seen journal.disk) (λ bytes. HoldsEntries bytes []) }
        requires order { telling.board.window.start ≤ telling.board.window.end }
        requires short { length (payload (Begin telling.board.window)) ≤ 150 }
        requires form { IsInFormat (Begin telling.board.window) }
        requires told { IsTold telling (Begin telling.board.window ∷ []) }
        requires framed { framed ≡ payload (Begin telling.board.window) }
        ensures window { IfOk result (λ b. b.board.window ≡ telling.board.window) }
        ensures free { IfOk result (λ b. AreFree b.board.rows × (b.is_opening ≡ false)) }
        ensures running { IfOk result IsRunning }
        ensures entries { IfOk result (λ b. AreEntriesOf J.seen O.seen b (Begin telling.board.window ∷ [])) }
        ensures durable { IfOk result (λ b. IfSome (O.seen b.output) (LeavesOnly (O.crash b.output))) }
        // What told its bytes tells bytes still.
        ensures still { IfOk result (λ b. StillTells (J.seen journal.disk) (J.seen b.journal.disk) × StillTells (O.seen output) (O.seen b.output)) }
        ensures any_moment { IfSome (J.seen journal.disk) (λ bytes. MatchResult result
            (λ b. CrashesLeave (HoldsSameOrFirst telling.board.window bytes) (J.crash journal.disk) (J.crash b.journal.disk))
            (λ e. CrashesLeave (HoldsSameOrFirst telling.board.window bytes) (J.crash journal.disk) (J.crash e.1))) }
        ensures refused { IfErr result (λ e. IsBeginFault (J.faults journal.disk) (O.faults output) e.0 (J.faults e.1) (O.faults e.2)) }
        ensures objects { MatchResult result (λ b. J.same journal.disk b.journal.disk × O.same output b.output) (λ e. J.same journal.disk e.1 × O.same output e.2) }
        ensures later { MatchResult result (λ b. (J.faults b.journal.disk ≡ J.faults journal.disk) × (O.faults b.output ≡ O.faults output)) (λ e. (J.faults journal.disk ≤ J.faults e.1) × (O.faults output ≤ O.faults e.2)) }
    {
        let mut journal = journal;
        let Ok(()) = journal.put(&framed) else {
            return Err((OpenFault::JournalFault, journal.close(), output));
        };
        Book::over(alloc, journal, output, telling)
    }

    /// A book over a journal without entries, which this window begins; the output is to be empty.
    fn begun(
        alloc: Global,
        journal: Journal<J>,
        output: O,
        window: &Window,
    ) -> Result<Book<J, O>, (OpenFault, J, O)>
        requires running { journal.failed ≡ false }
        requires place { journal.gate ≡ 0 }
        requires none { IfSome (J.seen journal.disk) (λ bytes. HoldsEntries bytes []) }
        requires order { window.now.start ≤ window.now.end }
        requires stream { length window.now.stream ≤ 128 }
        ensures window { IfOk result (λ b. b.board.window ≡ window.now) }
        ensures free { IfOk result (λ b. AreFree b.board.rows × (b.is_opening ≡ false)) }
        ensures running { IfOk result IsRunning }
        ensures entries { IfOk result (λ b. AreEntriesOf J.seen O.seen b (Begin window.now ∷ [])) }
        ensures durable { IfOk result (λ b. IfSome (O.seen b.output) (LeavesOnly (O.crash b.output))) }
        // What told its bytes tells bytes still.
        ensures still { IfOk result (λ b. StillTells (J.seen journal.disk) (J.seen b.journal.disk) × StillTells (O.seen output) (O.seen b.output)) }
        ensures any_moment { IfSome (J.seen journal.disk) (λ bytes. MatchResult result
            (λ b. CrashesLeave (HoldsSameOrFirst window.now bytes) (J.crash journal.disk) (J.crash b.journal.disk))
            (λ e. CrashesLeave (HoldsSameOrFirst window.now bytes) (J.crash journal.disk) (J.crash e.1))) }
        ensures refused { IfErr result (λ e. IsFirstFault (O.seen output) (J.faults journal.disk) (O.faults output) e.0 (J.faults e.1) (O.faults e.2)) }
        ensures stays { IfErr result (λ e. IfNothingIsWritten e.0 ((e.1 ≡ journal.disk) × Keeps (O.seen output) (O.seen e.2))) }
        ensures output_untouched { IfErr result (λ e. IfNothingIsWritten e.0 (IsUntouched (O.seen output) (O.seen e.2) (O.crash output) (O.crash e.2))) }
        // Where the output has bytes nothing is begun, whatever is answered.
        ensures not_begun { IfSome (O.seen output) (λ text. 0 < length text → MatchResult result (λ _. ⊥) (λ e. (e.1 ≡ journal.disk) × Keeps (O.seen output) (O.seen e.2))) }
        ensures objects { MatchResult result (λ b. J.same journal.disk b.journal.disk × O.same output b.output) (λ e. J.same journal.disk e.1 × O.same output e.2) }
        ensures later { MatchResult result (λ b. (J.faults b.journal.disk ≡ J.faults journal.disk) × (O.faults b.output ≡ O.faults output)) (λ e. (J.faults journal.disk ≤ J.faults e.1) × (O.faults output ≤ O.faults e.2)) }
    {
        window_fits(window);
        let _gate = journal.gate();
        let mut output = output;
        match output.len() {
            Ok(0) => {}
            Ok(length) => {
                return Err((OpenFault::OutputNotEmpty(length), journal.close(), output));
            }
            Err(_) => return Err((OpenFault::OutputFault, journal.close(), output)),
        }
        let Ok(framed) = frame_begin(alloc, window) else {
            return Err((OpenFault::Memory, journal.close(), output));
        };
        match begin_telling(alloc, window) {
            Ok(telling) => Book::put_begin(alloc, journal, output, telling, framed),
            Err(_) => Err((OpenFault::Memory, journal.close(), output)),
        }
    }
}

impl<J: Disk, O: Disk> Book<J, O> {
    /// A book over a journal that was opened, and of which these payloads were read.
    fn open_over(
        alloc: Global,
        journal: Journal<J>,
        stored: &[Stored],
        output: O,
        window: &Window,
    ) -> Result<Book<J, O>, (OpenFault, J, O)>
        requires running { journal.failed ≡ false }
        requires place { journal.gate ≡ place_behind 0 stored.now }
        requires stored { IfSome (J.seen journal.disk) (λ bytes. stored_of bytes ≡ Ok stored.now) }
        requires order { window.now.start ≤ window.now.end }
        requires stream { length window.now.stream ≤ 128 }
        ensures window { IfOk result (λ b. b.board.window ≡ window.now) }
        ensures free { IfOk result (λ b. AreFree b.board.rows × (b.is_opening ≡ false)) }
        ensures running { IfOk result IsRunning }
        ensures entries { IfOk result (λ b. (es : List TheEntry) × AreEntriesOf J.seen O.seen b es × IsFrom window.now (J.seen journal.disk) es) }
        ensures durable { IfOk result (λ b. IfSome (O.seen b.output) (LeavesOnly (O.crash b.output))) }
        // What told its bytes tells bytes still.
        ensures still { IfOk result (λ b. StillTells (J.seen journal.disk) (J.seen b.journal.disk) × StillTells (O.seen output) (O.seen b.output)) }
        ensures any_moment { IfSome (J.seen journal.disk) (λ bytes. MatchResult result
            (λ b. CrashesLeave (HoldsSameOrFirst window.now bytes) (J.crash journal.disk) (J.crash b.journal.disk))
            (λ e. CrashesLeave (HoldsSameOrFirst window.now bytes) (J.crash journal.disk) (J.crash e.1))) }
        ensures refused { IfErr result (λ e. IsOpenFault window.now stored.now (O.seen output) (J.faults journal.disk) (O.faults output) e.0 (J.faults e.1) (O.faults e.2)) }
        ensures stays { IfErr result (λ e. IfNothingIsWritten e.0 ((e.1 ≡ journal.disk) × Keeps (O.seen output) (O.seen e.2))) }
        ensures output_untouched { IfErr result (λ e. IfNothingIsWritten e.0 (IsUntouched (O.seen output) (O.seen e.2) (O.crash output) (O.crash e.2))) }
        ensures not_begun { IfSome (O.seen output) (λ text. stored.now ≡ [] → 0 < length text → MatchResult result (λ _. ⊥) (λ e. (e.1 ≡ journal.disk) × Keeps (O.seen output) (O.seen e.2))) }
        ensures objects { MatchResult result (λ b. J.same journal.disk b.journal.disk × O.same output b.output) (λ e. J.same journal.disk e.1 × O.same output e.2) }
        ensures later { MatchResult result (λ b. (J.faults b.journal.disk ≡ J.faults journal.disk) × (O.faults b.output ≡ O.faults output)) (λ e. (J.faults journal.disk ≤ J.faults e.1) × (O.faults output ≤ O.faults e.2)) }
    {
        let _gate = journal.gate();
        match read_all(alloc, stored) {
            Ok(Found::Nothing) => Book::begun(alloc, journal, output, window),
            Ok(Found::Whole(telling)) => Book::reopened(alloc, journal, output, window, telling),
            Ok(Found::Bad(gate)) => Err((OpenFault::BadJournal(gate), journal.close(), output)),
            Err(_) => Err((OpenFault::Memory, journal.close(), output)),
        }
    }

    /// Opens the book of a window over what earlier runs and crashes have left: reads the journal's
    /// entries, puts the one that begins the window into a journal without entries, and makes the
    /// output say what the entries tell, as far as it does not. Refused in this order:
    ///
    /// 1. `JournalFault`: a call of the journal's disk failed.
    /// 2. `BadJournal`: the open gate at this place has no whole entry behind it; or each has, and
    ///    behind the gate at this place stands the first that is no entry or does not follow those
    ///    before it.
    /// 3. `OtherJournal`: the journal is of this other window.
    /// 4. `OutputNotEmpty`: the journal has no entry and the output has so many bytes; nothing is
    ///    written.
    /// 5. `OutputFault`: a call of the output's disk failed.
    ///
    /// `Memory` is want of memory. After each the disks come back.
    pub fn open(
        alloc: Global,
        journal: J,
        output: O,
        window: &Window,
    ) -> Result<Book<J, O>, (OpenFault, J, O)>
        requires stream { length window.now.stream ≤ 128 }
        requires order { window.now.start ≤ window.now.end }
        ensures window { IfOk result (λ b. b.board.window ≡ window.now) }
        ensures free { IfOk result (λ b. AreFree b.board.rows × (b.is_opening ≡ false)) }
        ensures running { IfOk result IsRunning }
        // The entries are the journal's, or the one that begins the window where it had none.
        ensures entries { IfOk result (λ b. (es : List TheEntry) × AreEntriesOf J.seen O.seen b es × IsFrom window.now (J.seen journal) es) }
        ensures durable { IfOk result (λ b. IfSome (O.seen b.output) (LeavesOnly (O.crash b.output))) }
        // What told its bytes tells bytes still.
        ensures still { IfOk result (λ b. StillTells (J.seen journal) (J.seen b.journal.disk) × StillTells (O.seen output) (O.seen b.output)) }
        // A crash at any moment leaves the payloads of an image that one might have left before, or, where one of these had none, that of the entry that begins the window.
        ensures any_moment { IfSome (J.seen journal) (λ _. MatchResult result
            (λ b. CrashesLeave (HoldsOldOrFirst window.now (J.crash journal)) (J.crash journal) (J.crash b.journal.disk))
            (λ e. CrashesLeave (HoldsOldOrFirst window.now (J.crash journal)) (J.crash journal) (J.crash e.1))) }
        ensures refused { IfErr result (λ e. IsRefusal window.now (J.seen journal) (O.seen output) (J.faults journal) (O.faults output) e.0 (J.faults e.1) (O.faults e.2)) }
        // Both files stay as they are, but for what the journal's opening mends behind its entries.
        ensures stays { IfErr result (λ e. IfNothingIsWritten e.0 (WhereTold HasSamePayloads (J.seen journal) (J.seen e.1) × KeepsAnOldImage (J.seen journal) (J.crash journal) (J.crash e.1) × Keeps (O.seen output) (O.seen e.2))) }
        // A journal whose open gate has no whole entry behind it stays as it is, to the byte.
        ensures untouched { IfErr result (λ e. IfGateIsBroken e.0 (J.seen journal) (IsUntouched (J.seen journal) (J.seen e.1) (J.crash journal) (J.crash e.1))) }
        // And with each refusal by which nothing is written, the output stays so too.
        ensures output_untouched { IfErr result (λ e. IfNothingIsWritten e.0 (IsUntouched (O.seen output) (O.seen e.2) (O.crash output) (O.crash e.2))) }
        // Where the journal has no entry and the output has bytes, none is put and the output stays, whatever is answered.
        ensures not_begun { IfSome (J.seen journal) (λ bytes. IfSome (O.seen output) (λ text. stored_of bytes ≡ Ok [] → 0 < length text → MatchResult result (λ _. ⊥) (λ e. KeepsAnOldImage (J.seen journal) (J.crash journal) (J.crash e.1) × Keeps (O.seen output) (O.seen e.2)))) }
        ensures objects { MatchResult result (λ b. J.same journal b.journal.disk × O.same output b.output) (λ e. J.same journal e.1 × O.same output e.2) }
        ensures later { MatchResult result (λ b. (J.faults b.journal.disk ≡ J.faults journal) × (O.faults b.output ≡ O.faults output)) (λ e. (J.faults journal ≤ J.faults e.1) × (O.faults output ≤ O.faults e.2)) }
    {
        match Journal::open(alloc, journal) {
            Ok((journal, stored)) => {
                Book::open_over(alloc, journal, stored.as_slice(), output, window)
            }
            Err((JournalFault::BadJournal(place), disk)) => {
                Err((OpenFault::BadJournal(place), disk, output))
            }
            Err((JournalFault::Memory, disk)) => Err((OpenFault::Memory, disk, output)),
            Err((JournalFault::DiskFault, disk)) => { Err((OpenFault::JournalFault, disk, output)) }
            Err((JournalFault::Full(_), _)) => unreachable!(),
        }
    }
}
