// The replay of a window, over the journal and the output that earlier runs left.
ghost use Rattle.std.specs.Prelude.{◌≡◌, ◌≤◌, ◌⊎◌, ℕ, length, IfSome};
ghost use Rattle.cs_device.specs.Causes.{Rose};
ghost use Rattle.cs_book.specs.declared.fault.OpenFault.{OpenFault as Fault};
ghost use Rattle.cs_tool.specs.Answers.{IsReplayStatus, IsPastScript};
ghost use Rattle.cs_tool.specs.Complete.{Completes};
ghost use Rattle.cs_tool.specs.Database.{OnScript, IsBadScript};
ghost use Rattle.cs_tool.specs.Journal.{files, HasReplayed, Survives, IsOpenStatus, IsNotOpened};
ghost use Rattle.cs_tool.specs.Run.{IsBeforeFiles};
ghost use Rattle.cs_tool.specs.declared.status.Status.TheVariants as status;

use crate::Status;
use crate::database::database_of;
use crate::following::{Going, follow_window};
use cs_book::{Book, OpenFault};
use cs_device::{Disk, Source};
use cs_schedule::{journals_stay_consistent, payloads_differ};
use cs_script::ServerState;
use cs_types::Window;
use std::alloc::Global;

/// Reads the script, opens the book that the journal and the output are, and follows the window over
/// a server of what the script makes.
pub(crate) fn replay<S: Source, J: Disk, O: Disk>(
    alloc: Global,
    script: &mut S,
    journal: &mut J,
    output: &mut O,
    window: &Window,
    going: &Going,
) -> Status
    requires turns { 1 ≤ going.now.pace.turns }
    requires records { (1 ≤ going.now.pace.limits.records) × (going.now.pace.limits.records ≤ 8192) }
    requires order { window.now.start ≤ window.now.end }
    requires stream { length window.now.stream ≤ 128 }
    ensures replayed { IsPastScript result → OnScript (S.left script.old) (λ db. HasReplayed db window.now going.now.pace going.now.moment (files (J.seen journal.old) (J.crash journal.old) (J.faults journal.old) (O.seen output.old) (O.crash output.old) (O.faults output.old)) (files (J.seen journal.new) (J.crash journal.new) (J.faults journal.new) (O.seen output.new) (O.crash output.new) (O.faults output.new)) result) }
    ensures survives { (journal.new ≡ journal.old) ⊎ OnScript (S.left script.old) (λ db. Survives db window.now (files (J.seen journal.old) (J.crash journal.old) (J.faults journal.old) (O.seen output.old) (O.crash output.old) (O.faults output.old)) (files (J.seen journal.new) (J.crash journal.new) (J.faults journal.new) (O.seen output.new) (O.crash output.new) (O.faults output.new))) }
    ensures journal_fault { result ≡ status.JournalFault → Rose (J.faults journal.old) (J.faults journal.new) }
    ensures output_fault { result ≡ status.OutputFault → Rose (O.faults output.old) (O.faults output.new) }
    ensures source_fault { result ≡ status.SourceFault → Rose (S.faults script.old) (S.faults script.new) }
    ensures bad_script { (line : ℕ) (cause : _) → result ≡ status.BadScript line cause → IfSome (S.left script.old) (IsBadScript line cause) }
    ensures complete { IsPastScript result → OnScript (S.left script.old) (λ db. Completes db window.now going.now.moment (files (J.seen journal.old) (J.crash journal.old) (J.faults journal.old) (O.seen output.old) (O.crash output.old) (O.faults output.old)) (files (J.seen journal.new) (J.crash journal.new) (J.faults journal.new) (O.seen output.new) (O.crash output.new) (O.faults output.new)) result) }
    ensures answers { IsReplayStatus result }
    ensures untouched { IsBeforeFiles result → (journal.new ≡ journal.old) × (output.new ≡ output.old) }
    ensures script_object { S.same script.old script.new }
    ensures journal_object { J.same journal.old journal.new }
    ensures output_object { O.same output.old output.new }
    ensures script_later { S.faults script.old ≤ S.faults script.new }
    ensures journal_later { J.faults journal.old ≤ J.faults journal.new }
    ensures output_later { O.faults output.old ≤ O.faults output.new }
{
    let state = match database_of(alloc, script) {
        Ok(state) => state,
        Err(status) => return status,
    };
    go_on(alloc, &state, journal, output, window, going)
}

/// Opens the book, and follows its window.
fn go_on<J: Disk, O: Disk>(
    alloc: Global,
    state: &ServerState,
    journal: &mut J,
    output: &mut O,
    window: &Window,
    going: &Going,
) -> Status
    requires turns { 1 ≤ going.now.pace.turns }
    requires records { (1 ≤ going.now.pace.limits.records) × (going.now.pace.limits.records ≤ 8192) }
    requires order { window.now.start ≤ window.now.end }
    requires stream { length window.now.stream ≤ 128 }
    ensures replayed { HasReplayed state.now window.now going.now.pace going.now.moment (files (J.seen journal.old) (J.crash journal.old) (J.faults journal.old) (O.seen output.old) (O.crash output.old) (O.faults output.old)) (files (J.seen journal.new) (J.crash journal.new) (J.faults journal.new) (O.seen output.new) (O.crash output.new) (O.faults output.new)) result }
    ensures survives { Survives state.now window.now (files (J.seen journal.old) (J.crash journal.old) (J.faults journal.old) (O.seen output.old) (O.crash output.old) (O.faults output.old)) (files (J.seen journal.new) (J.crash journal.new) (J.faults journal.new) (O.seen output.new) (O.crash output.new) (O.faults output.new)) }
    ensures complete { Completes state.now window.now going.now.moment (files (J.seen journal.old) (J.crash journal.old) (J.faults journal.old) (O.seen output.old) (O.crash output.old) (O.faults output.old)) (files (J.seen journal.new) (J.crash journal.new) (J.faults journal.new) (O.seen output.new) (O.crash output.new) (O.faults output.new)) result }
    ensures answers { IsOpenStatus result }
    ensures journal_object { J.same journal.old journal.new }
    ensures output_object { O.same output.old output.new }
    ensures journal_later { J.faults journal.old ≤ J.faults journal.new }
    ensures output_later { O.faults output.old ≤ O.faults output.new }
{
    let (status, _journal) = over_output(alloc, state, &mut *journal, output, window, going);
    status
}

/// The same over a journal that is given back: one disk is lent at a time, so that the caller knows
/// each as it comes back.
fn over_output<J: Disk, O: Disk>(
    alloc: Global,
    state: &ServerState,
    journal: J,
    output: &mut O,
    window: &Window,
    going: &Going,
) -> (Status, J)
    requires turns { 1 ≤ going.now.pace.turns }
    requires records { (1 ≤ going.now.pace.limits.records) × (going.now.pace.limits.records ≤ 8192) }
    requires order { window.now.start ≤ window.now.end }
    requires stream { length window.now.stream ≤ 128 }
    ensures replayed { HasReplayed state.now window.now going.now.pace going.now.moment (files (J.seen journal) (J.crash journal) (J.faults journal) (O.seen output.old) (O.crash output.old) (O.faults output.old)) (files (J.seen result.1) (J.crash result.1) (J.faults result.1) (O.seen output.new) (O.crash output.new) (O.faults output.new)) result.0 }
    ensures survives { Survives state.now window.now (files (J.seen journal) (J.crash journal) (J.faults journal) (O.seen output.old) (O.crash output.old) (O.faults output.old)) (files (J.seen result.1) (J.crash result.1) (J.faults result.1) (O.seen output.new) (O.crash output.new) (O.faults output.new)) }
    ensures complete { Completes state.now window.now going.now.moment (files (J.seen journal) (J.crash journal) (J.faults journal) (O.seen output.old) (O.crash output.old) (O.faults output.old)) (files (J.seen result.1) (J.crash result.1) (J.faults result.1) (O.seen output.new) (O.crash output.new) (O.faults output.new)) result.0 }
    ensures answers { IsOpenStatus result.0 }
    ensures journal_object { J.same journal result.1 }
    ensures output_object { O.same output.old output.new }
    ensures journal_later { J.faults journal ≤ J.faults result.1 }
    ensures output_later { O.faults output.old ≤ O.faults output.new }
{
    let (status, journal, _output) = over_files(alloc, state, journal, &mut *output, window, going);
    (status, journal)
}

/// The same over files that are given back.
fn over_files<J: Disk, O: Disk>(
    alloc: Global,
    state: &ServerState,
    journal: J,
    output: O,
    window: &Window,
    going: &Going,
) -> (Status, J, O)
    requires turns { 1 ≤ going.now.pace.turns }
    requires records { (1 ≤ going.now.pace.limits.records) × (going.now.pace.limits.records ≤ 8192) }
    requires order { window.now.start ≤ window.now.end }
    requires stream { length window.now.stream ≤ 128 }
    ensures replayed { HasReplayed state.now window.now going.now.pace going.now.moment (files (J.seen journal) (J.crash journal) (J.faults journal) (O.seen output) (O.crash output) (O.faults output)) (files (J.seen result.1) (J.crash result.1) (J.faults result.1) (O.seen result.2) (O.crash result.2) (O.faults result.2)) result.0 }
    ensures survives { Survives state.now window.now (files (J.seen journal) (J.crash journal) (J.faults journal) (O.seen output) (O.crash output) (O.faults output)) (files (J.seen result.1) (J.crash result.1) (J.faults result.1) (O.seen result.2) (O.crash result.2) (O.faults result.2)) }
    ensures complete { Completes state.now window.now going.now.moment (files (J.seen journal) (J.crash journal) (J.faults journal) (O.seen output) (O.crash output) (O.faults output)) (files (J.seen result.1) (J.crash result.1) (J.faults result.1) (O.seen result.2) (O.crash result.2) (O.faults result.2)) result.0 }
    ensures answers { IsOpenStatus result.0 }
    ensures journal_object { J.same journal result.1 }
    ensures output_object { O.same output result.2 }
    ensures journal_later { J.faults journal ≤ J.faults result.1 }
    ensures output_later { O.faults output ≤ O.faults result.2 }
{
    payloads_differ();
    journals_stay_consistent();
    let mut book = match Book::open(alloc, journal, output, window) {
        Ok(book) => book,
        Err((fault, journal, output)) => return (not_opened(fault), journal, output),
    };
    book.settled();
    let status = follow_window(alloc, state, &mut book, window, going);
    book.settled();
    let (journal, output) = book.close();
    (status, journal, output)
}

/// The status that says why a book was not opened.
fn not_opened(fault: OpenFault) -> Status
    ensures { IsNotOpened fault result }
{
    match fault {
        OpenFault::JournalFault => Status::JournalFault,
        OpenFault::BadJournal(place) => Status::BadJournal(place),
        OpenFault::OtherJournal(window) => Status::OtherJournal(window),
        OpenFault::OutputNotEmpty(length) => Status::OutputNotEmpty(length),
        OpenFault::OutputFault => Status::OutputFault,
        OpenFault::Memory => Status::Memory,
    }
}
