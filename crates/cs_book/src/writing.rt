//! What is written for an entry: its payload into the journal, and then its lines into the output.
ghost use Rattle.std.specs.Prelude.{◌≡◌, ◌≤◌, ◌+◌, [], true, false, length, IfSome, IsErrOf, OnOk};
ghost use Rattle.std.specs.Io.KnownBytes.{Appends};
ghost use Rattle.cs_device.specs.Causes.{Rose, HasCause};
ghost use Rattle.cs_device.specs.Crash.{CrashesLeave};
ghost use Rattle.cs_journal.specs.Crashes.{IsBeforeOrAfter};
ghost use Rattle.cs_journal.specs.Rows.{limit, payloads_of, with_payload};
ghost use Rattle.cs_journal.specs.State.{length_after, WhereTold};
ghost use Rattle.cs_book.specs.declared.fault.CommitFault.TheVariants as faults;

use crate::fault::CommitFault;
use cs_device::{Disk, Failed};
use cs_journal::{Framed, Journal};

/// Writes bytes behind the others. Where there are none the disk is not called.
fn append<O: Disk>(output: &mut O, bytes: &[u8]) -> Result<(), Failed>
    ensures bytes { OnOk result (Appends (O.seen output.old) (O.seen output.new) bytes.now) }
    ensures nothing { bytes.now ≡ [] → output.new ≡ output.old }
    ensures object { O.same output.old output.new }
    ensures cause { HasCause (O.faults output.old) (O.faults output.new) result }
{
    if bytes.is_empty() {
        return Ok(());
    }
    let at = output.len()?;
    output.write_at(at, bytes)
}

/// Puts a payload into the journal, and then writes a text behind the output, which is not called
/// where the text is empty. It takes no memory.
pub(crate) fn write<J: Disk, O: Disk>(
    journal: &mut Journal<J>,
    output: &mut O,
    framed: &Framed,
    text: &[u8],
) -> Result<(), CommitFault>
    requires running { journal.old.failed ≡ false }
    requires fits { length_after journal.old.gate framed.now ≤ limit }
    ensures put { OnOk result (WhereTold (λ old new. payloads_of new ≡ with_payload framed.now (payloads_of old)) (J.seen journal.old.disk) (J.seen journal.new.disk)) }
    ensures gate { OnOk result (journal.new.gate ≡ journal.old.gate + 5 + length framed.now) }
    ensures running { OnOk result (journal.new.failed ≡ false) }
    ensures appended { OnOk result (Appends (O.seen output.old) (O.seen output.new) text.now) }
    ensures no_text { text.now ≡ [] → output.new ≡ output.old }
    // A crash at any moment of the call leaves the payloads from before it, or these with the new one.
    ensures any_moment { IfSome (J.seen journal.old.disk) (λ bytes. CrashesLeave (IsBeforeOrAfter bytes framed.now) (J.crash journal.old.disk) (J.crash journal.new.disk)) }
    ensures journal_fault { IsErrOf result faults.JournalFault → (journal.new.failed ≡ true) × (output.new ≡ output.old) × Rose (J.faults journal.old.disk) (J.faults journal.new.disk) }
    ensures output_fault { IsErrOf result faults.OutputFault → (journal.new.failed ≡ false) × Rose (O.faults output.old) (O.faults output.new) }
    ensures objects { (J.same journal.old.disk journal.new.disk) × (O.same output.old output.new) }
    ensures later { (J.faults journal.old.disk ≤ J.faults journal.new.disk) × (O.faults output.old ≤ O.faults output.new) }
    ensures cause_ok { OnOk result ((J.faults journal.new.disk ≡ J.faults journal.old.disk) × (O.faults output.new ≡ O.faults output.old)) }
{
    let Ok(()) = journal.put(framed) else {
        return Err(CommitFault::JournalFault);
    };
    let Ok(()) = append(output, text) else {
        return Err(CommitFault::OutputFault);
    };
    Ok(())
}
