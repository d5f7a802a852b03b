//! Reading a journal from the front, entry by entry.
ghost use Rattle.std.specs.Prelude.{◌≡◌, ◌≤◌, ◌<◌, ◌+◌, ◌-◌, ◌^◌, ◌⊎◌, min, length, take, drop, IfSome, IfOk, IfErr, OnOk, slice_get, ℕ, Some, Ok, Err};
ghost use Rattle.cs_journal.specs.declared.fault.JournalFault.TheVariants as faults;
ghost use Rattle.std.specs.Io.KnownBytes.{Keeps};
ghost use Rattle.cs_device.specs.Causes.{HasCause};
ghost use Rattle.cs_device.specs.Disk.{ReadsAt};
ghost use Rattle.cs_device.specs.Crash.{CrashesLeave, LeavesOnly};
ghost use Rattle.cs_journal.specs.Causes.{HasDiskCause};
ghost use Rattle.cs_journal.specs.Reading.{IsNext};
ghost use Rattle.cs_journal.specs.Rows.{stored_of, place_behind, gate_of};
ghost use Rattle.cs_journal.specs.Crashes.{HasSamePayloads, KeepsPayloads, KeepsAnOldImage, IsUntouched};
ghost use Rattle.cs_journal.specs.State.{IsSettled, WhereTold};

use crate::device::{cut_synced, write_synced};
use crate::window::{Window, read_through, room_for};
use crate::{JournalFault, Stored};
use cs_device::{Disk, Failed};
use cs_types::{Items, Memory};
use std::alloc::Global;

/// The gate and the length behind it.
const HEAD: u64 = 5;

/// The five bytes from a gate on, or those that there are, and zeros behind them.
fn read_head<J: Disk>(
    disk: &mut J,
    window: &mut Window,
    gate: u64,
    len: u64,
) -> Result<[u8; 5], Failed>
    requires told { IfSome (J.seen disk.old) (λ bytes. len ≡ length bytes) }
    requires within { gate ≤ len }
    requires window { ReadsAt (J.seen disk.old) window.old.at window.old.held }
    ensures bytes { IfOk result (λ head. IfSome (J.seen disk.old) (λ bytes. take (min 5 (len - gate)) head ≡ take (min 5 (len - gate)) (drop gate bytes))) }
    ensures window { OnOk result (ReadsAt (J.seen disk.new) window.new.at window.new.held) }
    ensures kept { Keeps (J.seen disk.old) (J.seen disk.new) }
    ensures quiet { CrashesLeave (J.crash disk.old).may_leave (J.crash disk.old) (J.crash disk.new) }
    ensures object { J.same disk.old disk.new }
    ensures cause { HasCause (J.faults disk.old) (J.faults disk.new) result }
{
    let mut head = [0; 5];
    let count = HEAD.min(len - gate) as usize;
    read_through(disk, window, gate, &mut head[..count], len)?;
    Ok(head)
}

/// So many bytes that stand at a place.
fn read_payload<J: Disk>(
    alloc: Global,
    disk: &mut J,
    window: &mut Window,
    at: u64,
    count: usize,
    len: u64,
) -> Result<Items<u8>, JournalFault>
    requires told { IfSome (J.seen disk.old) (λ bytes. len ≡ length bytes) }
    requires within { at + count ≤ len }
    requires window { ReadsAt (J.seen disk.old) window.old.at window.old.held }
    ensures bytes { IfOk result (ReadsAt (J.seen disk.old) at) }
    ensures size { IfOk result (λ payload. length payload ≡ count) }
    ensures not_bad { IfErr result (λ e. (e ≡ faults.DiskFault) ⊎ (e ≡ faults.Memory)) }
    ensures window { OnOk result (ReadsAt (J.seen disk.new) window.new.at window.new.held) }
    ensures kept { Keeps (J.seen disk.old) (J.seen disk.new) }
    ensures quiet { CrashesLeave (J.crash disk.old).may_leave (J.crash disk.old) (J.crash disk.new) }
    ensures object { J.same disk.old disk.new }
    ensures cause { HasDiskCause (J.faults disk.old) (J.faults disk.new) result }
{
    let mut payload = room_for(alloc, count)?;
    read_through(disk, window, at, &mut payload, len)?;
    Ok(Items::from_vec(payload))
}

/// The payload behind the gate at this place, or none where it is closed. An open gate without a whole
/// entry is `BadJournal`.
fn next_entry<J: Disk>(
    alloc: Global,
    disk: &mut J,
    window: &mut Window,
    gate: u64,
    len: u64,
) -> Result<Option<Items<u8>>, JournalFault>
    requires told { IfSome (J.seen disk.old) (λ bytes. len ≡ length bytes) }
    requires within { gate ≤ len }
    requires window { ReadsAt (J.seen disk.old) window.old.at window.old.held }
    ensures next { IfSome (J.seen disk.old) (λ bytes. IsNext gate (drop gate bytes) result) }
    ensures not_full { (length : ℕ) → result ≡ Err (faults.Full length) → ⊥ }
    ensures fits { IfOk result (λ next. IfSome next (λ payload. gate + 5 + length payload < len)) }
    ensures window { OnOk result (ReadsAt (J.seen disk.new) window.new.at window.new.held) }
    ensures kept { Keeps (J.seen disk.old) (J.seen disk.new) }
    ensures quiet { CrashesLeave (J.crash disk.old).may_leave (J.crash disk.old) (J.crash disk.new) }
    ensures object { J.same disk.old disk.new }
    ensures cause { HasDiskCause (J.faults disk.old) (J.faults disk.new) result }
{
    if len - gate < 2 {
        return Ok(None);
    }
    let head = read_head(disk, window, gate, len)?;
    if head[0] != 1 {
        return Ok(None);
    }
    let count = u32::from_le_bytes([head[1], head[2], head[3], head[4]]);
    if len - gate <= HEAD + count as u64 {
        return Err(JournalFault::BadJournal(gate));
    }
    let payload = read_payload(alloc, disk, window, gate + HEAD, count as usize, len)?;
    Ok(Some(payload))
}

/// All payloads up to the first closed gate, and the place of that gate.
pub(crate) fn read_entries<J: Disk>(
    alloc: Global,
    disk: &mut J,
    len: u64,
) -> Result<(u64, Items<Stored>), JournalFault>
    requires { IfSome (J.seen disk.old) (λ bytes. len ≡ length bytes) }
    ensures stored { IfOk result (λ r. IfSome (J.seen disk.old) (λ bytes. stored_of bytes ≡ Ok r.1)) }
    ensures gate { IfOk result (λ r. (r.0 ≡ place_behind 0 r.1) × (r.0 ≤ len)) }
    ensures bad { IfErr result (λ e. (place : ℕ) → e ≡ faults.BadJournal place → IfSome (J.seen disk.old) (λ bytes. stored_of bytes ≡ Err place)) }
    ensures not_full { IfErr result (λ e. (length : ℕ) → e ≡ faults.Full length → ⊥) }
    ensures kept { Keeps (J.seen disk.old) (J.seen disk.new) }
    ensures quiet { CrashesLeave (J.crash disk.old).may_leave (J.crash disk.old) (J.crash disk.new) }
    ensures object { J.same disk.old disk.new }
    ensures cause { HasDiskCause (J.faults disk.old) (J.faults disk.new) result }
{
    let mut gate = 0;
    let mut stored = Items::new(alloc);
    let mut window = Window::new(alloc)?;
    'entries: loop {
        match next_entry(alloc, disk, &mut window, gate, len) {
            Ok(Some(payload)) => {
                let count = payload.as_slice().len() as u64;
                stored.push(Stored { gate, payload })?;
                gate += HEAD + count;
            }
            Ok(None) => return Ok((gate, stored)),
            Err(fault) => return Err(fault),
        }
    }
}

/// The byte at a gate.
fn read_gate<J: Disk>(disk: &mut J, gate: u64) -> Result<u8, Failed>
    requires { IfSome (J.seen disk.old) (λ bytes. gate < length bytes) }
    ensures byte { IfOk result (λ byte. IfSome (J.seen disk.old) (λ bytes. slice_get bytes gate ≡ Some byte)) }
    ensures kept { Keeps (J.seen disk.old) (J.seen disk.new) }
    ensures quiet { CrashesLeave (J.crash disk.old).may_leave (J.crash disk.old) (J.crash disk.new) }
    ensures object { J.same disk.old disk.new }
    ensures cause { HasCause (J.faults disk.old) (J.faults disk.new) result }
{
    let mut byte = [0; 1];
    disk.read(gate, &mut byte)?;
    Ok(byte[0])
}

/// Cuts off what stands behind the closed gate at this place.
fn cut_behind<J: Disk>(disk: &mut J, gate: u64) -> Result<(), Failed>
    requires small { gate < 2 ^ 64 - 1 }
    requires place { IfSome (J.seen disk.old) (λ bytes. gate_of bytes ≡ Some gate) }
    requires within { IfSome (J.seen disk.old) (λ bytes. gate < length bytes) }
    requires durable { IfSome (J.seen disk.old) (LeavesOnly (J.crash disk.old)) }
    ensures kept { OnOk result (WhereTold HasSamePayloads (J.seen disk.old) (J.seen disk.new)) }
    ensures length { OnOk result (IfSome (J.seen disk.new) (λ bytes. length bytes ≡ gate + 1)) }
    ensures durable { OnOk result (IfSome (J.seen disk.new) (LeavesOnly (J.crash disk.new))) }
    ensures any_moment { KeepsPayloads (J.seen disk.old) (J.crash disk.old) (J.crash disk.new) }
    ensures object { J.same disk.old disk.new }
    ensures cause { HasCause (J.faults disk.old) (J.faults disk.new) result }
{
    cut_synced(disk, gate + 1)?;
    Ok(())
}

/// Makes the closed gate at this place a 0. It is the last byte, or there is none.
fn close_gate<J: Disk>(disk: &mut J, gate: u64) -> Result<(), Failed>
    requires place { IfSome (J.seen disk.old) (λ bytes. gate_of bytes ≡ Some gate) }
    requires last { IfSome (J.seen disk.old) (λ bytes. (gate ≤ length bytes) × (length bytes ≤ gate + 1)) }
    requires durable { IfSome (J.seen disk.old) (LeavesOnly (J.crash disk.old)) }
    ensures kept { OnOk result (WhereTold HasSamePayloads (J.seen disk.old) (J.seen disk.new)) }
    ensures settled { OnOk result (IsSettled (J.seen disk.new) (J.crash disk.new) gate) }
    ensures any_moment { KeepsPayloads (J.seen disk.old) (J.crash disk.old) (J.crash disk.new) }
    ensures object { J.same disk.old disk.new }
    ensures cause { HasCause (J.faults disk.old) (J.faults disk.new) result }
{
    write_synced(disk, gate, &[0])?;
    Ok(())
}

/// Leaves a 0 at the closed gate at this place. Where another byte stands there, what is behind it goes
/// first: a gate that a crash leaves half written must not open an entry.
fn mend<J: Disk>(disk: &mut J, gate: u64, len: u64) -> Result<(), Failed>
    requires told { IfSome (J.seen disk.old) (λ bytes. len ≡ length bytes) }
    requires place { IfSome (J.seen disk.old) (λ bytes. gate_of bytes ≡ Some gate) }
    requires within { gate ≤ len }
    requires durable { IfSome (J.seen disk.old) (LeavesOnly (J.crash disk.old)) }
    ensures kept { OnOk result (WhereTold HasSamePayloads (J.seen disk.old) (J.seen disk.new)) }
    ensures settled { OnOk result (IsSettled (J.seen disk.new) (J.crash disk.new) gate) }
    ensures any_moment { KeepsPayloads (J.seen disk.old) (J.crash disk.old) (J.crash disk.new) }
    ensures object { J.same disk.old disk.new }
    ensures cause { HasCause (J.faults disk.old) (J.faults disk.new) result }
{
    if gate < len {
        if read_gate(disk, gate)? == 0 {
            return Ok(());
        }
        cut_behind(disk, gate)?;
    }
    close_gate(disk, gate)
}

/// Syncs, and answers the length.
fn sync_len<J: Disk>(disk: &mut J) -> Result<u64, Failed>
    ensures length { IfOk result (λ len. IfSome (J.seen disk.new) (λ bytes. len ≡ length bytes)) }
    ensures kept { Keeps (J.seen disk.old) (J.seen disk.new) }
    ensures durable { OnOk result (IfSome (J.seen disk.new) (LeavesOnly (J.crash disk.new))) }
    ensures quiet { CrashesLeave (J.crash disk.old).may_leave (J.crash disk.old) (J.crash disk.new) }
    ensures object { J.same disk.old disk.new }
    ensures cause { HasCause (J.faults disk.old) (J.faults disk.new) result }
{
    disk.sync()?;
    disk.len()
}

/// Syncs, reads all payloads, and leaves a closed gate behind them, at the place that it answers.
pub(crate) fn open_disk<J: Disk>(
    alloc: Global,
    disk: &mut J,
) -> Result<(u64, Items<Stored>), JournalFault>
    ensures payloads { IfOk result (λ r. IfSome (J.seen disk.old) (λ bytes. stored_of bytes ≡ Ok r.1)) }
    ensures place { IfOk result (λ r. r.0 ≡ place_behind 0 r.1) }
    ensures kept { OnOk result (WhereTold HasSamePayloads (J.seen disk.old) (J.seen disk.new)) }
    ensures settled { IfOk result (λ r. IsSettled (J.seen disk.new) (J.crash disk.new) r.0) }
    ensures bad { IfErr result (λ e. (place : ℕ) → e ≡ faults.BadJournal place → IfSome (J.seen disk.old) (λ bytes. stored_of bytes ≡ Err place)) }
    ensures untouched { IfErr result (λ e. (place : ℕ) → e ≡ faults.BadJournal place → IsUntouched (J.seen disk.old) (J.seen disk.new) (J.crash disk.old) (J.crash disk.new)) }
    ensures not_full { IfErr result (λ e. (length : ℕ) → e ≡ faults.Full length → ⊥) }
    ensures any_moment { KeepsAnOldImage (J.seen disk.old) (J.crash disk.old) (J.crash disk.new) }
    ensures object { J.same disk.old disk.new }
    ensures cause { HasDiskCause (J.faults disk.old) (J.faults disk.new) result }
{
    let len = sync_len(disk)?;
    let (gate, stored) = read_entries(alloc, disk, len)?;
    mend(disk, gate, len)?;
    Ok((gate, stored))
}
