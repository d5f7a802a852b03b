//! A piece of a disk that is read ahead, so that small reads near each other take one call.
ghost use Rattle.std.specs.Prelude.{◌≡◌, ◌≤◌, ◌+◌, ◌-◌, [], min, length, take, drop, IfSome, IfOk, OnOk, IsTrue};
ghost use Rattle.std.specs.Io.KnownBytes.{Keeps};
ghost use Rattle.cs_device.specs.Causes.{HasCause};
ghost use Rattle.cs_device.specs.Disk.{ReadsAt};
ghost use Rattle.cs_device.specs.Crash.{CrashesLeave};
ghost use Rattle.cs_journal.specs.Window.{ahead};

use cs_device::{Disk, Failed};
use cs_types::Memory;
use std::alloc::Global;
use std::marker::Model;

/// How many bytes are read ahead at most.
const AHEAD: usize = 65_536;

/// Bytes that stand at a place of a disk.
#[derive(Drop)]
pub(crate) struct Window {
    bytes: Vec<u8>,
    at: u64,
    count: usize,
}

impl Model for Window {
    ghost use Rattle.std.specs.Prelude.{◌≡◌, ◌≤◌, length, take};
    ghost use Rattle.cs_journal.specs.Window.{WindowState, window_code, ahead};

    ghost Value = { WindowState };

    ghost coded = { window_code };

    ghost view = { λ w. record { at = w.at; held = take w.count w.bytes.items } };

    ghost invariant = { λ w. (length w.bytes.items ≡ ahead) × (w.count ≤ ahead) };
}

/// So many zeros.
pub(crate) fn room_for(alloc: Global, count: usize) -> Result<Vec<u8>, Memory>
    ensures { IfOk result (λ v. length v.items ≡ count) }
{
    Ok(Vec::from_elem(alloc, 0, count)?)
}

/// Reads into the first so many bytes of a piece.
fn read_front<J: Disk>(disk: &mut J, at: u64, into: &mut [u8], count: usize) -> Result<(), Failed>
    requires piece { count ≤ length into.old }
    requires within { IfSome (J.seen disk.old) (λ bytes. at + count ≤ length bytes) }
    ensures bytes { OnOk result (ReadsAt (J.seen disk.old) at (take count into.new)) }
    ensures kept { Keeps (J.seen disk.old) (J.seen disk.new) }
    ensures quiet { CrashesLeave (J.crash disk.old).may_leave (J.crash disk.old) (J.crash disk.new) }
    ensures object { J.same disk.old disk.new }
    ensures cause { HasCause (J.faults disk.old) (J.faults disk.new) result }
{
    disk.read(at, &mut into[..count])
}

impl Window {
    /// No bytes yet. `Memory` is want of memory.
    pub(crate) fn new(alloc: Global) -> Result<Window, Memory>
        ensures { IfOk result (λ w. w.held ≡ []) }
    {
        Ok(Window {
            bytes: room_for(alloc, AHEAD)?,
            at: 0,
            count: 0,
        })
    }

    /// Whether so many bytes at a place are among those that were read.
    fn holds(&self, at: u64, count: usize) -> bool
        ensures { IsTrue result → (self.now.at ≤ at) × (at + count ≤ self.now.at + length self.now.held) }
    {
        if at < self.at {
            return false;
        }
        let from = at - self.at;
        let held = self.count as u64;
        if held < from {
            return false;
        }
        count as u64 <= held - from
    }

    /// Gives bytes that were read.
    fn give(&self, at: u64, into: &mut [u8])
        requires place { self.now.at ≤ at }
        requires within { at + length into.old ≤ self.now.at + length self.now.held }
        ensures { into.new ≡ take (length into.old) (drop (at - self.now.at) self.now.held) }
    {
        let from = (at - self.at) as usize;
        into.copy_from_slice(&self.bytes[from..from + into.len()]);
    }

    /// Reads from a place on, to the end of the disk or as many bytes as it holds.
    fn fill<J: Disk>(&mut self, disk: &mut J, at: u64, len: u64) -> Result<(), Failed>
        requires told { IfSome (J.seen disk.old) (λ bytes. len ≡ length bytes) }
        requires within { at ≤ len }
        ensures bytes { OnOk result (ReadsAt (J.seen disk.old) self.new.at self.new.held) }
        ensures place { OnOk result (self.new.at ≡ at) }
        ensures size { OnOk result (length self.new.held ≡ min ahead (len - at)) }
        ensures kept { Keeps (J.seen disk.old) (J.seen disk.new) }
        ensures quiet { CrashesLeave (J.crash disk.old).may_leave (J.crash disk.old) (J.crash disk.new) }
        ensures object { J.same disk.old disk.new }
        ensures cause { HasCause (J.faults disk.old) (J.faults disk.new) result }
    {
        self.count = 0;
        let count = (len - at).min(AHEAD as u64) as usize;
        read_front(disk, at, &mut self.bytes, count)?;
        self.at = at;
        self.count = count;
        Ok(())
    }
}

/// Fills the piece with what stands at a place, from the bytes that were read ahead or by one read. A
/// piece that is longer than these may be is read by itself.
pub(crate) fn read_through<J: Disk>(
    disk: &mut J,
    window: &mut Window,
    at: u64,
    into: &mut [u8],
    len: u64,
) -> Result<(), Failed>
    requires told { IfSome (J.seen disk.old) (λ bytes. len ≡ length bytes) }
    requires within { at + length into.old ≤ len }
    requires window { ReadsAt (J.seen disk.old) window.old.at window.old.held }
    ensures bytes { OnOk result (ReadsAt (J.seen disk.old) at into.new) }
    ensures window { OnOk result (ReadsAt (J.seen disk.new) window.new.at window.new.held) }
    ensures kept { Keeps (J.seen disk.old) (J.seen disk.new) }
    ensures quiet { CrashesLeave (J.crash disk.old).may_leave (J.crash disk.old) (J.crash disk.new) }
    ensures object { J.same disk.old disk.new }
    ensures cause { HasCause (J.faults disk.old) (J.faults disk.new) result }
{
    if window.holds(at, into.len()) {
        window.give(at, into);
        return Ok(());
    }
    if into.len() > AHEAD {
        return disk.read(at, into);
    }
    window.fill(disk, at, len)?;
    window.give(at, into);
    Ok(())
}
