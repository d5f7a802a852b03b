ghost use Rattle.std.specs.Prelude.{◌≡◌, ◌<◌, length, IfOk, IfSome, OnOk, IsErrOf};
ghost use Rattle.cs_device.specs.Causes.{HasCause};
ghost use Rattle.cs_device.specs.Crash.{CrashesLeave, LeavesOnly};
ghost use Rattle.cs_redo.specs.Causes.{HasDiskCause};
ghost use Rattle.cs_redo.specs.Fronts.{Holds, WhereTold, FrontsStay, KeepsFrontsOf};
ghost use Rattle.cs_redo.specs.declared.fault.RedoFault.TheVariants as faults;

use crate::RedoFault;
use crate::comparing::agree;
use crate::replacing::replace_synced;
use cs_device::{Disk, Failed};
use cs_types::Memory;
use std::alloc::Global;

/// The most bytes that are read at once.
const PIECE: usize = 65_536;

/// So many zeros.
fn room_for(alloc: Global, count: usize) -> Result<Vec<u8>, Memory>
    ensures { IfOk result (λ v. length v.items ≡ count) }
{
    Ok(Vec::from_elem(alloc, 0, count)?)
}

/// Makes the disk hold the text, durably: the longest front on which both agree stays, what is behind it is
/// cut off, and what is missing is written. As far as the disk agrees with the text it is never written or
/// cut, so a crash inside of the call keeps what one before it kept. `DiskFault`: a call of the disk
/// failed. `Memory` is want of memory for the bytes that are read at once; the disk is then as it was.
pub fn redo<O: Disk>(alloc: Global, disk: &mut O, text: &[u8]) -> Result<(), RedoFault>
    ensures bytes { OnOk result (Holds text.now (O.seen disk.new)) }
    ensures durable { OnOk result (IfSome (O.seen disk.new) (LeavesOnly (O.crash disk.new))) }
    ensures front { WhereTold (FrontsStay text.now) (O.seen disk.old) (O.seen disk.new) }
    ensures any_moment { IfSome (O.seen disk.old) (λ bytes. CrashesLeave (KeepsFrontsOf text.now bytes (O.crash disk.old)) (O.crash disk.old) (O.crash disk.new)) }
    ensures no_memory { IsErrOf result faults.Memory → disk.new ≡ disk.old }
    ensures object { O.same disk.old disk.new }
    ensures cause { HasDiskCause (O.faults disk.old) (O.faults disk.new) result }
{
    let mut room = room_for(alloc, PIECE)?;
    restore(disk, &mut room, text)?;
    Ok(())
}

/// The same, with the room for what is read at once.
fn restore<O: Disk>(disk: &mut O, room: &mut [u8], text: &[u8]) -> Result<(), Failed>
    requires { 0 < length room.old }
    ensures bytes { OnOk result (Holds text.now (O.seen disk.new)) }
    ensures durable { OnOk result (IfSome (O.seen disk.new) (LeavesOnly (O.crash disk.new))) }
    ensures front { WhereTold (FrontsStay text.now) (O.seen disk.old) (O.seen disk.new) }
    ensures any_moment { IfSome (O.seen disk.old) (λ bytes. CrashesLeave (KeepsFrontsOf text.now bytes (O.crash disk.old)) (O.crash disk.old) (O.crash disk.new)) }
    ensures object { O.same disk.old disk.new }
    ensures cause { HasCause (O.faults disk.old) (O.faults disk.new) result }
{
    let len = disk.len()?;
    let count = agree(disk, len, room, text)?;
    replace_synced(disk, count, len, text)
}
