//! A disk whose bytes from a place on are made those of a text.
ghost use Rattle.std.specs.Prelude.{◌≡◌, ◌≤◌, length, drop, take, IfSome, OnOk};
ghost use Rattle.std.specs.Io.KnownBytes.{Appends};
ghost use Rattle.cs_device.specs.Causes.{HasCause};
ghost use Rattle.cs_device.specs.Crash.{CrashesLeave, LeavesOnly};
ghost use Rattle.cs_device.specs.Disk.{CutsTo};
ghost use Rattle.cs_redo.specs.Fronts.{Agree, Holds, WhereTold, KeepsFront, IsUntouched};

use cs_device::{Disk, Failed};

/// Cuts off what stands behind the first bytes, so many, of a disk that has `len`.
fn cut_behind<O: Disk>(disk: &mut O, count: u64, len: u64) -> Result<(), Failed>
    requires told { IfSome (O.seen disk.old) (λ bytes. len ≡ length bytes) }
    requires within { count ≤ len }
    ensures bytes { OnOk result (CutsTo (O.seen disk.old) count (O.seen disk.new)) }
    ensures front { WhereTold (Agree count) (O.seen disk.old) (O.seen disk.new) }
    ensures any_moment { CrashesLeave (KeepsFront count (O.crash disk.old)) (O.crash disk.old) (O.crash disk.new) }
    ensures untouched { count ≡ len → IsUntouched (O.seen disk.old) (O.seen disk.new) (O.crash disk.old) (O.crash disk.new) }
    ensures object { O.same disk.old disk.new }
    ensures cause { HasCause (O.faults disk.old) (O.faults disk.new) result }
{
    if count < len {
        disk.cut(count)?;
    }
    Ok(())
}

/// Puts what the text has from the end of the disk on behind its bytes, so many.
fn write_missing<O: Disk>(disk: &mut O, count: usize, text: &[u8]) -> Result<(), Failed>
    requires end { IfSome (O.seen disk.old) (λ bytes. count ≡ length bytes) }
    requires within { count ≤ length text.now }
    ensures bytes { OnOk result (Appends (O.seen disk.old) (O.seen disk.new) (drop count text.now)) }
    ensures front { WhereTold (Agree count) (O.seen disk.old) (O.seen disk.new) }
    ensures any_moment { CrashesLeave (KeepsFront count (O.crash disk.old)) (O.crash disk.old) (O.crash disk.new) }
    ensures untouched { count ≡ length text.now → IsUntouched (O.seen disk.old) (O.seen disk.new) (O.crash disk.old) (O.crash disk.new) }
    ensures object { O.same disk.old disk.new }
    ensures cause { HasCause (O.faults disk.old) (O.faults disk.new) result }
{
    if count < text.len() {
        disk.write_at(count as u64, &text[count..])?;
    }
    Ok(())
}

/// Makes the disk, which has `len` bytes and agrees with the text on the first ones, so many, hold the
/// text, and leaves these as they are.
fn replace_behind<O: Disk>(disk: &mut O, count: usize, len: u64, text: &[u8]) -> Result<(), Failed>
    requires told { IfSome (O.seen disk.old) (λ bytes. len ≡ length bytes) }
    requires within { (count ≤ length text.now) × (count ≤ len) }
    requires same { IfSome (O.seen disk.old) (Agree count text.now) }
    ensures bytes { OnOk result (Holds text.now (O.seen disk.new)) }
    ensures front { WhereTold (Agree count) (O.seen disk.old) (O.seen disk.new) }
    ensures any_moment { CrashesLeave (KeepsFront count (O.crash disk.old)) (O.crash disk.old) (O.crash disk.new) }
    ensures untouched { count ≡ len → count ≡ length text.now → IsUntouched (O.seen disk.old) (O.seen disk.new) (O.crash disk.old) (O.crash disk.new) }
    ensures object { O.same disk.old disk.new }
    ensures cause { HasCause (O.faults disk.old) (O.faults disk.new) result }
{
    cut_behind(disk, count as u64, len)?;
    write_missing(disk, count, text)
}

/// The same, and syncs. The sync is needed where nothing was missing too: a disk that reads as the text may
/// still lose it in a crash.
pub(crate) fn replace_synced<O: Disk>(
    disk: &mut O,
    count: usize,
    len: u64,
    text: &[u8],
) -> Result<(), Failed>
    requires told { IfSome (O.seen disk.old) (λ bytes. len ≡ length bytes) }
    requires within { (count ≤ length text.now) × (count ≤ len) }
    requires same { IfSome (O.seen disk.old) (Agree count text.now) }
    ensures bytes { OnOk result (Holds text.now (O.seen disk.new)) }
    ensures durable { OnOk result (IfSome (O.seen disk.new) (LeavesOnly (O.crash disk.new))) }
    ensures front { WhereTold (Agree count) (O.seen disk.old) (O.seen disk.new) }
    ensures any_moment { CrashesLeave (KeepsFront count (O.crash disk.old)) (O.crash disk.old) (O.crash disk.new) }
    ensures untouched { count ≡ len → count ≡ length text.now → IsUntouched (O.seen disk.old) (O.seen disk.new) (O.crash disk.old) (O.crash disk.new) }
    ensures object { O.same disk.old disk.new }
    ensures cause { HasCause (O.faults disk.old) (O.faults disk.new) result }
{
    replace_behind(disk, count, len, text)?;
    disk.sync()
}
