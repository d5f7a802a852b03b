//! How far a disk and a text agree, found piece by piece.
ghost use Rattle.std.specs.Prelude.{◌≡◌, ◌≤◌, ◌<◌, ◌+◌, length, take, drop, IfOk, IfSome};
ghost use Rattle.std.specs.Io.KnownBytes.{Keeps};
ghost use Rattle.cs_device.specs.Causes.{HasCause};
ghost use Rattle.cs_device.specs.Crash.{CrashesLeave};
ghost use Rattle.cs_redo.specs.Agreeing.{agreeing};

use cs_device::{Disk, Failed};

/// How many bytes agree from the front on.
fn count_agreeing(one: &[u8], other: &[u8]) -> usize
    ensures count { result ≡ agreeing one.now other.now }
    ensures within { (result ≤ length one.now) × (result ≤ length other.now) }
{
    let mut count = 0;
    'bytes: while count < one.len() && count < other.len() && one[count] == other[count] {
        count += 1;
    }
    count
}

/// How many bytes of those that stand at a place agree with this piece of the text.
fn agree_at<O: Disk>(disk: &mut O, at: u64, room: &mut [u8], piece: &[u8]) -> Result<usize, Failed>
    requires room { length room.old ≡ length piece.now }
    requires within { IfSome (O.seen disk.old) (λ bytes. at + length piece.now ≤ length bytes) }
    ensures few { IfOk result (λ n. n ≤ length piece.now) }
    ensures count { IfOk result (λ n. IfSome (O.seen disk.old) (λ bytes. n ≡ agreeing (take (length piece.now) (drop at bytes)) piece.now)) }
    ensures kept { Keeps (O.seen disk.old) (O.seen disk.new) }
    ensures quiet { CrashesLeave (O.crash disk.old).may_leave (O.crash disk.old) (O.crash disk.new) }
    ensures room_kept { length room.new ≡ length room.old }
    ensures object { O.same disk.old disk.new }
    ensures cause { HasCause (O.faults disk.old) (O.faults disk.new) result }
{
    disk.read(at, room)?;
    Ok(count_agreeing(room, piece))
}

/// How many bytes of the disk, which has `len`, agree with the text from the front on. The room is what is
/// read at once.
pub(crate) fn agree<O: Disk>(
    disk: &mut O,
    len: u64,
    room: &mut [u8],
    text: &[u8],
) -> Result<usize, Failed>
    requires room { 0 < length room.old }
    requires told { IfSome (O.seen disk.old) (λ bytes. len ≡ length bytes) }
    ensures few { IfOk result (λ n. (n ≤ length text.now) × (n ≤ len)) }
    ensures count { IfOk result (λ n. IfSome (O.seen disk.old) (λ bytes. n ≡ agreeing bytes text.now)) }
    ensures kept { Keeps (O.seen disk.old) (O.seen disk.new) }
    ensures quiet { CrashesLeave (O.crash disk.old).may_leave (O.crash disk.old) (O.crash disk.new) }
    ensures object { O.same disk.old disk.new }
    ensures cause { HasCause (O.faults disk.old) (O.faults disk.new) result }
{
    let most = len.min(text.len() as u64) as usize;
    let mut at = 0;
    'pieces: while at < most {
        let count = room.len().min(most - at);
        let same = agree_at(disk, at as u64, &mut room[..count], &text[at..at + count])?;
        at += same;
        if same < count {
            return Ok(at);
        }
    }
    Ok(at)
}
