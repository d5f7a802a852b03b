ghost use Rattle.std.specs.Prelude.{◌≡◌, ◌≤◌, ◌<◌, ◌+◌, ◌⊎◌, ℕ, true, false, length, IfSome, IfOk, IfErr, OnOk, IsErrOf, MatchResult, Ok, Err};
ghost use Rattle.cs_device.specs.Causes.{Rose};
ghost use Rattle.cs_device.specs.Crash.{CrashesLeave};
ghost use Rattle.cs_journal.specs.declared.fault.JournalFault.TheVariants as faults;
ghost use Rattle.cs_journal.specs.Causes.{HasDiskCause};
ghost use Rattle.cs_journal.specs.Crashes.{KeepsAnOldImage, HasSamePayloads, IsBeforeOrAfter, IsUntouched};
ghost use Rattle.cs_journal.specs.Rows.{stored_of, payloads_of, place_behind, with_payload, limit};
ghost use Rattle.cs_journal.specs.State.{IsSettled, WhereTold, length_after};

use crate::device::write_synced;
use crate::read::open_disk;
use crate::{Framed, JournalFault};
use cs_device::Disk;
use cs_types::Items;
use std::alloc::Global;
use std::marker::Model;

/// The most bytes that a journal may have.
const LIMIT: u64 = 268_435_456;

/// A payload, and the place of the gate in front of it.
#[derive(Debug, Drop)]
pub struct Stored {
    pub gate: u64,
    pub payload: Items<u8>,
}

/// A journal on a disk, at rest behind its last payload.
#[derive(Drop)]
pub struct Journal<J: Disk> {
    disk: J,
    gate: u64,
    failed: bool,
}

impl<J: Disk> Model for Journal<J> {
    ghost use Rattle.std.specs.Prelude.{◌≡◌, false};
    ghost use Rattle.cs_journal.specs.State.{JournalState, journal_code, IsSettled};

    ghost Value = { JournalState J };

    ghost coded = { journal_code J.code };

    ghost view = { λ j. record { disk = j.disk; gate = j.gate; failed = j.failed } };

    ghost invariant = { λ j. j.failed ≡ false → IsSettled (J.seen j.disk) (J.crash j.disk) j.gate };
}

impl<J: Disk> Journal<J> {
    /// Opens the journal that a crash may have left: syncs, reads its payloads, each with the place of
    /// its gate, and leaves the gate behind them closed. `DiskFault`: a call of the disk failed.
    /// `BadJournal`: an open gate has no whole entry behind it. `Memory` is want of memory. After each
    /// the disk comes back.
    pub fn open(alloc: Global, disk: J) -> Result<(Journal<J>, Items<Stored>), (JournalFault, J)>
        ensures payloads { IfOk result (λ r. IfSome (J.seen disk) (λ bytes. stored_of bytes ≡ Ok r.1)) }
        ensures place { IfOk result (λ r. r.0.gate ≡ place_behind 0 r.1) }
        ensures kept { IfOk result (λ r. WhereTold HasSamePayloads (J.seen disk) (J.seen r.0.disk)) }
        ensures settled { IfOk result (λ r. (r.0.failed ≡ false) × IsSettled (J.seen r.0.disk) (J.crash r.0.disk) r.0.gate) }
        ensures bad { IfErr result (λ e. (place : ℕ) → e.0 ≡ faults.BadJournal place → IfSome (J.seen disk) (λ bytes. stored_of bytes ≡ Err place)) }
        // A file that is refused so stays as it is, to the byte.
        ensures untouched { IfErr result (λ e. (place : ℕ) → e.0 ≡ faults.BadJournal place → IsUntouched (J.seen disk) (J.seen e.1) (J.crash disk) (J.crash e.1)) }
        ensures not_full { IfErr result (λ e. (length : ℕ) → e.0 ≡ faults.Full length → ⊥) }
        // A crash at any moment leaves the payloads of an image that one might have left before.
        ensures any_moment { MatchResult result
            (λ r. KeepsAnOldImage (J.seen disk) (J.crash disk) (J.crash r.0.disk))
            (λ e. KeepsAnOldImage (J.seen disk) (J.crash disk) (J.crash e.1)) }
        ensures object { MatchResult result (λ r. J.same disk r.0.disk) (λ e. J.same disk e.1) }
        ensures cause_ok { IfOk result (λ r. J.faults r.0.disk ≡ J.faults disk) }
        ensures cause_err { IfErr result (λ e. (J.faults disk ≤ J.faults e.1) × (e.0 ≡ faults.DiskFault → Rose (J.faults disk) (J.faults e.1))) }
    {
        let mut disk = disk;
        match open_disk(alloc, &mut disk) {
            Ok((gate, stored)) => Ok((
                Journal {
                    disk,
                    gate,
                    failed: false,
                },
                stored,
            )),
            Err(fault) => Err((fault, disk)),
        }
    }

    /// Puts a payload behind the others, by four calls of the disk. It takes no memory. `DiskFault`: a
    /// call of the disk failed, now or in an earlier `put`, and the journal has to be opened again.
    /// `Full`: the journal would have this many bytes; nothing is written.
    pub fn put(&mut self, framed: &Framed) -> Result<(), JournalFault>
        ensures added { OnOk result (WhereTold (λ old new. payloads_of new ≡ with_payload framed.now (payloads_of old)) (J.seen self.old.disk) (J.seen self.new.disk)) }
        ensures settled { OnOk result ((self.new.failed ≡ false) × (self.new.gate ≡ self.old.gate + 5 + length framed.now) × IsSettled (J.seen self.new.disk) (J.crash self.new.disk) self.new.gate) }
        // A crash at any moment of the call leaves the payloads from before it, or these with the new one.
        ensures any_moment { self.old.failed ≡ false → IfSome (J.seen self.old.disk) (λ bytes. CrashesLeave (IsBeforeOrAfter bytes framed.now) (J.crash self.old.disk) (J.crash self.new.disk)) }
        ensures failed { self.old.failed ≡ true → (result ≡ Err faults.DiskFault) × (self.new ≡ self.old) }
        ensures full { self.old.failed ≡ false → limit < length_after self.old.gate framed.now → (result ≡ Err (faults.Full (length_after self.old.gate framed.now))) × (self.new ≡ self.old) }
        ensures fits { self.old.failed ≡ false → length_after self.old.gate framed.now ≤ limit → IfErr result (λ e. e ≡ faults.DiskFault) }
        ensures stays_failed { IsErrOf result faults.DiskFault → self.new.failed ≡ true }
        ensures object { J.same self.old.disk self.new.disk }
        ensures later { J.faults self.old.disk ≤ J.faults self.new.disk }
        ensures cause { IsErrOf result faults.DiskFault → (self.old.failed ≡ true) ⊎ Rose (J.faults self.old.disk) (J.faults self.new.disk) }
        ensures cause_ok { OnOk result (J.faults self.new.disk ≡ J.faults self.old.disk) }
    {
        if self.failed {
            return Err(JournalFault::DiskFault);
        }
        let bytes = framed.bytes();
        let length = self.gate.saturating_add(bytes.len() as u64);
        if length > LIMIT {
            return Err(JournalFault::Full(length));
        }
        // Until both writes are done nobody can say which of the payloads are there.
        self.failed = true;
        write_synced(&mut self.disk, self.gate + 1, &bytes[1..])?;
        write_synced(&mut self.disk, self.gate, &bytes[..1])?;
        self.failed = false;
        self.gate = length - 1;
        Ok(())
    }

    /// The place of the closed gate.
    pub fn gate(&self) -> u64
        ensures place { result ≡ self.now.gate }
        ensures settled { self.now.failed ≡ false → IsSettled (J.seen self.now.disk) (J.crash self.now.disk) self.now.gate }
    {
        self.gate
    }

    /// Whether a call of the disk has failed, so that it has to be opened again.
    pub fn has_failed(&self) -> bool
        ensures { result ≡ self.now.failed }
    {
        self.failed
    }

    /// Gives the disk back.
    pub fn close(self) -> J
        ensures { result ≡ self.disk }
    {
        let Journal {
            disk,
            gate: _,
            failed: _,
        } = self;
        disk
    }
}
