use cs_link::Breach;
use cs_schedule::PlanFault;
use cs_types::{Memory, Window};

/// Why nothing is reserved for a batch.
#[derive(Debug, Drop)]
pub enum ReserveFault {
    /// 1: the server answered what no server may answer, as the rows show.
    Breach(Breach),
    /// 2: with the entry the journal would have this many bytes, more than its limit.
    Full(u64),
    /// There was not enough memory. It has no number.
    Memory,
}

impl From<Memory> for ReserveFault {
    ghost use Rattle.std.specs.Prelude.{◌≡◌};
    ghost use Rattle.cs_book.specs.declared.fault.ReserveFault.TheVariants.{Memory as memory};

    ghost from_gives = { λ _ e. e ≡ memory };

    fn from(_: Memory) -> ReserveFault {
        ReserveFault::Memory
    }
}

impl From<PlanFault> for ReserveFault {
    ghost use Rattle.cs_book.specs.Faults.{IsOfPlan};

    ghost from_gives = { IsOfPlan };

    fn from(fault: PlanFault) -> ReserveFault {
        match fault {
            PlanFault::Breach(breach) => ReserveFault::Breach(breach),
            PlanFault::Memory => ReserveFault::Memory,
        }
    }
}

/// Why an entry was not committed. The book answers the same until it is opened again.
#[derive(Clone, Copy, Debug, PartialEq, Eq)]
pub enum CommitFault {
    /// 1: a call of the journal's disk failed.
    JournalFault,
    /// 2: a call of the output's disk failed.
    OutputFault,
}

/// Why a book was not opened.
#[derive(Debug, Drop)]
pub enum OpenFault {
    /// 1: a call of the journal's disk failed.
    JournalFault,
    /// 2: behind the open gate at this place stands no whole entry, or one that does not follow.
    BadJournal(u64),
    /// 3: the journal is of this other window.
    OtherJournal(Window),
    /// 4: the journal has no entry, and the output has this many bytes.
    OutputNotEmpty(u64),
    /// 5: a call of the output's disk failed.
    OutputFault,
    /// There was not enough memory. It has no number.
    Memory,
}
