use cs_link::{Breach, LinkAnswer, ReadRefusal};
use cs_types::{Duplicate, Memory};

/// Why a READ gave no batch.
#[derive(Debug, Drop)]
pub enum FetchFault {
    /// 1: the link failed.
    LinkFault,
    /// 2: the READ was refused.
    Refused(ReadRefusal),
    /// 3: the server answered what no server may answer.
    Breach(Breach),
    /// 4: so many records in a row added nothing.
    Stalled(u32),
    /// There was not enough memory. It has no number.
    Memory,
}

impl Duplicate for FetchFault {
    fn copy(&self) -> Result<FetchFault, Memory> {
        match self {
            FetchFault::LinkFault => Ok(FetchFault::LinkFault),
            FetchFault::Refused(refusal) => Ok(FetchFault::Refused(refusal.copy()?)),
            FetchFault::Breach(breach) => Ok(FetchFault::Breach(breach.copy()?)),
            FetchFault::Stalled(count) => Ok(FetchFault::Stalled(*count)),
            FetchFault::Memory => Ok(FetchFault::Memory),
        }
    }
}

impl From<Memory> for FetchFault {
    ghost use Rattle.std.specs.Prelude.{◌≡◌};
    ghost use Rattle.cs_fetch.specs.declared.fault.FetchFault.TheVariants.{Memory as memory};

    ghost from_gives = { λ _ e. e ≡ memory };

    fn from(_: Memory) -> FetchFault {
        FetchFault::Memory
    }
}

impl From<LinkAnswer> for FetchFault {
    ghost use Rattle.std.specs.Prelude.{◌≡◌};
    ghost use Rattle.cs_fetch.specs.Fetch.{fault_of};

    ghost from_gives = { λ answer e. e ≡ fault_of answer };

    fn from(answer: LinkAnswer) -> FetchFault {
        match answer {
            LinkAnswer::Failed => FetchFault::LinkFault,
            LinkAnswer::Refused(refusal) => FetchFault::Refused(refusal),
            LinkAnswer::BadLine(number, fault) => FetchFault::Breach(Breach::BadLine(
                number, fault,
            )),
            LinkAnswer::Memory => FetchFault::Memory,
        }
    }
}
