// A source in memory of which no read fails.
ghost use Rattle.std.specs.Prelude.{◌≡◌, Some, IfOk};
ghost use Rattle.std.specs.Io.{ReadsAtMost};
ghost use Rattle.std.specs.Io.KnownBytes.{ReadConsumes};
ghost use Rattle.cs_device.specs.Causes.{HasCause};

use cs_device::{Failed, MemSource, Source};
use cs_types::{Items, Memory};
use std::alloc::Global;
use std::marker::Model;

/// Bytes in memory that are read to their end. Contracts see those that are left.
#[derive(Drop)]
pub(crate) struct SureSource {
    inner: MemSource,
}

impl Model for SureSource {
    ghost use Rattle.std.specs.Prelude.{◌≡◌, List, [], ℕ};

    ghost Value = { List ℕ };

    ghost view = { λ s. s.inner.left };

    ghost invariant = { λ s. s.inner.calls.listed ≡ [] };
}

impl SureSource {
    /// A source of these bytes.
    pub(crate) fn new(alloc: Global, bytes: Items<u8>) -> Result<SureSource, Memory>
        ensures { IfOk result (λ s. s ≡ bytes) }
    {
        let inner = MemSource::new(alloc, bytes, Items::new(alloc))?;
        Ok(SureSource { inner })
    }
}

impl Source for SureSource {
    ghost left = { λ s. Some s };

    ghost faults = { λ _. 0 };

    ghost same = { λ _ _. Unit {0} };

    fn read(&mut self, into: &mut [u8]) -> Result<usize, Failed> {
        match self.inner.read(into) {
            Ok(count) => Ok(count),
            Err(_) => unreachable!(),
        }
    }

    ghost same_now = { λ _. tt };

    ghost same_then = { λ _ _ _ _ _. tt };
}
