//! How far a script was read, on a terminal's standard error.

ghost use Rattle.std.specs.Prelude.{◌≡◌};
ghost use Rattle.std.proofs.Common.{rules};

use cs_device::{Failed, Source};
use std::fs::File;
use std::io::IsTerminal;
use std::time::{Duration, Instant};

/// Nothing is shown before a script was read for so many seconds.
const PATIENCE: u64 = 1;

/// The line is rewritten after so many milliseconds, at the soonest.
const PAUSE: u64 = 200;

/// What was read so far of a file that is shown.
#[derive(Drop)]
pub struct Progress<'a> {
    rt: &'a HostRuntime,
    /// The bytes of the whole file.
    whole: u64,
    bytes: u64,
    lines: u64,
    begun: Instant,
    shown: Option<Instant>,
}

impl<'a> Progress<'a> {
    /// Of a file that will be read; nothing where standard error is no terminal, or where the file
    /// or the clock does not tell what is needed.
    pub fn of(rt: &'a HostRuntime, file: &File) -> Option<Progress<'a>> {
        if !rt.stderr().is_terminal() {
            return None;
        }
        Some(Progress {
            rt,
            whole: file.metadata().ok()?.len(),
            bytes: 0,
            lines: 0,
            begun: Instant::now(rt).ok()?,
            shown: None,
        })
    }

    /// Counts a piece that was read, and shows it where it is time.
    fn add(&mut self, piece: &[u8]) {
        self.bytes = self.bytes.saturating_add(piece.len() as u64);
        for byte in piece {
            if *byte == b'\n' {
                self.lines = self.lines.saturating_add(1);
            }
        }
        if let Ok(now) = Instant::now(self.rt) {
            self.show(now);
        }
    }

    fn show(&mut self, now: Instant) {
        if now.duration_since(self.begun) < Duration::from_secs(PATIENCE) {
            return;
        }
        if let Some(last) = self.shown {
            if now.duration_since(last) < Duration::from_millis(PAUSE) {
                return;
            }
        }
        self.shown = Some(now);
        let part = self.bytes.saturating_mul(100) / self.whole.max(1);
        let _ = eprint!(self.rt;
            "\rspanstream: {} of {} bytes read ({part} %), {} lines\x1b[K",
            self.bytes, self.whole, self.lines
        );
    }

    /// Takes the line away.
    fn clear(&self) {
        if self.shown.is_some() {
            let _ = eprint!(self.rt; "\r\x1b[K");
        }
    }
}

/// A script that shows how far it was read.
#[derive(Drop)]
pub struct Shown<'a, S> {
    inner: S,
    progress: Option<Progress<'a>>,
}

impl<'a, S: Source> Shown<'a, S> {
    pub fn new(inner: S, progress: Option<Progress<'a>>) -> Shown<'a, S> {
        Shown { inner, progress }
    }

    /// Takes the line away, where one was shown.
    pub fn end(&self) {
        if let Some(progress) = &self.progress {
            progress.clear();
        }
    }
}

impl<'a, S: Source> Source for Shown<'a, S> {
    ghost left = { λ s. S.left s.inner };

    ghost faults = { λ s. S.faults s.inner };

    ghost same = { λ s t. S.same s.inner t.inner };

    fn read(&mut self, into: &mut [u8]) -> Result<usize, Failed> {
        let count = self.inner.read(into)?;
        if let Some(progress) = &mut self.progress {
            progress.add(&into[..count]);
        }
        Ok(count)
    }

    ghost same_now = { λ s. Prim.search rules };

    ghost same_then = { λ s t u a b. Prim.search rules };
}
