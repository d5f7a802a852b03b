// The lines of a script, as its bytes come.
ghost use Rattle.std.specs.Prelude.{◌≡◌, ◌≢◌, ◌<◌, ◌+◌, ◌∷◌, ◌++◌, length, take, drop, All, MatchOption};
ghost use Rattle.cs_script.specs.Script.{without_return, fault_of};

use crate::{LineCause, ScriptFault, ServerState};
use json::Scratch;
use memchr::memchr;
use std::alloc::Global;

const LINE_END: u8 = b'\n';

/// What was read of a script: its lines as far as they are there, and the front of the next line.
#[derive(Drop)]
pub(crate) struct Reader {
    pub state: ServerState,
    /// How many lines were taken.
    pub lines: u64,
    pub line: Vec<u8>,
    /// What reading a line needs.
    pub scratch: Scratch,
}

/// The place of the first end of a line.
fn place_of_end(bytes: &[u8]) -> Option<usize>
    ensures { MatchOption result (All (λ x. x ≢ 10) bytes.now)
        (λ n. (n < length bytes.now) × All (λ x. x ≢ 10) (take n bytes.now)
        × (bytes.now ≡ take n bytes.now ++ 10 ∷ drop (n + 1) bytes.now)) }
{
    memchr(LINE_END, bytes)
}

/// A line without the carriage return at its end.
fn without_return(line: &[u8]) -> &[u8]
    ensures { result.now ≡ without_return line.now }
{
    if line.is_empty() {
        return line;
    }
    let end = line.len() - 1;
    if line[end] == b'\r' {
        return &line[..end];
    }
    line
}

impl Reader {
    ghost use Rattle.std.specs.Prelude.{◌≡◌, ◌≢◌, ◌∷◌, ◌++◌, ◌≤◌, ◌<◌, [], Ok, List, ℕ, length, take, IfOk, IfErr, OnOk};
    ghost use Rattle.cs_types.specs.Texts.{HasNoEnd};
    ghost use Rattle.cs_script.specs.Database.{no_database};
    ghost use Rattle.cs_script.specs.Progress.{HasRead, IsRefusedIn, IsRefused};
    ghost use Rattle.cs_script.specs.Script.{most_bytes, lines_of, Runs};

    /// Of no bytes.
    pub fn new(alloc: Global) -> Reader
        ensures { HasRead result [] }
    {
        Reader {
            state: ServerState::new(alloc),
            lines: 0,
            line: Vec::new(alloc),
            scratch: Scratch::new(alloc),
        }
    }

    /// Takes the next bytes, a line as soon as its end is there.
    pub fn take_piece(&mut self, piece: &[u8]) -> Result<(), ScriptFault>
        ensures given { (before : List ℕ) → HasRead self.old before → length (before ++ piece.now) ≤ most_bytes → OnOk result (HasRead self.new (before ++ piece.now)) }
        ensures refused { (before rest : List ℕ) → HasRead self.old before → length (before ++ piece.now) ≤ most_bytes → IfErr result (IsRefusedIn ((before ++ piece.now) ++ rest)) }
        ensures own { IfErr result (λ e. e ≢ ScriptFault.SourceFault) }
    {
        let mut at = 0;
        'parts: while at < piece.len() {
            match self.take_part(&piece[at..]) {
                Ok(count) => at += count,
                Err(fault) => return Err(fault),
            }
        }
        Ok(())
    }

    /// Takes the bytes up to the first line's end, and the line, or all of them where there is no
    /// end; answers how many bytes that were.
    fn take_part(&mut self, piece: &[u8]) -> Result<usize, ScriptFault>
        requires filled { 0 < length piece.now }
        ensures count { IfOk result (λ n. (0 < n) × (n ≤ length piece.now)) }
        ensures given { (before : List ℕ) → HasRead self.old before → length (before ++ piece.now) ≤ most_bytes → IfOk result (λ n. HasRead self.new (before ++ take n piece.now)) }
        ensures refused { (before rest : List ℕ) → HasRead self.old before → length (before ++ piece.now) ≤ most_bytes → IfErr result (IsRefusedIn ((before ++ piece.now) ++ rest)) }
        ensures own { IfErr result (λ e. e ≢ ScriptFault.SourceFault) }
    {
        let Some(end) = place_of_end(piece) else {
            return match self.take_front(piece) {
                Ok(()) => Ok(piece.len()),
                Err(fault) => Err(fault),
            };
        };
        match self.take_front(&piece[..end]) {
            Ok(()) => (),
            Err(fault) => return Err(fault),
        }
        match self.take_end() {
            Ok(()) => Ok(end + 1),
            Err(fault) => Err(fault),
        }
    }

    /// Takes bytes of a line, none of them its end.
    fn take_front(&mut self, front: &[u8]) -> Result<(), ScriptFault>
        requires { HasNoEnd front.now }
        ensures given { (before : List ℕ) → HasRead self.old before → OnOk result (HasRead self.new (before ++ front.now)) }
        ensures refused { IfErr result (λ e. e ≡ ScriptFault.Memory) }
    {
        self.line.extend_from_slice(front)?;
        Ok(())
    }

    /// Takes the end of a line, and the line.
    fn take_end(&mut self) -> Result<(), ScriptFault>
        ensures given { (before : List ℕ) → HasRead self.old before → length (before ++ 10 ∷ []) ≤ most_bytes → OnOk result (HasRead self.new (before ++ 10 ∷ [])) }
        ensures refused { (before rest : List ℕ) → HasRead self.old before → length (before ++ 10 ∷ []) ≤ most_bytes → IfErr result (IsRefusedIn ((before ++ 10 ∷ []) ++ rest)) }
        ensures own { IfErr result (λ e. e ≢ ScriptFault.SourceFault) }
    {
        self.lines = self.lines.saturating_add(1);
        match self
            .state
            .take_line(without_return(&self.line), &mut self.scratch)
        {
            Ok(()) => {}
            Err(cause) => return Err(line_fault(self.lines, cause)),
        }
        self.line.clear();
        Ok(())
    }

    /// The state behind the last line, which ends with the script.
    pub fn finish(self) -> Result<ServerState, ScriptFault>
        ensures read { (given : List ℕ) → HasRead self given → length given ≤ most_bytes → IfOk result (λ state. Runs no_database 1 (lines_of given) (Ok state)) }
        ensures refused { (given : List ℕ) → HasRead self given → length given ≤ most_bytes → IfErr result (IsRefused given) }
        ensures own { IfErr result (λ e. e ≢ ScriptFault.SourceFault) }
    {
        let Reader {
            state,
            lines,
            line,
            scratch,
        } = self;
        let mut state = state;
        let mut scratch = scratch;
        match state.take_line(&line, &mut scratch) {
            Ok(()) => Ok(state),
            Err(cause) => Err(line_fault(lines.saturating_add(1), cause)),
        }
    }
}

/// The fault of a line of this number.
fn line_fault(number: u64, cause: LineCause) -> ScriptFault
    ensures { result ≡ fault_of number cause }
{
    if cause.is_memory() {
        return ScriptFault::Memory;
    }
    ScriptFault::Line(number, cause)
}
