ghost use Rattle.std.specs.Prelude.{◌≡◌, ◌<◌, [], ◌++◌, List, Option, ℕ, true, false, IfOk, OnOk, length};
ghost use Rattle.std.specs.Io.KnownBytes.{Appends, Keeps};
ghost use Rattle.cs_answer_lines.specs.StepLine.{CanStandAs};
ghost use Rattle.cs_connection.specs.Conn.{HasConnCause};
ghost use Rattle.cs_link.specs.declared.reading.Step.{Step as AStep};
ghost use Rattle.cs_serve.specs.Answer.{line_text, lines_text};
ghost use Rattle.cs_serve.specs.Sending.{Sends, SendsPart};

use crate::taken::Taken;
use cs_answer_lines::step_line;
use cs_connection::{Conn, ConnFault};
use cs_link::Step;
use cs_types::Memory;
use std::alloc::Global;

/// From how many bytes on lines that are held are written. The last line that is held may pass it.
const PIECE: usize = 16_384;

/// Writes the line of each step that is left, with its end, as the steps are made. Lines are held
/// until there is a piece of them, or none is left. It takes the time of the steps and of their
/// lines.
pub(crate) fn send_lines<C: Conn>(
    alloc: Global,
    taken: &mut Taken<'_>,
    conn: &mut C,
) -> Result<(), ConnFault>
    ensures written { OnOk result (Appends (C.written conn.old) (C.written conn.new) (lines_text taken.old)) }
    ensures gone { Keeps (C.gone conn.old) (C.gone conn.new) }
    ensures object { C.same conn.old conn.new }
    ensures cause { HasConnCause (C.faults conn.old) (C.faults conn.new) result }
{
    let mut held = Vec::new(alloc);
    'steps: loop {
        match send_step(alloc, taken, &mut held, conn) {
            Ok(true) => {}
            Ok(false) => return Ok(()),
            Err(fault) => return Err(fault),
        }
    }
}

/// Holds the line of the next step, or writes it with those that are held. Where no step is left it
/// writes those that are held, and answers false.
fn send_step<C: Conn>(
    alloc: Global,
    taken: &mut Taken<'_>,
    held: &mut Vec<u8>,
    conn: &mut C,
) -> Result<bool, ConnFault>
    ensures sends { (before : Option (List ℕ)) (all : List AStep) → Sends before (C.written conn.old) held.old.items all taken.old → OnOk result (Sends before (C.written conn.new) held.new.items all taken.new) }
    ensures done { IfOk result (λ more. more ≡ false → (taken.new ≡ []) × (held.new.items ≡ [])) }
    ensures less { IfOk result (λ more. more ≡ true → length taken.new < length taken.old) }
    ensures gone { Keeps (C.gone conn.old) (C.gone conn.new) }
    ensures object { C.same conn.old conn.new }
    ensures cause { HasConnCause (C.faults conn.old) (C.faults conn.new) result }
{
    let Ok(next) = taken.next(alloc) else {
        return Err(ConnFault::Memory);
    };
    let Some(step) = next else {
        send(held, conn)?;
        return Ok(false);
    };
    let Ok(()) = hold_line(alloc, held, &step) else {
        return Err(ConnFault::Memory);
    };
    send_piece(held, conn)?;
    Ok(true)
}

/// Puts the line of a step behind those that are held.
fn hold_line(alloc: Global, held: &mut Vec<u8>, step: &Step) -> Result<(), Memory>
    requires { CanStandAs step.now }
    ensures { OnOk result (held.new.items ≡ held.old.items ++ line_text step.now) }
{
    let line = step_line(alloc, step)?;
    held.extend_from_slice(line.as_str().as_bytes())?;
    held.push(b'\n')?;
    Ok(())
}

/// Writes the lines that are held, where there is a piece of them.
fn send_piece<C: Conn>(held: &mut Vec<u8>, conn: &mut C) -> Result<(), ConnFault>
    ensures part { OnOk result (SendsPart (C.written conn.old) (C.written conn.new) held.old.items held.new.items) }
    ensures gone { Keeps (C.gone conn.old) (C.gone conn.new) }
    ensures object { C.same conn.old conn.new }
    ensures cause { HasConnCause (C.faults conn.old) (C.faults conn.new) result }
{
    if held.len() < PIECE {
        return Ok(());
    }
    send(held, conn)
}

/// Writes the lines that are held.
fn send<C: Conn>(held: &mut Vec<u8>, conn: &mut C) -> Result<(), ConnFault>
    ensures part { OnOk result (SendsPart (C.written conn.old) (C.written conn.new) held.old.items held.new.items) }
    ensures held { OnOk result (held.new.items ≡ []) }
    ensures gone { Keeps (C.gone conn.old) (C.gone conn.new) }
    ensures object { C.same conn.old conn.new }
    ensures cause { HasConnCause (C.faults conn.old) (C.faults conn.new) result }
{
    conn.write(held)?;
    held.clear();
    Ok(())
}
