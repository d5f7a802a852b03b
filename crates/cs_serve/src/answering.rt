ghost use Rattle.std.specs.Prelude.{◌≡◌, List, ℕ, OnOk};
ghost use Rattle.std.specs.Io.KnownBytes.{Appends, Keeps};
ghost use Rattle.cs_connection.specs.Conn.{HasConnCause};
ghost use Rattle.cs_ddl.specs.declared.tree.ReadQuery.{ReadQuery as AQuery};
ghost use Rattle.cs_read.specs.Answers.{read_refusal, answer_steps};
ghost use Rattle.cs_serve.specs.Answer.{IsAnswerToBody, steps_answer, read_answer};

use crate::refusing::{refuse_read, want};
use crate::sending::send_lines;
use crate::taken::Taken;
use cs_connection::{Conn, ConnFault};
use cs_ddl::{ReadQuery, SyntaxFault, parse_query};
use cs_http::answer_head;
use cs_link::ReadRefusal;
use cs_script::ServerState;
use cs_steps::ReadFault;
use cs_types::{Stamp, Text};
use std::alloc::Global;

/// Writes the answer to the text of a request's body at a moment.
pub(crate) fn answer_body<C: Conn>(
    alloc: Global,
    state: &ServerState,
    moment: Stamp,
    body: &Text,
    conn: &mut C,
) -> Result<(), ConnFault>
    ensures written { OnOk result ((answer : List ℕ) × IsAnswerToBody state.now moment body.now answer × Appends (C.written conn.old) (C.written conn.new) answer) }
    ensures gone { Keeps (C.gone conn.old) (C.gone conn.new) }
    ensures object { C.same conn.old conn.new }
    ensures cause { HasConnCause (C.faults conn.old) (C.faults conn.new) result }
{
    match parse_query(alloc, body.as_str().as_bytes()) {
        Ok(query) => answer_query(alloc, state, moment, &query, conn),
        Err(SyntaxFault::At(place)) => {
            refuse_read(alloc, &ReadRefusal::Syntax(place as u64), conn)
        }
        Err(SyntaxFault::Memory) => Err(want(conn)),
    }
}

/// Writes the answer to a query at a moment.
fn answer_query<C: Conn>(
    alloc: Global,
    state: &ServerState,
    moment: Stamp,
    query: &ReadQuery,
    conn: &mut C,
) -> Result<(), ConnFault>
    ensures written { OnOk result (Appends (C.written conn.old) (C.written conn.new) (read_answer (read_refusal state.now query.now moment) (answer_steps state.now query.now moment))) }
    ensures gone { Keeps (C.gone conn.old) (C.gone conn.new) }
    ensures object { C.same conn.old conn.new }
    ensures cause { HasConnCause (C.faults conn.old) (C.faults conn.new) result }
{
    match Taken::of(alloc, state, query, moment) {
        Ok(mut taken) => answer_taken(alloc, &mut taken, conn),
        Err(ReadFault::Refused(refusal)) => refuse_read(alloc, &refusal, conn),
        Err(ReadFault::Memory) => Err(want(conn)),
    }
}

/// Writes the head of an answer, and the lines of the steps.
fn answer_taken<C: Conn>(
    alloc: Global,
    taken: &mut Taken<'_>,
    conn: &mut C,
) -> Result<(), ConnFault>
    ensures written { OnOk result (Appends (C.written conn.old) (C.written conn.new) (steps_answer taken.old)) }
    ensures gone { Keeps (C.gone conn.old) (C.gone conn.new) }
    ensures object { C.same conn.old conn.new }
    ensures cause { HasConnCause (C.faults conn.old) (C.faults conn.new) result }
{
    conn.write(answer_head())?;
    send_lines(alloc, taken, conn)
}
