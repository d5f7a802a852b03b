ghost use Rattle.std.specs.Prelude.{◌≡◌, ◌≢◌, ◌⊎◌, ◌≤◌, [], Some, Err, true, false, is_some, IfOk, IfSome, IfErr};
ghost use Rattle.std.specs.Option.{option_map};
ghost use Rattle.std.specs.declared.option.Option.{Option};
ghost use Rattle.std.specs.Io.KnownBytes.{Appends};
ghost use Rattle.cs_device.specs.Causes.{Rose};
ghost use Rattle.cs_connection.specs.Conn.{HasConnCause};
ghost use Rattle.cs_connection.specs.declared.conn.ConnFault.{ConnFault as conn_faults};
ghost use Rattle.cs_link.specs.Calls.{IsOfOpen};
ghost use Rattle.cs_link.specs.declared.feed.Feed.{Feed};
ghost use Rattle.cs_link.specs.declared.refusal.LinkAnswer.{LinkAnswer as link_answers};
ghost use Rattle.cs_http.specs.Request.{request_text};
ghost use Rattle.cs_wire.specs.Held.{ReadsMore};
ghost use Rattle.cs_wire.specs.Opened.{IsFresh, IsOpened, HasRead, IsBegun, IsBare, IsOfRefused};
ghost use Rattle.cs_wire.specs.Seen.{so_far, IsAnsweredOver};

use crate::feed_dial::FeedDial;
use crate::lines::{Lines, PIECE, Reached, piece_of};
use cs_connection::{Conn, ConnFault, Dial};
use cs_http::{Front, HEAD_LIMIT, front_of, refusal_of, request_bytes};
use cs_link::{LinkAnswer, ReadArgs, ReadRefusal};
use std::alloc::Global;

/// What is answered where a connection gave nothing.
fn of_fault(fault: ConnFault) -> LinkAnswer
    ensures bare { IsBare result }
    ensures failed { result ≡ link_answers.Failed → fault ≡ conn_faults.Failed }
{
    match fault {
        ConnFault::Failed => LinkAnswer::Failed,
        ConnFault::Memory => LinkAnswer::Memory,
    }
}

/// Reads the head of an answer, and gives its status. An answer that ends inside of its head, or
/// has another head than those that are taken, has none.
fn status_of<C: Conn>(alloc: Global, lines: &mut Lines<C>) -> Result<Option<u16>, ConnFault>
    ensures object { C.same lines.old.conn lines.new.conn }
    ensures later { C.faults lines.old.conn ≤ C.faults lines.new.conn }
    ensures cause { HasConnCause (C.faults lines.old.conn) (C.faults lines.new.conn) result }
    ensures status { IfOk result (HasRead (C.gone lines.old.conn) (C.gone lines.new.conn) (C.left lines.old.conn) (C.left lines.new.conn) lines.old.held.items lines.new.held.items lines.new.head) }
{
    'pieces: loop {
        let Ok(front) = front_of(alloc, &lines.held) else {
            return Err(ConnFault::Memory);
        };
        match front {
            Front::Head(status, len) => {
                lines.take(len);
                lines.head = len;
                return Ok(Some(status));
            }
            Front::Outside => return Ok(None),
            Front::More => {}
        }
        if lines.held.len() >= HEAD_LIMIT {
            return Ok(None);
        }
        let some = lines.more()?;
        if !some {
            return Ok(None);
        }
    }
}

/// The refusal of an answer with the status 400: that of its first line, or none but the status.
fn refused<C: Conn>(alloc: Global, lines: &mut Lines<C>) -> LinkAnswer
    ensures object { C.same lines.old.conn lines.new.conn }
    ensures later { C.faults lines.old.conn ≤ C.faults lines.new.conn }
    ensures head { lines.new.head ≡ lines.old.head }
    ensures added { ReadsMore (C.gone lines.old.conn) (C.gone lines.new.conn) (C.left lines.old.conn) (C.left lines.new.conn) lines.old.held.items lines.new.held.items }
    ensures answer { IsOfRefused (C.faults lines.old.conn) (C.faults lines.new.conn) (C.left lines.new.conn) lines.new.held.items result }
{
    let place = match lines.reach() {
        Ok(Reached::Line(place)) => place,
        Ok(Reached::TooLong) => return LinkAnswer::Refused(ReadRefusal::Wire(400)),
        Ok(Reached::Ended) => return LinkAnswer::Refused(ReadRefusal::Wire(400)),
        Err(fault) => return of_fault(fault),
    };
    match refusal_of(alloc, &lines.held[..place]) {
        Ok(Some(refusal)) => LinkAnswer::Refused(refusal),
        Ok(None) => LinkAnswer::Refused(ReadRefusal::Wire(400)),
        Err(_) => LinkAnswer::Memory,
    }
}

/// Reads the beginning of an answer, up to its lines.
fn opened<C: Conn>(alloc: Global, lines: &mut Lines<C>) -> Result<(), LinkAnswer>
    ensures later { C.faults lines.old.conn ≤ C.faults lines.new.conn }
    ensures object { C.same lines.old.conn lines.new.conn }
    ensures answer { IsOpened (C.gone lines.old.conn) (C.gone lines.new.conn) (C.left lines.old.conn) (C.left lines.new.conn) lines.old.held.items lines.new.held.items lines.new.head (C.faults lines.old.conn) (C.faults lines.new.conn) result }
{
    match status_of(alloc, lines) {
        Ok(Some(200)) => Ok(()),
        Ok(Some(400)) => Err(refused(alloc, lines)),
        Ok(Some(503)) => Err(LinkAnswer::Failed),
        Ok(Some(status)) => Err(LinkAnswer::Refused(ReadRefusal::Wire(status))),
        Ok(None) => Err(LinkAnswer::Failed),
        Err(fault) => Err(of_fault(fault)),
    }
}

/// Asks for a READ over a connection of its own.
fn ask<D: FeedDial>(alloc: Global, dial: &mut D, args: &ReadArgs) -> Result<Lines<D::C>, LinkAnswer>
where
    D::C: Drop,
    ensures object { D.same dial.old dial.new }
    ensures later { D.faults dial.old ≤ D.faults dial.new }
    ensures answer { IfErr result IsBare }
    ensures held { IfOk result (λ lines. lines.held.items ≡ []) }
    ensures asked { IfOk result (λ lines. (first : D.C) × D.gives dial.new first × D.C.same first lines.conn × Appends (D.C.written first) (D.C.written lines.conn) (request_text args.now)) }
    ensures failed { result ≡ Err link_answers.Failed → Rose (D.faults dial.old) (D.faults dial.new) ⊎ ((first : D.C) × (asked : D.C) × D.gives dial.new first × D.C.same first asked × Rose (D.C.faults first) (D.C.faults asked)) }
    ensures fresh { IfOk result (λ lines. D.tells dial.new ≡ true → IsFresh (D.C.gone lines.conn) (D.C.left lines.conn) (D.answer dial.new (request_text args.now))) }
{
    let request = request_bytes(alloc, args)?;
    let piece = piece_of(alloc, PIECE)?;
    let Ok(mut conn) = dial.dial() else {
        return Err(LinkAnswer::Failed);
    };
    if let Err(fault) = conn.write(request.as_slice()) {
        return Err(of_fault(fault));
    }
    Ok(Lines::new(alloc, conn, piece))
}

/// The answer to a READ, as far as `open` reads it.
pub(crate) struct Begun<C: Conn> {
    pub(crate) lines: Option<Lines<C>>,
    pub(crate) opened: Result<(), LinkAnswer>,
}

/// Begins a READ.
pub(crate) fn begin<D: FeedDial>(alloc: Global, dial: &mut D, args: &ReadArgs) -> Begun<D::C>
where
    D::C: Drop,
    ensures object { D.same dial.old dial.new }
    ensures later { D.faults dial.old ≤ D.faults dial.new }
    ensures answer { IfErr result.opened IsOfOpen }
    ensures lines { IfOk result.opened (λ u. is_some result.lines ≡ true) }
    ensures why { IfSome result.lines (λ l. IsAnsweredOver (D.gives dial.new) (request_text args.now) l result.opened) }
    ensures unasked { is_some result.lines ≡ false → IfErr result.opened IsBare }
    ensures failed { is_some result.lines ≡ false → result.opened ≡ Err link_answers.Failed → Rose (D.faults dial.old) (D.faults dial.new) ⊎ ((first : D.C) × (asked : D.C) × D.gives dial.new first × D.C.same first asked × Rose (D.C.faults first) (D.C.faults asked)) }
    ensures quiet { D.faultless dial.new ≡ true → IfSome result.lines (λ l. (e : D.C) → D.C.same l.conn e → D.C.faults e ≡ 0) }
    ensures never_fails { D.faultless dial.new ≡ true → D.tells dial.new ≡ true → (f : Feed) → D.feed dial.new args.now.stream ≡ Some f → result.opened ≢ Err link_answers.Failed }
    ensures begun { D.tells dial.new ≡ true → IsBegun (D.answer dial.new (request_text args.now)) (option_map so_far result.lines) result.opened }
{
    match ask(alloc, dial, args) {
        Ok(mut lines) => {
            let opened = opened(alloc, &mut lines);
            Begun {
                lines: Some(lines),
                opened,
            }
        }
        Err(answer) => Begun {
            lines: None,
            opened: Err(answer),
        },
    }
}
