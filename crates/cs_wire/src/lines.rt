ghost use Rattle.std.specs.Prelude.{◌≡◌, ◌↔◌, ◌<◌, ◌≤◌, [], length, take, drop, false, IfOk, IsTrue, MatchOption};
ghost use Rattle.std.specs.Io.KnownBytes.{Keeps, IsAtEnd};
ghost use Rattle.cs_connection.specs.Conn.{HasConnCause};
ghost use Rattle.cs_types.specs.Texts.{HasNoEnd};
ghost use Rattle.cs_wire.specs.Held.{ReadsMore, EndsAt, IsReached};
ghost use Rattle.cs_wire.specs.Taken.{IsStepAnswer};
ghost use Rattle.cs_wire.specs.declared.lines.Reached.{Reached as reached};
ghost use Rattle.cs_records.specs.declared.faults.LineFault.{LineFault as line_faults};

use cs_connection::{Conn, ConnFault};
use cs_http::step_of;
use cs_link::{LinkAnswer, Step};
use cs_records::LineFault;
use cs_types::Memory;
use memchr::memchr;
use std::alloc::Global;

/// The most bytes of a line, without its end.
pub(crate) const LINE_LIMIT: usize = 8_388_608;

/// The most bytes that one read gives.
pub(crate) const PIECE: usize = 4_096;

/// What reading reached.
#[derive(Clone, Copy, Debug)]
pub(crate) enum Reached {
    /// The first line end that is held stands at this place.
    Line(usize),
    /// More bytes than a line has are held, and no line end is among them.
    TooLong,
    /// The connection ended, and no line end is held.
    Ended,
}

/// Room for a piece of so many bytes.
pub(crate) fn piece_of(alloc: Global, count: usize) -> Result<Vec<u8>, Memory>
    ensures { IfOk result (λ v. length v.items ≡ count) }
{
    Ok(Vec::from_elem(alloc, 0, count)?)
}

fn place_of_end(bytes: &[u8]) -> Option<usize>
    ensures { MatchOption result (HasNoEnd bytes.now) (EndsAt bytes.now) }
{
    memchr(b'\n', bytes)
}

/// The place of the first line end, where there is none among the first `seen` bytes.
fn end_behind(bytes: &[u8], seen: usize) -> Option<usize>
    requires within { seen ≤ length bytes.now }
    requires none { HasNoEnd (take seen bytes.now) }
    ensures { MatchOption result (HasNoEnd bytes.now) (EndsAt bytes.now) }
{
    match place_of_end(&bytes[seen..]) {
        Some(place) => Some(seen + place),
        None => None,
    }
}

/// A connection that is read in pieces, the bytes that were read and not yet used, and how many
/// bytes the head of the answer has.
#[derive(Drop)]
pub(crate) struct Lines<C: Conn> {
    pub(crate) conn: C,
    pub(crate) held: Vec<u8>,
    pub(crate) head: usize,
    piece: Vec<u8>,
    ghost filled: { length piece.items ≡ 4096 },
    ghost few: { length held.items ≤ 8392704 },
}

impl<C: Conn> Lines<C> {
    /// Nothing of the connection is held. The piece has the length of a piece.
    pub(crate) fn new(alloc: Global, conn: C, piece: Vec<u8>) -> Lines<C>
        requires { length piece.items ≡ 4096 }
        ensures conn { result.conn ≡ conn }
        ensures held { result.held.items ≡ [] }
        ensures head { result.head ≡ 0 }
    {
        Lines {
            conn,
            held: Vec::new(alloc),
            head: 0,
            piece,
        }
    }

    /// Reads a piece behind the bytes that are held, and tells whether there was one. It takes the
    /// room for the piece before it reads, so that nothing that was read is lost.
    pub(crate) fn more(&mut self) -> Result<bool, ConnFault>
        requires { length self.old.held.items ≤ 8388608 }
        ensures added { ReadsMore (C.gone self.old.conn) (C.gone self.new.conn) (C.left self.old.conn) (C.left self.new.conn) self.old.held.items self.new.held.items }
        ensures longer { IfOk result (λ some. IsTrue some → length self.old.held.items < length self.new.held.items) }
        ensures start { take (length self.old.held.items) self.new.held.items ≡ self.old.held.items }
        ensures end { IfOk result (λ some. some ≡ false → (self.new.held.items ≡ self.old.held.items) × IsAtEnd (C.left self.new.conn)) }
        ensures head { self.new.head ≡ self.old.head }
        ensures written { Keeps (C.written self.old.conn) (C.written self.new.conn) }
        ensures object { C.same self.old.conn self.new.conn }
        ensures cause { HasConnCause (C.faults self.old.conn) (C.faults self.new.conn) result }
    {
        if self.held.reserve(PIECE).is_err() {
            return Err(ConnFault::Memory);
        }
        let count = self.conn.read(&mut self.piece)?;
        match self.held.extend_from_slice(&self.piece[..count]) {
            Ok(()) => Ok(count > 0),
            Err(_) => unreachable!(),
        }
    }

    /// Reads until a line end is held, or no line can end any more.
    pub(crate) fn reach(&mut self) -> Result<Reached, ConnFault>
        ensures added { ReadsMore (C.gone self.old.conn) (C.gone self.new.conn) (C.left self.old.conn) (C.left self.new.conn) self.old.held.items self.new.held.items }
        ensures reached { IfOk result (IsReached self.new.held.items) }
        ensures end { IfOk result (λ r. r ≡ reached.Ended → IsAtEnd (C.left self.new.conn)) }
        ensures head { self.new.head ≡ self.old.head }
        ensures written { Keeps (C.written self.old.conn) (C.written self.new.conn) }
        ensures object { C.same self.old.conn self.new.conn }
        ensures cause { HasConnCause (C.faults self.old.conn) (C.faults self.new.conn) result }
    {
        let mut seen = 0;
        'pieces: loop {
            if let Some(place) = end_behind(&self.held, seen) {
                return Ok(Reached::Line(place));
            }
            seen = self.held.len();
            if seen > LINE_LIMIT {
                return Ok(Reached::TooLong);
            }
            let some = self.more()?;
            if !some {
                return Ok(Reached::Ended);
            }
        }
    }

    /// Takes the first bytes that are held.
    pub(crate) fn take(&mut self, count: usize)
        requires { count ≤ length self.old.held.items }
        ensures held { self.new.held.items ≡ drop count self.old.held.items }
        ensures head { self.new.head ≡ self.old.head }
        ensures conn { self.new.conn ≡ self.old.conn }
    {
        self.held.drain(..count);
    }

    /// Takes the next line, which has this number. A line that is bad, or is not understood for want
    /// of memory, stays.
    pub(crate) fn step(&mut self, alloc: Global, number: u64) -> Result<Step, LinkAnswer>
        ensures answer { IsStepAnswer (C.gone self.old.conn) (C.gone self.new.conn) (C.left self.old.conn) (C.left self.new.conn) self.old.held.items self.new.held.items number (C.faults self.old.conn) (C.faults self.new.conn) result }
        ensures head { self.new.head ≡ self.old.head }
        ensures written { Keeps (C.written self.old.conn) (C.written self.new.conn) }
        ensures object { C.same self.old.conn self.new.conn }
        ensures later { C.faults self.old.conn ≤ C.faults self.new.conn }
    {
        match self.reach() {
            Ok(Reached::Line(place)) => match step_of(alloc, &self.held[..place]) {
                Ok(step) => {
                    self.take(place + 1);
                    Ok(step)
                }
                Err(fault) => {
                    if is_memory(&fault) {
                        return Err(LinkAnswer::Memory);
                    }
                    Err(LinkAnswer::BadLine(number, fault))
                }
            },
            Ok(Reached::TooLong) => Err(LinkAnswer::BadLine(number, LineFault::TooLong)),
            Ok(Reached::Ended) => Err(LinkAnswer::Failed),
            Err(ConnFault::Failed) => Err(LinkAnswer::Failed),
            Err(ConnFault::Memory) => Err(LinkAnswer::Memory),
        }
    }
}

fn is_memory(fault: &LineFault) -> bool
    ensures { IsTrue result ↔ (fault.now ≡ line_faults.Memory) }
{
    match fault {
        LineFault::NotJson => false,
        LineFault::Member(_) => false,
        LineFault::ArrayCount => false,
        LineFault::BadValue(_) => false,
        LineFault::TooLong => false,
        LineFault::Memory => true,
    }
}
