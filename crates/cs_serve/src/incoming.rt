ghost use Rattle.std.specs.Prelude.{◌≡◌, ◌+◌, ◌<◌, ◌≤◌, [], ℕ, List, Option, length, IfOk, vec_capacity};
ghost use Rattle.std.specs.Io.KnownBytes.{Appends, Keeps, IsAtEnd};
ghost use Rattle.cs_connection.specs.Conn.{HasConnCause, ReadGrows};
ghost use Rattle.cs_serve.specs.Reading.{ReadsMore, IsFound, IsTurn, HasReadCause};

use crate::look::{Look, whole_length};
use crate::parsed::parsed;
use crate::unasked::Unasked;
use cs_connection::{Conn, ConnFault};
use cs_http::{REQUEST_LIMIT, Request};
use cs_types::Memory;
use std::alloc::Global;

/// The most bytes that one read gives.
const PIECE: usize = 4_096;

/// The bytes of a request that were read so far, with room for as many as one may have, which is
/// taken once.
#[derive(Drop)]
struct Incoming {
    bytes: Vec<u8>,
    piece: Vec<u8>,
    look: Look,
    /// Where the head has ended, how many bytes there have to be until they are parsed again.
    wanted: usize,
    ghost filled: { length piece.items ≡ 4096 },
    ghost few: { length bytes.items ≤ 65536 },
    ghost room: { 65536 ≤ vec_capacity bytes },
}

/// Reads the request of a connection, in pieces, and no byte behind the piece in which it ends. At
/// most 65,536 bytes are read and held. It takes time in the size of what is read.
pub(crate) fn read_request<C: Conn>(alloc: Global, conn: &mut C) -> Result<Request, Unasked>
    ensures asked { (bytes : List ℕ) × Appends (C.gone conn.old) (C.gone conn.new) bytes × IsFound bytes (C.left conn.new) result }
    ensures written { Keeps (C.written conn.old) (C.written conn.new) }
    ensures object { C.same conn.old conn.new }
    ensures cause { HasReadCause (C.faults conn.old) (C.faults conn.new) result }
{
    let mut incoming = match Incoming::new(alloc) {
        Ok(incoming) => incoming,
        Err(Memory) => return Err(Unasked::Memory),
    };
    incoming.read(alloc, conn)
}

/// An empty `Vec` with room for a request.
fn room_for_request(alloc: Global) -> Result<Vec<u8>, Memory>
    ensures empty { IfOk result (λ v. v.items ≡ []) }
    ensures room { IfOk result (λ v. 65536 ≤ vec_capacity v) }
{
    Ok(Vec::with_capacity(alloc, REQUEST_LIMIT)?)
}

/// Room for a piece of so many bytes.
fn piece_of(alloc: Global, count: usize) -> Result<Vec<u8>, Memory>
    ensures { IfOk result (λ v. length v.items ≡ count) }
{
    Ok(Vec::from_elem(alloc, 0, count)?)
}

/// Reads at most so many bytes into the front of a piece.
fn read_into<C: Conn>(conn: &mut C, piece: &mut [u8], most: usize) -> Result<usize, ConnFault>
    requires some { 0 < most }
    requires within { most ≤ length piece.old }
    ensures bound { IfOk result (λ n. n ≤ most) }
    ensures gone { ReadGrows (C.gone conn.old) (C.gone conn.new) result piece.new }
    ensures end { IfOk result (λ n. n ≡ 0 → IsAtEnd (C.left conn.new)) }
    ensures written { Keeps (C.written conn.old) (C.written conn.new) }
    ensures object { C.same conn.old conn.new }
    ensures cause { HasConnCause (C.faults conn.old) (C.faults conn.new) result }
{
    conn.read(&mut piece[..most])
}

impl Incoming {
    fn new(alloc: Global) -> Result<Incoming, Memory>
        ensures { IfOk result (λ i. i.bytes.items ≡ []) }
    {
        Ok(Incoming {
            bytes: room_for_request(alloc)?,
            piece: piece_of(alloc, PIECE)?,
            look: Look::Blank,
            wanted: 0,
        })
    }

    /// Reads pieces until the request is whole, or can be none.
    fn read<C: Conn>(&mut self, alloc: Global, conn: &mut C) -> Result<Request, Unasked>
        ensures added { ReadsMore (C.gone conn.old) (C.gone conn.new) self.old.bytes.items self.new.bytes.items }
        ensures found { IsFound self.new.bytes.items (C.left conn.new) result }
        ensures written { Keeps (C.written conn.old) (C.written conn.new) }
        ensures object { C.same conn.old conn.new }
        ensures cause { HasReadCause (C.faults conn.old) (C.faults conn.new) result }
    {
        'pieces: while self.bytes.len() < REQUEST_LIMIT {
            match self.turn(alloc, conn) {
                Ok(Some(request)) => return Ok(request),
                Ok(None) => {}
                Err(fault) => return Err(fault),
            }
        }
        match parsed(alloc, &self.bytes) {
            Ok(Some(request)) => Ok(request),
            Ok(None) => unreachable!(),
            Err(fault) => Err(fault),
        }
    }

    /// Reads one piece more, and the request that is whole with it; None where more is needed.
    fn turn<C: Conn>(&mut self, alloc: Global, conn: &mut C) -> Result<Option<Request>, Unasked>
        requires { length self.old.bytes.items < 65536 }
        ensures added { ReadsMore (C.gone conn.old) (C.gone conn.new) self.old.bytes.items self.new.bytes.items }
        ensures turn { IsTurn self.old.bytes.items self.new.bytes.items (C.left conn.new) result }
        ensures written { Keeps (C.written conn.old) (C.written conn.new) }
        ensures object { C.same conn.old conn.new }
        ensures cause { HasReadCause (C.faults conn.old) (C.faults conn.new) result }
    {
        let seen = self.bytes.len();
        match self.more(conn) {
            Ok(0) => match self.ended(alloc) {
                Ok(request) => Ok(Some(request)),
                Err(fault) => Err(fault),
            },
            Ok(_) => self.looked(alloc, seen),
            Err(ConnFault::Failed) => Err(Unasked::Failed),
            Err(ConnFault::Memory) => Err(Unasked::Memory),
        }
    }

    /// Reads a piece behind the bytes that are held, and tells how many there were.
    fn more<C: Conn>(&mut self, conn: &mut C) -> Result<usize, ConnFault>
        requires { length self.old.bytes.items < 65536 }
        ensures added { ReadsMore (C.gone conn.old) (C.gone conn.new) self.old.bytes.items self.new.bytes.items }
        ensures count { IfOk result (λ n. length self.new.bytes.items ≡ length self.old.bytes.items + n) }
        ensures end { IfOk result (λ n. n ≡ 0 → IsAtEnd (C.left conn.new)) }
        ensures written { Keeps (C.written conn.old) (C.written conn.new) }
        ensures object { C.same conn.old conn.new }
        ensures cause { HasConnCause (C.faults conn.old) (C.faults conn.new) result }
    {
        let most = PIECE.min(REQUEST_LIMIT - self.bytes.len());
        let count = read_into(conn, &mut self.piece, most)?;
        match self.bytes.extend_from_slice(&self.piece[..count]) {
            Ok(()) => Ok(count),
            Err(_) => unreachable!(),
        }
    }

    /// The request that the bytes are, behind which there are no others.
    fn ended(&self, alloc: Global) -> Result<Request, Unasked>
        ensures found { (left : Option (List ℕ)) → IsAtEnd left → IsFound self.now.bytes.items left result }
        ensures calm { (faults : ℕ) → HasReadCause faults faults result }
    {
        match parsed(alloc, &self.bytes) {
            Ok(Some(request)) => Ok(request),
            Ok(None) => Err(Unasked::Cut),
            Err(fault) => Err(fault),
        }
    }

    /// The request that the bytes are, where those behind the first so many may make it whole.
    fn looked(&mut self, alloc: Global, seen: usize) -> Result<Option<Request>, Unasked>
        requires { seen < length self.old.bytes.items }
        ensures bytes { self.new.bytes.items ≡ self.old.bytes.items }
        ensures turn { (before : List ℕ) (left : Option (List ℕ)) → length before ≡ seen → IsTurn before self.new.bytes.items left result }
        ensures calm { (faults : ℕ) → HasReadCause faults faults result }
    {
        if !self.is_due(seen) {
            return Ok(None);
        }
        match parsed(alloc, &self.bytes) {
            Ok(Some(request)) => Ok(Some(request)),
            Ok(None) => {
                self.wait(alloc);
                Ok(None)
            }
            Err(fault) => Err(fault),
        }
    }

    /// Whether the bytes are to be parsed, with those behind the first so many: where the first line
    /// or the head ended among these, or the request is as long as its head says.
    fn is_due(&mut self, seen: usize) -> bool
        requires { seen < length self.old.bytes.items }
        ensures { self.new.bytes.items ≡ self.old.bytes.items }
    {
        if self.look.pass(&self.bytes[seen..]) {
            return true;
        }
        self.look.is_behind_head() && self.bytes.len() >= self.wanted
    }

    /// Notes how many bytes the request has, where its head is whole.
    fn wait(&mut self, alloc: Global)
        ensures { self.new.bytes.items ≡ self.old.bytes.items }
    {
        if self.look.is_behind_head() {
            self.wanted = whole_length(alloc, &self.bytes);
        }
    }
}
