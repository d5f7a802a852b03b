ghost use Rattle.std.specs.Prelude.{◌≡◌, ◌≤◌, ◌↔◌, ◌++◌, [], length, drop, take, min, Some, Ok, Err, IfOk, IsErr, OnOk, OnErr, MatchResult, IsTrue, vec_capacity};
ghost use Rattle.std.specs.Io.{ReadsAtMost};
ghost use Rattle.std.specs.Io.KnownBytes.{ReadConsumes, Appends};
ghost use Rattle.cs_device.specs.Calls.{IsListed};
ghost use Rattle.cs_device.specs.Sink.{TakesFront};
ghost use Rattle.cs_connection.specs.Conn.{HasConnCause, ReadGrows};
ghost use Rattle.cs_connection.specs.Memory.{IsSameConn, ConnWriteFails, fresh_conn, read_count, after_read, after_conn_write, after_conn_fault};

use crate::calls::CallCounter;
use crate::{Conn, ConnFault};
use cs_types::{Items, Memory};
use std::alloc::Global;
use std::marker::Model;

/// Bytes in memory that are read in pieces, and the bytes that were written, with room for so many,
/// which was taken as it was made. Its calls take no memory.
#[derive(Debug, Drop)]
pub struct MemConn {
    bytes: Items<u8>,
    at: usize,
    piece: usize,
    written: Vec<u8>,
    room: u64,
    calls: CallCounter,
}

impl Model for MemConn {
    ghost use Rattle.std.specs.Prelude.{◌≤◌, length, drop, take, vec_capacity};
    ghost use Rattle.cs_connection.specs.Memory.{ConnState, conn_code};

    ghost Value = { ConnState };

    ghost coded = { conn_code };

    ghost view = { λ c. record { gone = take c.at c.bytes; left = drop c.at c.bytes; written = c.written.items; piece = c.piece; room = c.room; calls = c.calls } };

    ghost invariant = { λ c. (c.at ≤ length c.bytes) × (1 ≤ c.piece) × (c.room ≤ vec_capacity c.written) };
}

impl MemConn {
    /// A connection of which these bytes are read, at most `piece` of them at once, which is at
    /// least 1, with room for `room` written ones. `fails` lists the calls, reads and writes alike,
    /// that fail, counted from 0. `Memory` is want of memory for the room.
    pub fn new(
        alloc: Global,
        bytes: Items<u8>,
        piece: usize,
        room: u64,
        fails: Items<u64>,
    ) -> Result<MemConn, Memory>
        requires { 1 ≤ piece }
        ensures { IfOk result (λ c. c ≡ fresh_conn bytes piece room fails) }
    {
        Ok(MemConn {
            bytes,
            at: 0,
            piece,
            written: with_room(alloc, room)?,
            room,
            calls: CallCounter::new(fails),
        })
    }

    /// The bytes that were written.
    pub fn bytes(&self) -> &[u8]
        ensures { result.now ≡ self.now.written }
    {
        &self.written
    }

    /// Whether a write of these bytes is to fail.
    fn fails_write(&self, bytes: &[u8]) -> bool
        ensures { IsTrue result ↔ ConnWriteFails self.now (length bytes.now) }
    {
        if self.calls.is_listed() {
            return true;
        }
        self.written.len() as u64 + bytes.len() as u64 > self.room
    }
}

/// An empty `Vec` with this capacity; where no capacity is so great, that is want of memory.
fn with_room(alloc: Global, room: u64) -> Result<Vec<u8>, Memory>
    ensures empty { IfOk result (λ v. v.items ≡ []) }
    ensures room { IfOk result (λ v. room ≤ vec_capacity v) }
{
    let room = usize::try_from(room).map_err(|_| Memory)?;
    Ok(Vec::with_capacity(alloc, room)?)
}

/// Copies as much of what stands from `at` on as the piece holds, and at most `most` bytes.
fn copy_from(bytes: &[u8], at: usize, most: usize, into: &mut [u8]) -> usize
    requires { at ≤ length bytes.now }
    ensures count { result ≡ min (min (length (drop at bytes.now)) (length into.new)) most }
    ensures length { length into.new ≡ length into.old }
    ensures copied { take result into.new ≡ take result (drop at bytes.now) }
    ensures rest { drop result into.new ≡ drop result into.old }
{
    let left = &bytes[at..];
    let count = left.len().min(into.len()).min(most);
    into[..count].copy_from_slice(&left[..count]);
    count
}

impl Conn for MemConn {
    ghost gone = { λ c. Some c.gone };

    ghost left = { λ c. Some c.left };

    ghost written = { λ c. Some c.written };

    ghost faults = { λ c. c.calls.faults };

    ghost same = { IsSameConn };

    /// Fails on the listed calls alone, and then the piece is as it was; behind the bytes that were
    /// read it is so too. It gives as many bytes as are left and fit into the piece, at most those
    /// of one read.
    fn read(&mut self, into: &mut [u8]) -> Result<usize, ConnFault>
        ensures bound { ReadsAtMost result into.new }
        ensures gone { ReadGrows (Some self.old.gone) (Some self.new.gone) result into.new }
        ensures left { ReadConsumes (Some self.old.left) (Some self.new.left) result into.new }
        ensures object { IsSameConn self.old self.new }
        ensures cause { HasConnCause self.old.calls.faults self.new.calls.faults result }
        ensures fails { IsErr result ↔ IsListed self.old.calls }
        ensures count { IfOk result (λ n. n ≡ read_count self.old (length into.old)) }
        ensures piece { MatchResult result (λ n. drop n into.new ≡ drop n into.old) (λ _. into.new ≡ into.old) }
        ensures after { MatchResult result (λ n. self.new ≡ after_read n self.old)
            (λ fault. (fault ≡ ConnFault.Failed) × (self.new ≡ after_conn_fault self.old)) }
    {
        let fails = self.calls.is_listed();
        let Ok(()) = self.calls.count(fails) else {
            return Err(ConnFault::Failed);
        };
        let count = copy_from(self.bytes.as_slice(), self.at, self.piece, into);
        self.at += count;
        Ok(count)
    }

    /// Fails on the listed calls, and where the bytes written would pass the room; then it takes none.
    fn write(&mut self, bytes: &[u8]) -> Result<(), ConnFault>
        ensures written { OnOk result (Appends (Some self.old.written) (Some self.new.written) bytes.now) }
        ensures torn { OnErr result (TakesFront (Some self.old.written) (Some self.new.written) bytes.now) }
        ensures object { IsSameConn self.old self.new }
        ensures cause { HasConnCause self.old.calls.faults self.new.calls.faults result }
        ensures fails { IsErr result ↔ ConnWriteFails self.old (length bytes.now) }
        ensures after { MatchResult result (λ _. self.new ≡ after_conn_write bytes.now self.old)
            (λ fault. (fault ≡ ConnFault.Failed) × (self.new ≡ after_conn_fault self.old)) }
    {
        let fails = self.fails_write(bytes);
        let Ok(()) = self.calls.count(fails) else {
            return Err(ConnFault::Failed);
        };
        match self.written.extend_from_slice(bytes) {
            Ok(()) => Ok(()),
            Err(_) => unreachable!(),
        }
    }

    ghost use Rattle.std.proofs.Common.{rules, arith, refl, sym, ap, ◌∙◌, append-nil, append_assoc};

    ghost same_now = { λ s. record { piece = refl; room = refl; bytes = refl; written = ([], sym (append-nil s.written)); calls = Prim.search (rules, arith) } };

    ghost same_then = { λ s t u a b. record { piece = b.piece ∙ a.piece; room = b.room ∙ a.room; bytes = b.bytes ∙ a.bytes; written = (a.written.0 ++ b.written.0, b.written.1 ∙ ap (λ w. w ++ b.written.0) a.written.1 ∙ append_assoc s.written a.written.0 b.written.0); calls = Prim.search (rules, arith, a.calls, b.calls) } };
}
