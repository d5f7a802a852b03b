ghost use Rattle.std.specs.Prelude.{◌≡◌, ◌≢◌, ◌<◌, ◌≤◌, ℕ, List, [], length, take, Ok, Err, IfOk, IfErr, IfSome};
ghost use Rattle.std.specs.Io.KnownBytes.{Consumes, IsAtEnd};
ghost use Rattle.cs_device.specs.Causes.{Rose, HasCause};
ghost use Rattle.cs_script.specs.Script.{Makes, of_script, IsReadOf};

use crate::reader::Reader;
use crate::{ScriptFault, ServerState};
use cs_device::{Failed, Source};
use cs_types::Memory;
use std::alloc::Global;

/// No script has more bytes.
const MOST_BYTES: usize = 67_108_864;

/// How many bytes are asked for at once.
const PIECE_BYTES: usize = 65_536;

/// What a script makes. It is read to its end, in pieces, and each line is taken once its end was
/// read; it is left off at the first bad line, and where more than 67,108,864 bytes were read.
pub fn load<S: Source>(alloc: Global, source: &mut S) -> Result<ServerState, ScriptFault>
    ensures made { IfOk result (λ state. IfSome (S.left source.old) (λ bytes. Makes bytes (Ok state))) }
    ensures refused { IfErr result (λ e. IfSome (S.left source.old) (λ bytes. of_script e → Makes bytes (Err e))) }
    ensures read { IfSome (S.left source.old) (λ bytes. IfSome (S.left source.new) (λ left. IsReadOf bytes left)) }
    ensures failed { result ≡ Err ScriptFault.SourceFault → Rose (S.faults source.old) (S.faults source.new) }
    ensures calm { result ≢ Err ScriptFault.SourceFault → S.faults source.new ≡ S.faults source.old }
    ensures object { S.same source.old source.new }
    ensures later { S.faults source.old ≤ S.faults source.new }
{
    let mut reader = Reader::new(alloc);
    let mut piece = piece_of(alloc, PIECE_BYTES)?;
    let mut total = 0;
    'pieces: while total <= MOST_BYTES {
        // one byte past the longest script, to tell it from a longer one
        let Ok(count) = read_piece(source, &mut piece, MOST_BYTES + 1 - total) else {
            return Err(ScriptFault::SourceFault);
        };
        if count == 0 {
            return reader.finish();
        }
        let kept = count.min(MOST_BYTES - total);
        match reader.take_piece(&piece[..kept]) {
            Ok(()) => (),
            Err(fault) => return Err(fault),
        }
        total += count;
    }
    Err(ScriptFault::TooLong)
}

/// Reads into the piece, of which no more than the room stays, and answers how many bytes: none
/// only at the end.
fn read_piece<S: Source>(source: &mut S, piece: &mut Vec<u8>, room: usize) -> Result<usize, Failed>
    requires filled { 0 < length piece.now.items }
    requires room { 0 < room }
    ensures bytes { IfOk result (λ n. Consumes (S.left source.old) (S.left source.new) (take n piece.new.items)) }
    ensures kept { IfErr result (λ _. Consumes (S.left source.old) (S.left source.new) []) }
    ensures at_end { IfOk result (λ n. n ≡ 0 → IsAtEnd (S.left source.new)) }
    ensures bound { IfOk result (λ n. n ≤ length piece.new.items) }
    ensures within { IfOk result (λ n. n ≤ room) }
    ensures filled { 0 < length piece.new.items }
    ensures object { S.same source.old source.new }
    ensures cause { HasCause (S.faults source.old) (S.faults source.new) result }
{
    piece.truncate(room);
    source.read(piece)
}

/// Room for a piece of this length.
fn piece_of(alloc: Global, length_is: usize) -> Result<Vec<u8>, Memory>
    ensures { IfOk result (λ v. length v.items ≡ length_is) }
{
    Ok(Vec::from_elem(alloc, 0, length_is)?)
}
