// One read or write of a stream of the system, with its fault counted.
ghost use Rattle.std.specs.Prelude.{◌≤◌, ◌<◌, length, IfOk};
ghost use Rattle.std.specs.Io.{ReadsAtMost, WritesAtMost};
ghost use Rattle.std.specs.Io.KnownBytes.{ReadConsumes, WriteAppends};
ghost use Rattle.io_edge.specs.Causes.{HasCause, WriteCause};

use crate::edge::{Failed, WriteStop};
use std::io;
use std::io::{ErrorKind, Read, Write};

/// Reads once. A read that a signal interrupted is made again, as Rust's `read_to_end` does.
fn read_once<R: Read>(stream: &mut R, buf: &mut [u8]) -> io::Result<usize>
    ensures bound { ReadsAtMost result buf.new }
    ensures bytes { ReadConsumes (R.remaining stream.old) (R.remaining stream.new) result buf.new }
{
    'tries: for _ in 0..u64::MAX {
        match stream.read(buf) {
            Err(error) if error.kind() == ErrorKind::Interrupted => {}
            answer => return answer,
        }
    }
    Err(io::Error::from(ErrorKind::Interrupted))
}

/// Writes once. A write that a signal interrupted is made again, as Rust's `write_all` does.
fn write_once<W: Write>(stream: &mut W, piece: &[u8]) -> io::Result<usize>
    ensures bound { WritesAtMost result piece.now }
    ensures bytes { WriteAppends (W.contents stream.old) (W.contents stream.new) result piece.now }
{
    'tries: for _ in 0..u64::MAX {
        match stream.write(piece) {
            Err(error) if error.kind() == ErrorKind::Interrupted => {}
            answer => return answer,
        }
    }
    Err(io::Error::from(ErrorKind::Interrupted))
}

/// A read that counts its fault.
pub fn read_from<R: Read>(stream: &mut R, faults: &mut u64, buf: &mut [u8]) -> Result<usize, Failed>
    ensures bound { ReadsAtMost result buf.new }
    ensures bytes { ReadConsumes (R.remaining stream.old) (R.remaining stream.new) result buf.new }
    ensures cause { HasCause faults.old faults.new result }
{
    match read_once(stream, buf) {
        Ok(count) => Ok(count),
        Err(_) => {
            *faults = faults.saturating_add(1);
            Err(Failed)
        }
    }
}

/// A write that counts its fault. One that takes no byte of a piece that has some is a fault too.
pub fn write_to<W: Write>(
    stream: &mut W,
    faults: &mut u64,
    piece: &[u8],
) -> Result<usize, WriteStop>
    ensures bound { WritesAtMost result piece.now }
    ensures some { IfOk result (λ n. 0 < length piece.now → 0 < n) }
    ensures bytes { WriteAppends (W.contents stream.old) (W.contents stream.new) result piece.now }
    ensures cause { WriteCause faults.old faults.new result }
{
    match write_once(stream, piece) {
        Ok(count) if count > 0 || piece.is_empty() => Ok(count),
        _ => {
            *faults = faults.saturating_add(1);
            Err(WriteStop::WriteFault)
        }
    }
}
