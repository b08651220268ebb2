// Reading to the end, and writing all.
ghost use Rattle.io_edge.specs.Whole.{ReadsAll, WritesAll};

use crate::edge::{ReadStop, Sink, Source, WriteStop};
use std::alloc::Global;

/// The most bytes that one read is asked for.
const CHUNK: usize = 16_384;

/// Reads to the end, but takes at most one buffer of 16,384 bytes beyond `limit`, so that a source
/// without an end is no harm.
///
/// # Errors
///
/// `ReadFault` where a read failed, `TooLarge` where more than `limit` bytes came, and `Memory` for
/// want of memory. What was read until then is lost.
pub fn read_all<S: Source>(alloc: Global, source: &mut S, limit: usize) -> Result<Vec<u8>, ReadStop>
    ensures { ReadsAll limit (S.left source.old) (S.left source.new) (S.faults source.old)
        (S.faults source.new) result }
{
    let mut bytes: Vec<u8> = Vec::new(alloc);
    let mut chunk = [0u8; CHUNK];
    'chunks: loop {
        let count = match source.read(&mut chunk) {
            Ok(count) => count,
            Err(_) => return Err(ReadStop::ReadFault),
        };
        if count == 0 {
            return Ok(bytes);
        }
        match bytes.extend_from_slice(&chunk[..count]) {
            Ok(()) => {}
            Err(error) => return Err(ReadStop::Memory(error)),
        }
        if bytes.len() > limit {
            return Err(ReadStop::TooLarge);
        }
    }
}

/// Writes all of these bytes.
///
/// # Errors
///
/// The first error of a write. A front of the bytes went out then, and after a `WriteFault` not all
/// of them.
pub fn write_all<K: Sink>(sink: &mut K, bytes: &[u8]) -> Result<(), WriteStop>
    ensures { WritesAll bytes.now (K.written sink.old) (K.written sink.new) (K.faults sink.old)
        (K.faults sink.new) result }
{
    let mut at = 0;
    while at < bytes.len() {
        match sink.write(&bytes[at..]) {
            Ok(count) => at += count,
            Err(stop) => return Err(stop),
        }
    }
    Ok(())
}
