// What a source gives, a sink takes and a folder holds.
ghost use Rattle.std.specs.Prelude.{◌≡◌, ◌≤◌, ◌<◌, ℕ, List, Option, length, vec_len, IfOk, IfSome};
ghost use Rattle.std.specs.Io.{ReadsAtMost, WritesAtMost};
ghost use Rattle.std.specs.Io.KnownBytes.{ReadConsumes, WriteAppends};
ghost use Rattle.io_edge.specs.Causes.{HasCause, WriteCause, ReadFileCause, WriteFileCause};
ghost use Rattle.io_edge.specs.Files.{ReadsFile, WritesFile};
ghost use Rattle.io_edge.specs.declared.edge.Action.{Action};
ghost use Rattle.io_edge.specs.declared.edge.Action.TheVariants.{Read, Write};

use std::alloc::{AllocError, Global};

/// A read of a source failed. Nothing of what is left was lost.
#[derive(Clone, Copy, Debug)]
pub struct Failed;

/// Why no bytes came of a reading.
#[derive(Clone, Copy, Debug)]
pub enum ReadStop {
    /// A read failed, or a file isn't there.
    ReadFault,
    /// More bytes than the limit are there.
    TooLarge,
    /// Want of memory.
    Memory(AllocError),
}

/// Why bytes were not written, or not all of them.
#[derive(Clone, Copy, Debug)]
pub enum WriteStop {
    /// A write failed.
    WriteFault,
    /// Want of memory.
    Memory(AllocError),
}

/// What a call was to do to a file.
#[derive(Clone, Copy, PartialEq, Eq, Debug)]
pub enum Action {
    /// To give its bytes.
    Read,
    /// To put bytes into it.
    Write,
}

/// Bytes that are read from the front.
pub trait Source {
    /// The bytes not yet read, where the source tells.
    ghost left: { Self → Option (List ℕ) };

    /// How often a read has failed. The count stays at `u64::MAX` once it is there.
    ghost faults: { Self → ℕ };

    /// Gives the front of what is left, as many bytes as it likes up to the buffer's length. It
    /// gives none only at the end, or for an empty buffer.
    ///
    /// # Errors
    ///
    /// `Failed` where the read failed. What is left stays then.
    fn read(&mut self, buf: &mut [u8]) -> Result<usize, Failed>
        ensures bound { ReadsAtMost result buf.new }
        ensures bytes { ReadConsumes (left self.old) (left self.new) result buf.new }
        ensures cause { HasCause (faults self.old) (faults self.new) result };
}

/// Something that takes bytes in order.
pub trait Sink {
    /// The bytes that were taken so far, where the sink tells.
    ghost written: { Self → Option (List ℕ) };

    /// How often a write has failed. The count stays at `u64::MAX` once it is there.
    ghost faults: { Self → ℕ };

    /// Takes a front of the piece, and says how many bytes: at least one where the piece has any.
    ///
    /// # Errors
    ///
    /// `WriteFault` where the write failed, and `Memory` for want of memory. Nothing was taken then.
    fn write(&mut self, piece: &[u8]) -> Result<usize, WriteStop>
        ensures bound { WritesAtMost result piece.now }
        ensures some { IfOk result (λ n. 0 < length piece.now → 0 < n) }
        ensures bytes { WriteAppends (written self.old) (written self.new) result piece.now }
        ensures cause { WriteCause (faults self.old) (faults self.new) result };
}

/// Bytes under names. Names are compared as words: two spellings of one path are two names.
pub trait Folder {
    /// The bytes under each name, where the folder tells.
    ghost held: { Self → Option (List ℕ → Option (List ℕ)) };

    /// The last failed call: what it was to do, and the bytes of the name.
    ghost blamed: { Self → Option (Action × List ℕ) };

    /// How often a call has failed. The count stays at `u64::MAX` once it is there.
    ghost faults: { Self → ℕ };

    /// The bytes under a name, of which there are at most `limit`.
    ///
    /// # Errors
    ///
    /// `ReadFault` where a read failed or no such file is there, `TooLarge` where the file has more
    /// bytes than `limit`, and `Memory` for want of memory.
    fn read_file(&mut self, alloc: Global, name: &str, limit: usize) -> Result<Vec<u8>, ReadStop>
        ensures held { held self.new ≡ held self.old }
        ensures bound { IfOk result (λ bytes. vec_len bytes ≤ limit) }
        ensures bytes { IfSome (held self.old) (λ files. ReadsFile (files name.now) limit result) }
        ensures cause { ReadFileCause (Read, name.now) (blamed self.old) (blamed self.new) (faults self.old)
            (faults self.new) result };

    /// Puts these bytes under a name, in the place of what stood there. No other name changes.
    ///
    /// # Errors
    ///
    /// `WriteFault` where the write failed: any bytes, or none, stand under the name then. `Memory`
    /// for want of memory, where nothing has changed.
    fn write_file(&mut self, name: &str, bytes: &[u8]) -> Result<(), WriteStop>
        ensures bytes { WritesFile name.now bytes.now (held self.old) (held self.new) result }
        ensures cause { WriteFileCause (Write, name.now) (blamed self.old) (blamed self.new) (faults self.old)
            (faults self.new) result };
}
