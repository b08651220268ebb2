// The folder that the program runs in. It tells what it blames and the count of its faults, and no
// bytes.
ghost use Rattle.std.specs.Prelude.{◌≡◌, ◌≤◌, None, Some, IfOk, vec_len};
ghost use Rattle.io_edge.specs.Causes.{Rose};

use crate::edge::{Action, Failed, Folder, ReadStop, Sink, Source, WriteStop};
use crate::folder::{Blame, blame_of};
use crate::stream::{read_from, write_to};
use crate::whole::{read_all, write_all};
use std::alloc::Global;
use std::fs;
use std::fs::Files;
use std::io::{Read, Write};

#[derive(Drop)]
struct FileSource<F: Read + Drop> {
    file: F,
    faults: u64,
}

impl<F: Read + Drop> Source for FileSource<F> {
    ghost left = { λ s. F.remaining s.file };

    ghost faults = { λ s. s.faults };

    fn read(&mut self, buf: &mut [u8]) -> Result<usize, Failed> {
        read_from(&mut self.file, &mut self.faults, buf)
    }
}

#[derive(Drop)]
struct FileSink<F: Write + Drop> {
    file: F,
    faults: u64,
}

impl<F: Write + Drop> Sink for FileSink<F> {
    ghost written = { λ s. F.contents s.file };

    ghost faults = { λ s. s.faults };

    fn write(&mut self, piece: &[u8]) -> Result<usize, WriteStop> {
        write_to(&mut self.file, &mut self.faults, piece)
    }
}

/// Reads the file at a path, of at most `limit` bytes.
fn read_path<R: Files>(
    runtime: &R,
    alloc: Global,
    path: &str,
    limit: usize,
) -> Result<Vec<u8>, ReadStop>
    ensures { IfOk result (λ bytes. vec_len bytes ≤ limit) }
{
    match fs::open(runtime, path) {
        Ok(file) => {
            let mut source = FileSource { file, faults: 0 };
            read_all(alloc, &mut source, limit)
        }
        Err(_) => Err(ReadStop::ReadFault),
    }
}

/// Puts bytes into the file at a path, which is made where it isn't there.
fn write_path<R: Files>(runtime: &R, path: &str, bytes: &[u8]) -> Result<(), WriteStop> {
    match fs::create(runtime, path) {
        Ok(file) => {
            let mut sink = FileSink { file, faults: 0 };
            write_all(&mut sink, bytes)
        }
        Err(_) => Err(WriteStop::WriteFault),
    }
}

/// The folder that the program runs in, with the files at absolute paths too.
#[derive(Drop)]
pub struct RealFolder<R: Files + Drop> {
    runtime: R,
    alloc: Global,
    faults: u64,
    blame: Option<Blame>,
}

impl<R: Files + Drop> RealFolder<R> {
    /// The folder, with no fault so far. `alloc` is for the names that it blames.
    pub fn new(runtime: R, alloc: Global) -> RealFolder<R> {
        RealFolder {
            runtime,
            alloc,
            faults: 0,
            blame: None,
        }
    }

    fn count_fault(&mut self, blame: Blame)
        ensures blame { self.new.blame ≡ Some blame }
        ensures faults { Rose self.old.faults self.new.faults }
    {
        self.faults = self.faults.saturating_add(1);
        self.blame = Some(blame);
    }
}

impl<R: Files + Drop> Folder for RealFolder<R> {
    ghost use Rattle.std.specs.Option.{option_map};
    ghost use Rattle.io_edge.specs.FolderSeen.{blame_seen};

    ghost held = { λ _. None };

    ghost blamed = { λ s. option_map blame_seen s.blame };

    ghost faults = { λ s. s.faults };

    fn read_file(&mut self, alloc: Global, name: &str, limit: usize) -> Result<Vec<u8>, ReadStop> {
        let blame = match blame_of(self.alloc, Action::Read, name) {
            Ok(blame) => blame,
            Err(error) => return Err(ReadStop::Memory(error)),
        };
        match read_path(&self.runtime, alloc, name, limit) {
            Ok(bytes) => Ok(bytes),
            Err(ReadStop::ReadFault) => {
                self.count_fault(blame);
                Err(ReadStop::ReadFault)
            }
            Err(ReadStop::TooLarge) => Err(ReadStop::TooLarge),
            Err(ReadStop::Memory(error)) => Err(ReadStop::Memory(error)),
        }
    }

    fn write_file(&mut self, name: &str, bytes: &[u8]) -> Result<(), WriteStop> {
        let blame = match blame_of(self.alloc, Action::Write, name) {
            Ok(blame) => blame,
            Err(error) => return Err(WriteStop::Memory(error)),
        };
        match write_path(&self.runtime, name, bytes) {
            Ok(()) => Ok(()),
            Err(WriteStop::WriteFault) => {
                self.count_fault(blame);
                Err(WriteStop::WriteFault)
            }
            Err(WriteStop::Memory(error)) => Err(WriteStop::Memory(error)),
        }
    }
}
