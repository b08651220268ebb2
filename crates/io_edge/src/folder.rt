// A folder in memory.
ghost use Rattle.std.specs.Prelude.{◌≡◌, ◌≤◌, ◌+◌, ◌-◌, ◌^◌, ◌↔◌, ◌⊎◌, [], ◌∷◌, ℕ, List, length, vec_len, min, Contains, IsErrOf, IfOk, OnOk, OnErr, IfSome, IsSome, MatchOption, Option, Some, None, MatchResult, string_bytes, map};
ghost use Rattle.std.specs.Option.{option_copied};
ghost use Rattle.io_edge.specs.FolderSeen.{entry_seen, blame_seen};
ghost use Rattle.io_edge.specs.Causes.{ReadFileCause, WriteFileCause};
ghost use Rattle.io_edge.specs.Files.{ReadsFile, WritesFile};
ghost use Rattle.io_edge.specs.Memory.{find_file};
ghost use Rattle.io_edge.specs.declared.edge.Action.TheVariants.{Read, Write};

use crate::edge::{Action, Folder, ReadStop, WriteStop};
use std::alloc::{AllocError, Global};
use std::marker::Model;

/// A file.
#[derive(Drop)]
struct Entry {
    name: String,
    bytes: Vec<u8>,
}

/// The last failed call of a folder.
#[derive(Drop)]
pub struct Blame {
    /// What it was to do.
    pub action: Action,
    /// The name that it was given.
    pub name: String,
}

/// A folder in memory. A clause sees the bytes under each name as a list of pairs, the latest first,
/// the numbers of the calls that fail, the number of the next call, the faults so far, and what is
/// blamed.
#[derive(Drop)]
pub struct MemFolder {
    alloc: Global,
    entries: Vec<Entry>,
    fails: Vec<u64>,
    calls: u64,
    faults: u64,
    blame: Option<Blame>,
}

impl Model for MemFolder {
    ghost use Rattle.std.specs.Prelude.{map};
    ghost use Rattle.io_edge.specs.FolderSeen.{entry_seen, blame_seen};
    ghost use Rattle.std.specs.Option.{option_map};
    ghost use Rattle.io_edge.specs.Memory.{FolderState};

    ghost Value = { FolderState };

    ghost view = { λ s. record { entries = map entry_seen s.entries.items; fails = s.fails.items; calls = s.calls; faults = s.faults; blamed = option_map blame_seen s.blame } };
}

impl MemFolder {
    /// An empty folder. The calls of `read_file` and `write_file` together are counted from 0, up to
    /// `u64::MAX`. Those whose numbers are in `fails` answer a fault, and so does the reading of a
    /// name that isn't held; no other does. One that wants memory counts as a call.
    pub fn new(alloc: Global, fails: Vec<u64>) -> MemFolder
        ensures { result ≡ record { entries = []; fails = fails.items; calls = 0; faults = 0; blamed = None } }
    {
        MemFolder {
            alloc,
            entries: Vec::new(alloc),
            fails,
            calls: 0,
            faults: 0,
            blame: None,
        }
    }

    /// Puts these bytes under a name, and is no call that is counted.
    ///
    /// # Errors
    ///
    /// Only for want of memory. Nothing has changed then.
    pub fn put(&mut self, name: &str, bytes: &[u8]) -> Result<(), AllocError>
        ensures ok { OnOk result (self.new ≡ record self.old { entries = (name.now, bytes.now) ∷ self.old.entries }) }
        ensures err { OnErr result (self.new ≡ self.old) }
    {
        let entry = entry_of(self.alloc, name, bytes)?;
        self.entries.insert(0, entry)?;
        Ok(())
    }

    /// The bytes under a name, or none where the name isn't held.
    pub fn get(&self, name: &str) -> Option<&[u8]>
        ensures { option_copied result ≡ find_file self.now.entries name.now }
    {
        find(&self.entries, name)
    }
}

fn entry_of(alloc: Global, name: &str, bytes: &[u8]) -> Result<Entry, AllocError>
    ensures { IfOk result (λ e. (string_bytes e.name ≡ name.now) × (e.bytes.items ≡ bytes.now)) }
{
    let name = String::from_str(alloc, name)?;
    let bytes = bytes.to_vec(alloc)?;
    Ok(Entry { name, bytes })
}

/// The bytes of the first entry under a name.
fn find<'a>(entries: &'a [Entry], name: &str) -> Option<&'a [u8]>
    ensures { option_copied result ≡ find_file (map entry_seen entries.now) name.now }
{
    for entry in entries {
        if entry.name.as_str() == name {
            return Some(entry.bytes.as_slice());
        }
    }
    None
}

/// Puts an entry before those that are there, so that it is the one that is found under its name. An older entry of that
/// name stays after it and is never found again: so want of memory leaves all as it was, and a folder that a run or a test
/// writes to holds each name a few times at most.
fn put_first(entries: &mut Vec<Entry>, entry: Entry) -> Result<(), AllocError>
    ensures ok { OnOk result (map entry_seen entries.new.items ≡ entry_seen entry ∷ map entry_seen entries.old.items) }
    ensures err { OnErr result (map entry_seen entries.new.items ≡ map entry_seen entries.old.items) }
{
    entries.insert(0, entry)?;
    Ok(())
}

/// What is blamed where this call fails.
///
/// # Errors
///
/// Only for want of memory.
pub fn blame_of(alloc: Global, action: Action, name: &str) -> Result<Blame, AllocError>
    ensures { IfOk result (λ b. blame_seen b ≡ (action, name.now)) }
{
    let name = String::from_str(alloc, name)?;
    Ok(Blame { action, name })
}

impl Folder for MemFolder {
    ghost held = { λ s. Some (find_file s.entries) };

    ghost blamed = { λ s. s.blamed };

    ghost faults = { λ s. s.faults };

    fn read_file(&mut self, alloc: Global, name: &str, limit: usize) -> Result<Vec<u8>, ReadStop>
        ensures held { Some (find_file self.new.entries) ≡ Some (find_file self.old.entries) }
        ensures bound { IfOk result (λ bytes. vec_len bytes ≤ limit) }
        ensures bytes { ReadsFile (find_file self.old.entries name.now) limit result }
        ensures cause { ReadFileCause (Read, name.now) self.old.blamed self.new.blamed self.old.faults self.new.faults result }
        ensures calls { self.new.calls ≡ min (self.old.calls + 1) (2 ^ 64 - 1) }
        ensures fails { self.new.fails ≡ self.old.fails }
        ensures listed { IsErrOf result ReadStop.ReadFault → Contains self.old.fails self.old.calls ⊎ (find_file self.old.entries name.now ≡ None) }
        ensures refused { OnOk result (¬ Contains self.old.fails self.old.calls) }
        ensures too_large { IsErrOf result ReadStop.TooLarge → ¬ Contains self.old.fails self.old.calls }
    {
        let number = self.calls;
        self.calls = number.saturating_add(1);
        let blame = match blame_of(self.alloc, Action::Read, name) {
            Ok(blame) => blame,
            Err(error) => return Err(ReadStop::Memory(error)),
        };
        if self.fails.contains(&number) {
            self.faults = self.faults.saturating_add(1);
            self.blame = Some(blame);
            return Err(ReadStop::ReadFault);
        }
        match find(&self.entries, name) {
            Some(bytes) => {
                if bytes.len() > limit {
                    return Err(ReadStop::TooLarge);
                }
                match bytes.to_vec(alloc) {
                    Ok(bytes) => Ok(bytes),
                    Err(error) => Err(ReadStop::Memory(error)),
                }
            }
            None => {
                self.faults = self.faults.saturating_add(1);
                self.blame = Some(blame);
                Err(ReadStop::ReadFault)
            }
        }
    }

    fn write_file(&mut self, name: &str, bytes: &[u8]) -> Result<(), WriteStop>
        ensures bytes { WritesFile name.now bytes.now (Some (find_file self.old.entries)) (Some (find_file self.new.entries)) result }
        ensures cause { WriteFileCause (Write, name.now) self.old.blamed self.new.blamed self.old.faults self.new.faults result }
        ensures calls { self.new.calls ≡ min (self.old.calls + 1) (2 ^ 64 - 1) }
        ensures fails { self.new.fails ≡ self.old.fails }
        ensures listed { IsErrOf result WriteStop.WriteFault → Contains self.old.fails self.old.calls }
        ensures refused { OnOk result (¬ Contains self.old.fails self.old.calls) }
    {
        let number = self.calls;
        self.calls = number.saturating_add(1);
        let blame = match blame_of(self.alloc, Action::Write, name) {
            Ok(blame) => blame,
            Err(error) => return Err(WriteStop::Memory(error)),
        };
        if self.fails.contains(&number) {
            self.faults = self.faults.saturating_add(1);
            self.blame = Some(blame);
            return Err(WriteStop::WriteFault);
        }
        let entry = match entry_of(self.alloc, name, bytes) {
            Ok(entry) => entry,
            Err(error) => return Err(WriteStop::Memory(error)),
        };
        match put_first(&mut self.entries, entry) {
            Ok(()) => Ok(()),
            Err(error) => Err(WriteStop::Memory(error)),
        }
    }
}
