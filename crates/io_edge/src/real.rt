// The standard streams. They tell the count of their faults, and no bytes: `std` doesn't say what they hold.
ghost use Rattle.std.specs.Prelude.{None};

use crate::edge::{Failed, Sink, Source, WriteStop};
use crate::stream::{read_from, write_to};
use std::io::{Stderr, Stdin, Stdout};

/// The standard input.
#[derive(Drop)]
pub struct StdIn {
    stream: Stdin,
    faults: u64,
}

impl StdIn {
    /// The standard input, with no fault so far.
    pub fn new(stream: Stdin) -> StdIn {
        StdIn { stream, faults: 0 }
    }
}

impl Source for StdIn {
    ghost left = { λ _. None };

    ghost faults = { λ s. s.faults };

    fn read(&mut self, buf: &mut [u8]) -> Result<usize, Failed> {
        read_from(&mut self.stream, &mut self.faults, buf)
    }
}

/// The standard output, without a buffer.
#[derive(Drop)]
pub struct StdOut {
    stream: Stdout,
    faults: u64,
}

impl StdOut {
    /// The standard output, with no fault so far.
    pub fn new(stream: Stdout) -> StdOut {
        StdOut { stream, faults: 0 }
    }
}

impl Sink for StdOut {
    ghost written = { λ _. None };

    ghost faults = { λ s. s.faults };

    fn write(&mut self, piece: &[u8]) -> Result<usize, WriteStop> {
        write_to(&mut self.stream, &mut self.faults, piece)
    }
}

/// The standard error, without a buffer.
#[derive(Drop)]
pub struct StdErr {
    stream: Stderr,
    faults: u64,
}

impl StdErr {
    /// The standard error, with no fault so far.
    pub fn new(stream: Stderr) -> StdErr {
        StdErr { stream, faults: 0 }
    }
}

impl Sink for StdErr {
    ghost written = { λ _. None };

    ghost faults = { λ s. s.faults };

    fn write(&mut self, piece: &[u8]) -> Result<usize, WriteStop> {
        write_to(&mut self.stream, &mut self.faults, piece)
    }
}

#[cfg(test)]
mod tests {
    use super::*;
    use crate::whole::read_all;
    use std::test::Fail;

    // The standard input of a test is empty.
    #[test]
    fn input_ends_at_its_first_zero(rt: HostRuntime) -> Result<(), Fail> {
        let mut input = StdIn::new(rt.stdin());
        assert_eq!(rt; input.faults, 0);
        let bytes = read_all(rt.alloc(), &mut input, 9)
            .ok()
            .ok_or("the input's end")?;
        assert_eq!(rt; (bytes.len(), input.faults), (0, 0));
        let mut buf = [0u8; 4];
        assert_eq!(rt; input.read(&mut buf).ok(), Some(0));
        assert_eq!(rt; input.faults, 0);
        Ok(())
    }
}
