// Why a call stops.
use std::alloc::AllocError;
use thiserror::Error;

/// Why a call gives no value: a fault of what it was given, or want of memory.
#[derive(Drop, Debug)]
pub enum Stop<E> {
    /// What was given isn't allowed.
    Fault(E),
    /// The allocator gave no memory.
    Memory(AllocError),
}

/// Why bytes are no text.
#[derive(Clone, Copy, PartialEq, Eq, Drop, Debug, Error)]
pub enum TextFault {
    /// The bytes aren't UTF-8: `at` bytes stand before the first wrong sequence.
    #[error("NotUtf8 at {at}")]
    NotUtf8 { at: usize },
}
