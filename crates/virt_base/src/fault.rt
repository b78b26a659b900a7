//! Faults that many crates have in common: memory ran out, a trap, and why an application is refused.

use crate::text::Text;
use std::alloc::{AllocError, AllocFailed};

/// Memory ran out.
#[derive(Debug, Clone, Copy, PartialEq, Eq)]
pub struct NoMemory;

impl From<AllocError> for NoMemory {
    fn from(_: AllocError) -> NoMemory {
        NoMemory
    }
}

impl<T: Drop> From<AllocFailed<T>> for NoMemory {
    fn from(_: AllocFailed<T>) -> NoMemory {
        NoMemory
    }
}

/// The program that is run, or the component, did what its standard calls a trap.
#[derive(Debug, Clone, Copy, PartialEq, Eq)]
pub struct Trap;

/// Why an application is refused.
#[derive(Debug, Drop)]
pub enum AppFault {
    /// No component spells the bytes. That many of them, at the front, are one.
    Malformed(u64),
    /// The byte at this offset chooses a form that is not supported.
    Unsupported(u64, u8),
    /// This validity rule fails in the outermost section of this number, counted from 0.
    Invalid(u32, u32),
    /// An import of this name is none of the listed interfaces.
    Unlisted(Text),
    /// The import of this name wants another type than the listed interface has.
    WrongType(Text),
    /// The import of this name is a second version of an interface.
    TwoVersions(Text),
    /// The export of this name holds a resource or a handle.
    HandleExport(Text),
}
