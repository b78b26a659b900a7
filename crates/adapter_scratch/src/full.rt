//! How a row ends where the quota has no room for what is written.

use adapter_fs::shared::CLOSED;
use adapter_pass::{Frame, Routine, fs_code};

/// How a row ends where the quota has no room.
#[derive(Clone, Copy, PartialEq, Eq, Debug)]
pub enum Full {
    /// Of a descriptor, by an error code.
    Insufficient,
    /// Of a stream, which is closed.
    Closed,
}

impl Full {
    /// The answer.
    pub fn answer(self, f: &Frame) -> Routine {
        match self {
            Full::Insufficient => f.err(fs_code::INSUFFICIENT_SPACE),
            Full::Closed => f.err(CLOSED),
        }
    }
}
