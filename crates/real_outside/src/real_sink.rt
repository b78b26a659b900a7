//! Standard output, or any other writer, as a `Sink`, with its faults counted.

ghost use Rattle.std.specs.Prelude.{◌≡◌, ◌≤◌};
ghost use Rattle.outside.specs.Fault.{Rose};

use outside::{PutFailed, Sink};
use std::io::Write;

/// A count of faults, which stays at its greatest value.
pub fn one_more(faults: u64) -> u64
    ensures rose { Rose faults result }
    ensures later { faults ≤ result }
{
    faults.saturating_add(1)
}

/// Standard output, with its faults counted. What is put may wait in the writer until `finish`.
#[derive(Drop)]
pub struct RealSink<W> {
    writer: W,
    faults: u64,
}

impl<W: Write> RealSink<W> {
    /// What this writer takes, with no fault counted yet.
    pub fn new(writer: W) -> RealSink<W> {
        RealSink { writer, faults: 0 }
    }

    /// Writes what still waits, and fails where the writer's `flush` does. It counts no fault.
    pub fn finish(&mut self) -> Result<(), PutFailed> {
        match self.writer.flush() {
            Ok(()) => Ok(()),
            Err(_) => Err(PutFailed),
        }
    }
}

impl<W: Write> Sink for RealSink<W> {
    ghost use Rattle.real_outside.specs.Real.{untold_sink};

    ghost state = { λ s. untold_sink s.faults };

    fn put(&mut self, bytes: &[u8]) -> Result<(), PutFailed> {
        match self.writer.write_all(bytes) {
            Ok(()) => Ok(()),
            Err(_) => {
                self.faults = one_more(self.faults);
                Err(PutFailed)
            }
        }
    }
}
