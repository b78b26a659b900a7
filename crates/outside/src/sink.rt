//! The outside as a place that takes bytes: the trait, and how its one call fails.

ghost use Rattle.outside.specs.Sink.{SinkState, Puts};

/// Not all bytes were written.
#[derive(Debug, Clone, Copy, PartialEq, Eq)]
pub struct PutFailed;

/// A place that takes bytes, whose faults are counted in a `u64` that never falls and stays at its greatest value.
pub trait Sink {
    ghost state: { Self → SinkState };

    /// Writes the bytes. After a failure a prefix of them was written.
    fn put(&mut self, bytes: &[u8]) -> Result<(), PutFailed>
        ensures { Puts bytes.now (state self.old) (state self.new) result };
}
