//! A sink in memory, whose listed calls fail, and which takes no more bytes than it has room for.

ghost use Rattle.std.specs.Prelude.{◌≡◌, [], max, OnOk, OnErr};
ghost use Rattle.outside.specs.Failing.{from_start};
ghost use Rattle.outside.specs.MemSink.{sink_state, MemPuts};
ghost use Rattle.outside.specs.Sink.{Puts};

use crate::buffer::Buffer;
use crate::failing::{Failing, Places};
use crate::sink::{PutFailed, Sink};
use std::alloc::Global;
use std::marker::Model;
use virt_base::NoMemory;

/// A sink in memory, of whose calls some are to fail. It takes bytes only where room was made.
#[derive(Drop)]
pub struct MemSink {
    held: Buffer,
    calls: Failing,
}

impl Model for MemSink {
    ghost use Rattle.outside.specs.MemSink.{MemSinkState};

    ghost Value = { MemSinkState };

    ghost view = { λ m. record { calls = m.calls; held = m.held } };
}

impl MemSink {
    /// No bytes and no room; the calls of these numbers fail. Takes no memory.
    pub fn new(alloc: Global, failing: Places) -> MemSink
        ensures { result ≡ record { calls = from_start failing; held = record { bytes = []; room = 0 } } }
    {
        MemSink {
            held: Buffer::new(alloc),
            calls: Failing::new(failing),
        }
    }

    /// Makes room for that many bytes in all. Where memory runs out nothing changes.
    pub fn reserve(&mut self, _alloc: Global, bytes: usize) -> Result<(), NoMemory>
        ensures ok { OnOk result (self.new ≡ record self.old { held = record self.old.held { room = max self.old.held.room bytes } }) }
        ensures err { OnErr result (self.new ≡ self.old) }
    {
        self.held.reserve(bytes)
    }

    /// The bytes written so far.
    pub fn bytes(&self) -> &[u8]
        ensures { result.now ≡ self.now.held.bytes }
    {
        self.held.as_slice()
    }

    /// How many calls failed.
    pub fn faults(&self) -> u64
        ensures { result ≡ self.now.calls.faults }
    {
        self.calls.faults()
    }

    fn put_what_fits(&mut self, bytes: &[u8]) -> Result<(), PutFailed>
        ensures { MemPuts bytes.now self.old self.new result }
    {
        let listed = self.calls.is_due();
        if !listed && self.held.append(bytes) {
            return Ok(());
        }
        self.calls.count_fault();
        Err(PutFailed)
    }
}

impl Sink for MemSink {
    ghost state = { sink_state };

    /// Fails exactly where the call is listed, which writes nothing, or the bytes pass the room, where what fits is written.
    fn put(&mut self, bytes: &[u8]) -> Result<(), PutFailed>
        ensures exact { MemPuts bytes.now self.old self.new result }
        ensures means { Puts bytes.now (sink_state self.old) (sink_state self.new) result }
    {
        self.put_what_fits(bytes)
    }
}
