//! How a routine answers.

use crate::fields::CASE;
use crate::frame::Frame;
use crate::routine::Routine;

impl Frame {
    /// The answer is the record at `at`.
    pub fn done(&self) -> Routine {
        self.routine().copy(self.result, self.at).answer()
    }

    /// A result with these fields in its payload, which a routine writes.
    pub fn ok_with(&self, fields: Routine) -> Routine {
        self.routine()
            .store_value(0, self.at, CASE, self.scratch)
            .part(fields)
            .part(self.done())
    }

    /// A result without payload.
    pub fn ok(&self) -> Routine {
        self.ok_with(self.routine())
    }

    /// The error with this code.
    pub fn err(&self, code: u64) -> Routine {
        self.routine()
            .store_value(1, self.at, CASE, self.scratch)
            .store_value(code, self.at, self.payload_field(0, 1), self.scratch)
            .part(self.done())
    }

    /// The error whose code stands in a local.
    pub fn err_in(&self, code: u32) -> Routine {
        self.routine()
            .store_value(1, self.at, CASE, self.scratch)
            .store(code, self.at, self.payload_field(0, 1))
            .part(self.done())
    }

    /// A flat answer that stands in a local.
    pub fn flat(&self, local: u32) -> Routine {
        self.routine().copy(self.result, local).answer()
    }

    /// This flat answer.
    pub fn flat_value(&self, value: u64) -> Routine {
        self.routine().constant(self.result, value).answer()
    }
}
