//! Locals that a routine is free to use, of 32 and of 64 bits in turn.

/// Free locals, of 32 and of 64 bits in turn. Past the last number there is they are one local, and a routine that names it is not
/// well formed.
#[derive(Clone, Copy, Debug)]
pub struct Spare {
    pub first: u32,
}

impl Spare {
    /// A local of 32 bits.
    pub fn narrow(&self, i: u8) -> u32 {
        self.first.saturating_add(2 * i as u32)
    }

    /// A local of 64 bits.
    pub fn broad(&self, i: u8) -> u32 {
        self.first.saturating_add(2 * i as u32 + 1)
    }

    /// Those that are left where that many pairs are taken.
    pub fn after(&self, pairs: u8) -> Spare {
        Spare {
            first: self.first.saturating_add(2 * pairs as u32),
        }
    }
}
