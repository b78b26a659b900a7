//! The names of repeats: of each the innermost is left.

/// A walk.
pub const WALK: u32 = 0;

/// The turns of a walk.
pub const TURNS: u32 = 1;

/// The bytes of a part.
pub const SCAN: u32 = 2;

/// A part that is taken.
pub const TAKEN: u32 = 3;

/// The halvings of a search.
pub const PROBES: u32 = 4;

/// A name that is compared.
pub const COMPARED: u32 = 5;

/// Its bytes.
pub const BYTES: u32 = 6;
