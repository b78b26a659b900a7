//! The names of repeats that are left, each another one.

/// Of every repeat that is not left in the midst.
pub const LOOP: u32 = 0;

/// After it the piece of a file has room.
pub const PLACED: u32 = 1;

/// After it a share is small enough.
pub const HALVES: u32 = 2;

/// After it the search for a name has ended.
pub const SOUGHT: u32 = 3;

/// After it two names differ.
pub const COMPARED: u32 = 4;

/// After it a path has led somewhere, or nowhere.
pub const LED: u32 = 5;

/// After it the end of a part is found.
pub const PART: u32 = 6;

/// After it a part is taken.
pub const TAKEN: u32 = 7;
