//! How a list of statements ends, for those that run it: it goes on, a `Leave` is under way, or the routine is over.

use crate::state::CodeEnd;

/// How a list of statements ends.
#[derive(Clone, Copy, Debug)]
pub enum Flow {
    Next,
    Left(u32),
    Over(CodeEnd),
}
