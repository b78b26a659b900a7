//! Lengths as numbers of 32 bits, of which the greatest stands for all above it.

/// A length as a number of 32 bits, or the greatest.
pub fn capped(len: usize) -> u32 {
    u32::try_from(len).unwrap_or(u32::MAX)
}
