//! A handle that is lent for a call, as the call remembers it until the loan ends.

/// A handle that is lent for a call: its index, and its resource.
#[derive(Debug, Clone, Copy, PartialEq, Eq)]
pub struct Loan {
    pub index: u32,
    pub resource: u32,
}
