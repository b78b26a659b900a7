//! The host's function of a stub as the stub's code calls it: by its index, with the number of its operands and results.

/// The host's function of a stub: its index in the module, how many operands it takes, and whether it gives one.
#[derive(Clone, Copy, PartialEq, Eq, Debug)]
pub struct HostCall {
    pub function: u32,
    pub params: u32,
    pub gives: bool,
}
