//! What the state module is made for: the kinds of resources in its world, and which post-returns there are.

/// Whether the adapter's world has a kind of resource, and whether the host has it too.
#[derive(Clone, Copy, PartialEq, Eq, Debug)]
pub enum Presence {
    Absent,
    /// A kind of the adapter's alone.
    Own,
    Host,
}

/// The flat results that a post-return is there for: none, one of 32 bits, one of 64 bits.
#[derive(Clone, Copy, PartialEq, Eq, Debug)]
pub struct Posts {
    pub bare: bool,
    pub narrow: bool,
    pub broad: bool,
}
