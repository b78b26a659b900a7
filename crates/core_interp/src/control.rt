//! What is in progress, and where an instruction leads.

/// A block, a loop or a call in progress. Of a block or a loop: the place to which a branch leads, and the operands that it keeps.
#[derive(Clone, Copy)]
pub enum Control {
    Label {
        to: usize,
        arity: usize,
        height: usize,
    },
    Called {
        function: u32,
        to: usize,
        results: usize,
    },
    Entry {
        results: usize,
    },
}

/// Where an instruction leads.
#[derive(Clone, Copy)]
pub enum Flow {
    On,
    Ended(usize),
    Failed,
    Asking(u32),
    Exhausted,
    Deep,
}
