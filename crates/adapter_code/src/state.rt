//! What a routine works on.

use handle_space::HandleTable;

/// A local.
#[derive(Clone, Copy, PartialEq, Eq, Debug)]
pub enum Local {
    Small(u32),
    Wide(u64),
}

/// A list of locals.
pub type Locals = Vec<Local>;

/// A handle that was made or dropped: its kind, what it stands for, and its index.
#[derive(Clone, Copy, PartialEq, Eq, Debug)]
pub enum Effect {
    Made { kind: u8, rep: u32, index: u32 },
    Dropped { kind: u8, rep: u32, index: u32 },
}

/// A list of effects, in order.
pub type Effects = Vec<Effect>;

/// How a routine ends.
#[derive(Clone, Copy, PartialEq, Eq, Debug)]
pub enum CodeEnd {
    Answer,
    Trap,
}

/// The locals, the memory, the adapter's handle table, and the handles made and dropped so far.
#[derive(Drop)]
pub struct RowState {
    pub locals: Locals,
    pub memory: Vec<u8>,
    pub table: HandleTable,
    pub effects: Effects,
}
