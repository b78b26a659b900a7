//! The control stack: a level for each construct that is open.

use crate::stack::Stack;
use wasm_ast::BlockType;

/// What a level is.
#[derive(Clone, Copy)]
pub enum Kind {
    Whole,
    Block(BlockType),
    Loop(BlockType),
    Then(BlockType),
    Otherwise(BlockType),
}

/// A level: where the operands of the one around it begin, and whether its code is dead.
#[derive(Clone, Copy)]
pub struct Frame {
    pub kind: Kind,
    pub dead: bool,
    pub height: usize,
}

/// Where a pass stands.
#[derive(Drop)]
pub struct Progress {
    pub stack: Stack,
    pub current: Frame,
    pub outer: Vec<Frame>,
}

/// What an instruction led to.
#[derive(Clone, Copy)]
pub enum Verdict {
    Goes,
    Over,
    Refused,
}
