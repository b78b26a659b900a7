//! The table language: statements over numbered locals and one byte memory.

/// The width of a local: 32 or 64 bits.
#[derive(Clone, Copy, PartialEq, Eq, Debug)]
pub enum Width {
    Narrow,
    Broad,
}

/// An operator on two numbers of one width. The first four compare without sign and give 0 or 1 of 32 bits, the others a
/// number of that width. A shift goes by the second number modulo the width.
#[derive(Clone, Copy, PartialEq, Eq, Debug)]
pub enum IntOp {
    Eq,
    Ne,
    LtU,
    LeU,
    Add,
    Sub,
    Mul,
    And,
    Or,
    Xor,
    Shl,
    ShrU,
}

/// A list of statements.
pub type Statements = Vec<Statement>;

/// One statement. Every field is the number of a local but `value`, `op`, `offset`, `width`, `kind`, `name` and the lists.
#[derive(Drop)]
pub enum Statement {
    /// Sets a local to the value, modulo its width.
    Const {
        to: u32,
        value: u64,
    },
    /// Copies the low bits, with zeros above.
    Move {
        to: u32,
        from: u32,
    },
    Int {
        op: IntOp,
        to: u32,
        a: u32,
        b: u32,
    },
    /// Reads 1, 2, 4 or 8 bytes, the lowest first, at the place in `at` plus the offset.
    Load {
        to: u32,
        at: u32,
        offset: u32,
        width: u8,
    },
    /// Writes the lowest 1, 2, 4 or 8 bytes of a local.
    Store {
        from: u32,
        at: u32,
        offset: u32,
        width: u8,
    },
    If {
        test: u32,
        yes: Statements,
        no: Statements,
    },
    /// Runs its body as often as the local says on entry.
    Repeat {
        name: u32,
        count: u32,
        body: Statements,
    },
    /// Goes after the innermost `Repeat` of this name around it.
    Leave {
        name: u32,
    },
    /// Makes a handle of the adapter's own resource of a kind, and puts its index into a local.
    NewHandle {
        kind: u8,
        rep: u32,
        to: u32,
    },
    /// Drops a handle of the host's resource of a kind.
    DropHandle {
        kind: u8,
        index: u32,
    },
    Trap,
    Answer,
}
