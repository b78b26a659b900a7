//! Statements by short names, beside those of `adapter_code`.

ghost use Rattle.std.specs.Prelude.{◌≡◌};
ghost use Rattle.adapter_code.specs.declared.statement.Statement.{Move, Int, Leave, NewHandle, DropHandle, Trap, Answer};
ghost use Rattle.adapter_code.specs.declared.statement.IntOp.TheVariants.{Eq, Ne, LeU, And, Or, Xor, Shl, ShrU};

use adapter_code::{IntOp, Statement};

/// Copies the low bits of a local, with zeros above.
pub fn copy(to: u32, from: u32) -> Statement
    ensures { result ≡ Move to from }
{
    Statement::Move { to, from }
}

/// Sets a local of 32 bits to 1 where two numbers are equal, and else to 0.
pub fn equal(to: u32, a: u32, b: u32) -> Statement
    ensures { result ≡ Int Eq to a b }
{
    let op = IntOp::Eq;
    Statement::Int { op, to, a, b }
}

/// Sets a local of 32 bits to 1 where two numbers differ, and else to 0.
pub fn differ(to: u32, a: u32, b: u32) -> Statement
    ensures { result ≡ Int Ne to a b }
{
    let op = IntOp::Ne;
    Statement::Int { op, to, a, b }
}

/// Sets a local of 32 bits to 1 where the first number is at most the second, and else to 0.
pub fn at_most(to: u32, a: u32, b: u32) -> Statement
    ensures { result ≡ Int LeU to a b }
{
    let op = IntOp::LeU;
    Statement::Int { op, to, a, b }
}

/// Sets a local to the bits that two numbers both have.
pub fn both_bits(to: u32, a: u32, b: u32) -> Statement
    ensures { result ≡ Int And to a b }
{
    let op = IntOp::And;
    Statement::Int { op, to, a, b }
}

/// Sets a local to the bits that one of two numbers has.
pub fn either_bits(to: u32, a: u32, b: u32) -> Statement
    ensures { result ≡ Int Or to a b }
{
    let op = IntOp::Or;
    Statement::Int { op, to, a, b }
}

/// Sets a local to the bits in which two numbers differ.
pub fn other_bits(to: u32, a: u32, b: u32) -> Statement
    ensures { result ≡ Int Xor to a b }
{
    let op = IntOp::Xor;
    Statement::Int { op, to, a, b }
}

/// Sets a local to a number that is shifted to the left by the second, modulo the width.
pub fn shift_left(to: u32, a: u32, b: u32) -> Statement
    ensures { result ≡ Int Shl to a b }
{
    let op = IntOp::Shl;
    Statement::Int { op, to, a, b }
}

/// Sets a local to a number that is shifted to the right by the second, modulo the width.
pub fn shift_right(to: u32, a: u32, b: u32) -> Statement
    ensures { result ≡ Int ShrU to a b }
{
    let op = IntOp::ShrU;
    Statement::Int { op, to, a, b }
}

/// Goes after the innermost repeat of a name.
pub fn leave(name: u32) -> Statement
    ensures { result ≡ Leave name }
{
    Statement::Leave { name }
}

/// Makes a handle of the adapter's resource of a kind, for a place, and puts its index into a local.
pub fn make_handle(kind: u8, rep: u32, to: u32) -> Statement
    ensures { result ≡ NewHandle kind rep to }
{
    Statement::NewHandle { kind, rep, to }
}

/// Drops a handle of the host's resource of a kind.
pub fn drop_handle(kind: u8, index: u32) -> Statement
    ensures { result ≡ DropHandle kind index }
{
    Statement::DropHandle { kind, index }
}

pub fn trap() -> Statement
    ensures { result ≡ Trap }
{
    Statement::Trap
}

pub fn answer() -> Statement
    ensures { result ≡ Answer }
{
    Statement::Answer
}
