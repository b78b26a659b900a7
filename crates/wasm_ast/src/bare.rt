//! The instructions of one byte that open and close nothing, as values of few bytes. Constant expressions are kept by them.

ghost use Rattle.std.specs.Prelude.{◌≡◌, IfSome};
ghost use Rattle.wasm_ast.specs.ConstExprs.{instr_of};

use crate::instr::{Instr, Op};
use crate::numeric::NumericOp;

/// An instruction of one byte, which opens and closes nothing.
#[derive(Debug, Clone, Copy)]
pub enum Bare {
    Unreachable,
    Return,
    Nop,
    Drop,
    Select,
    RefIsNull,
    Numeric(NumericOp),
}

fn bare_op(op: Op) -> Option<Bare>
    ensures { IfSome result (λ bare. instr_of bare ≡ Instr.Plain op) }
{
    match op {
        Op::Nop => Some(Bare::Nop),
        Op::Drop => Some(Bare::Drop),
        Op::Select => Some(Bare::Select),
        Op::RefIsNull => Some(Bare::RefIsNull),
        Op::Numeric(op) => Some(Bare::Numeric(op)),
        _ => None,
    }
}

impl Bare {
    /// The instruction, if it is one of these.
    pub fn of(instr: &Instr) -> Option<Bare>
        ensures { IfSome result (λ bare. instr_of bare ≡ instr.now) }
    {
        match instr {
            Instr::Unreachable => Some(Bare::Unreachable),
            Instr::Return => Some(Bare::Return),
            Instr::Plain(op) => bare_op(*op),
            _ => None,
        }
    }

    pub fn instr(self) -> Instr
        ensures { result ≡ instr_of self }
    {
        match self {
            Bare::Unreachable => Instr::Unreachable,
            Bare::Return => Instr::Return,
            Bare::Nop => Instr::Plain(Op::Nop),
            Bare::Drop => Instr::Plain(Op::Drop),
            Bare::Select => Instr::Plain(Op::Select),
            Bare::RefIsNull => Instr::Plain(Op::RefIsNull),
            Bare::Numeric(op) => Instr::Plain(Op::Numeric(op)),
        }
    }
}
