//! Writers of instructions, of which `ops` writes those that go on to the next; of expressions with their end; and of constant
//! expressions (core WebAssembly, Binary Format, "Instructions").

ghost use Rattle.std.specs.Prelude.{◌≡◌, ◌++◌, ◌∷◌, true, OnOk};
ghost use Rattle.std.specs.List.{AllByRecursion};
ghost use Rattle.wasm_format.specs.Format.{Format, write_items};
ghost use Rattle.wasm_ast.specs.Instructions.{branch_table, instr};
ghost use Rattle.wasm_ast.specs.Expressions.{expr};

use crate::lists::{Fews, put_list};
use crate::ops::put_op;
use crate::types::{BlockTypeWriter, CoreTypeWriter};
use std::alloc::Global;
use virt_base::NoMemory;
use wasm_ast::{BranchTable, ConstExpr, Instr, Instrs};
use wasm_format::{S64, U32, Writer, put_byte};

/// The labels of a `br_table`.
#[derive(Clone, Copy)]
struct BranchTableWriter;

impl Writer for BranchTableWriter {
    type Value = BranchTable;

    ghost format = { λ _. branch_table };

    #[tactic(auto, unfolding(wasm_ast::specs::Instructions::branch_table))]
    fn write(&self, alloc: Global, out: &mut Vec<u8>, value: &BranchTable) -> Result<(), NoMemory> {
        Fews(U32).write(alloc, out, &value.labels)?;
        U32.write(alloc, out, &value.default)
    }
}

/// Instructions. The form of an `else` does not depend on where it stands.
#[derive(Clone, Copy)]
struct InstrWriter;

impl Writer for InstrWriter {
    type Value = Instr;

    ghost format = { λ _. instr true };

    #[tactic(auto, unfolding(wasm_ast::specs::Instructions::instr, wasm_ast::specs::Instructions::instr_of, wasm_ast::specs::Instructions::control), using(crate::proofs::Opcodes::plain_fits, crate::proofs::Opcodes::plain_written))]
    fn write(&self, alloc: Global, out: &mut Vec<u8>, value: &Instr) -> Result<(), NoMemory> {
        match value {
            Instr::Plain(op) => put_op(alloc, out, op),
            Instr::I64Const(number) => {
                put_byte(alloc, out, 0x42)?;
                S64.write(alloc, out, number)
            }
            Instr::SelectTyped(types) => {
                put_byte(alloc, out, 0x1C)?;
                put_list(&CoreTypeWriter, alloc, out, types.get().as_slice())
            }
            Instr::Unreachable => put_byte(alloc, out, 0x00),
            Instr::Block(ty) => {
                put_byte(alloc, out, 0x02)?;
                BlockTypeWriter.write(alloc, out, ty)
            }
            Instr::Loop(ty) => {
                put_byte(alloc, out, 0x03)?;
                BlockTypeWriter.write(alloc, out, ty)
            }
            Instr::If(ty) => {
                put_byte(alloc, out, 0x04)?;
                BlockTypeWriter.write(alloc, out, ty)
            }
            Instr::Else => put_byte(alloc, out, 0x05),
            Instr::End => put_byte(alloc, out, 0x0B),
            Instr::Br(label) => {
                put_byte(alloc, out, 0x0C)?;
                U32.write(alloc, out, label)
            }
            Instr::BrIf(label) => {
                put_byte(alloc, out, 0x0D)?;
                U32.write(alloc, out, label)
            }
            Instr::BrTable(table) => {
                put_byte(alloc, out, 0x0E)?;
                BranchTableWriter.write(alloc, out, table)
            }
            Instr::Return => put_byte(alloc, out, 0x0F),
            Instr::Call(function) => {
                put_byte(alloc, out, 0x10)?;
                U32.write(alloc, out, function)
            }
            Instr::CallIndirect { ty, table } => {
                put_byte(alloc, out, 0x11)?;
                U32.write(alloc, out, ty)?;
                U32.write(alloc, out, table)
            }
        }
    }
}

fn put_instrs(alloc: Global, out: &mut Vec<u8>, instrs: &[Instr]) -> Result<(), NoMemory>
    requires { AllByRecursion (instr true).Fits instrs.now }
    ensures { OnOk result (out.new.items ≡ out.old.items ++ write_items (instr true) instrs.now) }
{
    for instr in instrs {
        InstrWriter.write(alloc, out, instr)?;
    }
    Ok(())
}

/// Expressions, with the instruction that closes them.
#[derive(Clone, Copy)]
pub struct ExprWriter;

impl Writer for ExprWriter {
    type Value = Instrs;

    ghost format = { λ _. expr };

    #[tactic(auto, using(crate::proofs::Expressions::expr_fits, crate::proofs::Expressions::expr_written))]
    fn write(&self, alloc: Global, out: &mut Vec<u8>, value: &Instrs) -> Result<(), NoMemory> {
        put_instrs(alloc, out, value.as_slice())
    }
}

/// Constant expressions.
#[derive(Clone, Copy)]
pub struct ConstExprWriter;

impl Writer for ConstExprWriter {
    type Value = ConstExpr;

    ghost format = { λ _. expr };

    #[tactic(auto, using(crate::proofs::Expressions::expr_fits, crate::proofs::Expressions::expr_written))]
    fn write(&self, alloc: Global, out: &mut Vec<u8>, value: &ConstExpr) -> Result<(), NoMemory> {
        let code = value.code();
        put_instrs(alloc, out, code.as_slice())
    }
}
