//! Readers of instructions, of which `ops` reads those that go on to the next; of expressions up to their end; and of constant
//! expressions (core WebAssembly, Binary Format, "Instructions").

ghost use Rattle.std.specs.Prelude.{◌≡◌, ◌<◌, OnOk};
ghost use Rattle.virt_base.specs.Place.{place};
ghost use Rattle.wasm_format.specs.Format.{Format};
ghost use Rattle.wasm_format.specs.Reads.{Reads, ReadsAs};
ghost use Rattle.wasm_ast.specs.Instructions.{branch_table, control, instr_of, instr};
ghost use Rattle.wasm_ast.specs.Expressions.{nested, expr, after_instr};

use crate::nesting::Nesting;
use crate::ops::op_of;
use crate::select_lists::SelectLists;
use crate::types::{BlockTypeReader, CoreTypeReader, lacks};
use std::alloc::Global;
use virt_base::{Cursor, NoMemory, next_byte};
use wasm_ast::{Boxed, BranchTable, ConstExpr, Few, Instr, Instrs, Op};
use wasm_format::{Reader, S64, Stop, U32, Vecs, Walk, read_until};

/// The labels of a `br_table`. No memory is reserved by their count.
#[derive(Clone, Copy)]
struct BranchTableReader;

impl Reader for BranchTableReader {
    type Value = BranchTable;

    ghost format = { λ _. branch_table };

    #[tactic(auto, unfolding(wasm_ast::specs::Instructions::branch_table))]
    fn read(&self, alloc: Global, c: &mut Cursor<'_>) -> Result<BranchTable, Stop> {
        let labels = Few::new(alloc, Vecs(U32).read(alloc, c)?)?;
        let default = U32.read(alloc, c)?;
        Ok(BranchTable { labels, default })
    }
}

fn branch(alloc: Global, c: &mut Cursor<'_>) -> Result<Boxed<BranchTable>, Stop>
    ensures input { c.new.bytes ≡ c.old.bytes }
    ensures value { ReadsAs (λ t. t.value) result c.new (branch_table.read (place c.old)) }
{
    let table = BranchTableReader.read(alloc, c)?;
    Ok(Boxed::new(alloc, table)?)
}

/// The instruction of an opcode up to 11 that was taken.
#[tactic(auto, unfolding(wasm_ast::specs::Instructions::control))]
fn control(alloc: Global, c: &mut Cursor<'_>, byte: u8) -> Result<Instr, Stop>
    requires { 0 < c.old.at }
    ensures input { c.new.bytes ≡ c.old.bytes }
    ensures value { Reads result c.new ((control byte).read (place c.old)) }
{
    match byte {
        0x00 => Ok(Instr::Unreachable),
        0x01 => Ok(Instr::Plain(Op::Nop)),
        0x02 => Ok(Instr::Block(BlockTypeReader.read(alloc, c)?)),
        0x03 => Ok(Instr::Loop(BlockTypeReader.read(alloc, c)?)),
        0x04 => Ok(Instr::If(BlockTypeReader.read(alloc, c)?)),
        0x0B => Ok(Instr::End),
        0x0C => Ok(Instr::Br(U32.read(alloc, c)?)),
        0x0D => Ok(Instr::BrIf(U32.read(alloc, c)?)),
        0x0E => Ok(Instr::BrTable(branch(alloc, c)?)),
        0x0F => Ok(Instr::Return),
        0x10 => Ok(Instr::Call(U32.read(alloc, c)?)),
        0x11 => {
            let ty = U32.read(alloc, c)?;
            let table = U32.read(alloc, c)?;
            Ok(Instr::CallIndirect { ty, table })
        }
        _ => Err(lacks(c, byte)),
    }
}

/// The instruction of an opcode that was taken, and is not that of `else`.
#[tactic(auto, unfolding(wasm_ast::specs::Instructions::instr_of))]
fn instr_of(
    selects: &SelectLists,
    alloc: Global,
    c: &mut Cursor<'_>,
    byte: u8,
) -> Result<Instr, Stop>
    requires { 0 < c.old.at }
    ensures input { c.new.bytes ≡ c.old.bytes }
    ensures value { Reads result c.new ((instr_of byte).read (place c.old)) }
{
    if byte < 0x12 {
        return control(alloc, c, byte);
    }
    match byte {
        0x1C => {
            let types = Vecs(CoreTypeReader).read(alloc, c)?;
            Ok(Instr::SelectTyped(selects.of(alloc, types)?))
        }
        0x42 => Ok(Instr::I64Const(S64.read(alloc, c)?)),
        _ => Ok(Instr::Plain(op_of(alloc, c, byte)?)),
    }
}

#[tactic(auto, unfolding(wasm_ast::specs::Instructions::instr))]
fn read_instr(
    selects: &SelectLists,
    alloc: Global,
    c: &mut Cursor<'_>,
    may_else: bool,
) -> Result<Instr, Stop>
    ensures input { c.new.bytes ≡ c.old.bytes }
    ensures value { Reads result c.new ((instr may_else).read (place c.old)) }
{
    match next_byte(c) {
        None => Err(Stop::Malformed),
        Some(0x05) => {
            if may_else {
                Ok(Instr::Else)
            } else {
                Err(Stop::Malformed)
            }
        }
        Some(byte) => instr_of(selects, alloc, c, byte),
    }
}

impl<'a> Walk for Nesting<'a> {
    type Item = Instr;

    ghost sections = { nested };

    #[tactic(auto, unfolding(wasm_ast::specs::Expressions::nested))]
    fn read_item(&self, alloc: Global, c: &mut Cursor<'_>) -> Result<Instr, Stop> {
        read_instr(self.selects, alloc, c, self.may_else())
    }

    #[tactic(auto, unfolding(wasm_ast::specs::Expressions::nested))]
    fn step(&mut self, item: &Instr) -> Result<(), NoMemory> {
        match item {
            Instr::Block(_) | Instr::Loop(_) => self.open(false),
            Instr::If(_) => self.open(true),
            Instr::Else => {
                self.close();
                self.open(false)
            }
            Instr::End => {
                self.close();
                Ok(())
            }
            Instr::Plain(_)
            | Instr::I64Const(_)
            | Instr::SelectTyped(_)
            | Instr::Unreachable
            | Instr::Br(_)
            | Instr::BrIf(_)
            | Instr::BrTable(_)
            | Instr::Return
            | Instr::Call(_)
            | Instr::CallIndirect { .. } => Ok(()),
        }
    }

    #[tactic(auto, unfolding(wasm_ast::specs::Expressions::nested))]
    fn is_over(&self) -> bool {
        Nesting::is_over(self)
    }
}

/// Expressions, up to the instruction that closes them.
#[derive(Clone, Copy)]
pub struct ExprReader<'a>(pub &'a SelectLists);

impl<'a> Reader for ExprReader<'a> {
    type Value = Instrs;

    ghost format = { λ _. expr };

    #[tactic(auto, unfolding(wasm_ast::specs::Expressions::expr))]
    fn read(&self, alloc: Global, c: &mut Cursor<'_>) -> Result<Instrs, Stop> {
        read_until(alloc, c, Nesting::start(alloc, self.0))
    }
}

/// Constant expressions.
#[derive(Clone, Copy)]
pub struct ConstExprReader<'a>(pub &'a SelectLists);

impl<'a> Reader for ConstExprReader<'a> {
    type Value = ConstExpr;

    ghost format = { λ _. expr };

    fn read(&self, alloc: Global, c: &mut Cursor<'_>) -> Result<ConstExpr, Stop> {
        let code = ExprReader(self.0).read(alloc, c)?;
        Ok(ConstExpr::new(alloc, code)?)
    }
}
