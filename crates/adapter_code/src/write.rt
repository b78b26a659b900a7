//! Statements by short names, for those who write routines.

ghost use Rattle.std.specs.Prelude.{◌≡◌, IfOk, OnOk, map};
ghost use Rattle.adapter_code.specs.declared.statement.Statement.{Const, Int, Load, Store};
ghost use Rattle.adapter_code.specs.declared.statement.IntOp.TheVariants.{Add, Sub, Mul, LtU};
ghost use Rattle.adapter_code.specs.Code.{Code, Choose, Turns, before, code_of, followed_by};
ghost use Rattle.adapter_code.specs.Each.{each_code};
ghost use Rattle.adapter_code.specs.Run.{local_width};

use crate::state::Local;
use crate::statement::{IntOp, Statement, Statements, Width};
use std::alloc::Global;
use virt_base::NoMemory;

/// A number of 1, 2, 4 or 8 bytes at an offset from where a record begins.
#[derive(Clone, Copy, PartialEq, Eq, Debug)]
pub struct Field {
    pub offset: u32,
    pub width: u8,
}

/// Sets a local to a value.
pub fn constant(to: u32, value: u64) -> Statement
    ensures { result ≡ Const to value }
{
    Statement::Const { to, value }
}

/// Sets a local to a sum.
pub fn add(to: u32, a: u32, b: u32) -> Statement
    ensures { result ≡ Int Add to a b }
{
    let op = IntOp::Add;
    Statement::Int { op, to, a, b }
}

/// Sets a local to a difference.
pub fn subtract(to: u32, a: u32, b: u32) -> Statement
    ensures { result ≡ Int Sub to a b }
{
    let op = IntOp::Sub;
    Statement::Int { op, to, a, b }
}

/// Sets a local to a product.
pub fn multiply(to: u32, a: u32, b: u32) -> Statement
    ensures { result ≡ Int Mul to a b }
{
    let op = IntOp::Mul;
    Statement::Int { op, to, a, b }
}

/// Sets a local of 32 bits to 1 where the first number is less, and else to 0.
pub fn less(to: u32, a: u32, b: u32) -> Statement
    ensures { result ≡ Int LtU to a b }
{
    let op = IntOp::LtU;
    Statement::Int { op, to, a, b }
}

/// Reads a field of the record at a place.
pub fn load(to: u32, at: u32, field: Field) -> Statement
    ensures { result ≡ Load to at field.offset field.width }
{
    let Field { offset, width } = field;
    Statement::Load {
        to,
        at,
        offset,
        width,
    }
}

/// Writes a field of the record at a place.
pub fn store(from: u32, at: u32, field: Field) -> Statement
    ensures { result ≡ Store from at field.offset field.width }
{
    let Field { offset, width } = field;
    Statement::Store {
        from,
        at,
        offset,
        width,
    }
}

/// Runs the first list where a local is not 0, and else the second.
pub fn choose(test: u32, yes: Statements, no: Statements) -> Statement
    ensures { (rest : Code) → before result rest ≡ Choose test (code_of yes.items) (code_of no.items) rest }
{
    Statement::If { test, yes, no }
}

/// Runs a list as often as a local says.
pub fn repeat(name: u32, count: u32, body: Statements) -> Statement
    ensures { (rest : Code) → before result rest ≡ Turns name count (code_of body.items) rest }
{
    Statement::Repeat { name, count, body }
}

/// Puts one list after another.
pub fn append(list: &mut Statements, more: Statements) -> Result<(), NoMemory>
    ensures { OnOk result (code_of list.new.items ≡ followed_by (code_of list.old.items) (code_of more.items)) }
{
    for statement in more {
        list.push(statement)?;
    }
    Ok(())
}

/// A loop over a list in memory: the loop's name, and the locals of the number of elements, of the place of the next one, and
/// of a number that is lost. Elements stand that many bytes apart.
#[derive(Clone, Copy, Debug)]
pub struct Walk {
    pub name: u32,
    pub count: u32,
    pub at: u32,
    pub scratch: u32,
    pub step: u32,
}

/// Runs a list for each element of a list in memory.
pub fn each(alloc: Global, walk: Walk, body: Statements) -> Result<Statement, NoMemory>
    ensures { IfOk result (λ statement. (rest : Code) → before statement rest ≡ each_code walk (code_of body.items) rest) }
{
    let mut body = body;
    let onward = vec![in alloc;
        constant(walk.scratch, walk.step as u64),
        add(walk.at, walk.at, walk.scratch),
    ]?;
    append(&mut body, onward)?;
    Ok(repeat(walk.name, walk.count, body))
}

/// The widths of locals.
pub fn widths_of(alloc: Global, locals: &[Local]) -> Result<Vec<Width>, NoMemory>
    ensures { IfOk result (λ widths. widths.items ≡ map local_width locals.now) }
{
    let mut widths = Vec::new(alloc);
    for local in locals {
        widths.push(width_of(*local))?;
    }
    Ok(widths)
}

fn width_of(local: Local) -> Width
    ensures { result ≡ local_width local }
{
    match local {
        Local::Small(_) => Width::Narrow,
        Local::Wide(_) => Width::Broad,
    }
}
