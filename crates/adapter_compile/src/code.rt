//! The code of a routine, statement by statement: a `Repeat` becomes a block with a loop in it.

ghost use Rattle.std.specs.Prelude.{◌≡◌, suc, ◌+◌, ◌<◌, ◌≤◌, ◌^◌, [], ◌∷◌, ◌++◌, None, Some, IfOk, OnOk, length, reverse};
ghost use Rattle.adapter_code.specs.Code.{Stop, before, code_of};
ghost use Rattle.adapter_code.specs.Plain.{IsPlain};
ghost use Rattle.adapter_code.specs.declared.statement.Statement.{Move, Load, Store};
ghost use Rattle.adapter_compile.specs.declared.calls.HandleCalls.{HandleCalls as HandleCodes};
ghost use Rattle.adapter_compile.specs.Instructions.{Labels, at_offset as at, get as get_of, set as set_of, tee as tee_of, call_at, call_of as call_code, conversion, statement_code, turns_begin, turns_end, turns_code, code_in, routine_code, width_in};
ghost use Rattle.adapter_compile.specs.Bounds.{brackets};

use crate::calls::HandleCalls;
use crate::labels::label_of;
use crate::numbers::{constant, load_of, numeric, operator, store_of};
use adapter_code::{Statement, Width};
use std::alloc::Global;
use virt_base::NoMemory;
use wasm_ast::{BlockType, Instr, MemArg, Op};

/// Puts the code of a routine after other code.
pub fn put_routine(
    alloc: Global,
    out: &mut Vec<Instr>,
    widths: &[Width],
    calls: &HandleCalls,
    routine: &[Statement],
) -> Result<(), NoMemory>
    requires { length widths.now + brackets (code_of routine.now) < 2 ^ 32 }
    ensures { OnOk result (out.new.items ≡ out.old.items ++ routine_code widths.now calls.now (code_of routine.now)) }
{
    let mut labels = Vec::new(alloc);
    put(out, Instr::Block(BlockType::Empty))?;
    put_list(out, widths, calls, &mut labels, 0, routine)?;
    put(out, Instr::End)
}

#[cycle(put_routine)]
fn put_list(
    out: &mut Vec<Instr>,
    widths: &[Width],
    calls: &HandleCalls,
    labels: &mut Vec<Option<u32>>,
    depth: u32,
    list: &[Statement],
) -> Result<(), NoMemory>
    requires room { length widths.now + (length labels.old.items + brackets (code_of list.now)) < 2 ^ 32 }
    requires inner { depth ≤ length labels.old.items }
    ensures code { OnOk result (out.new.items ≡ out.old.items ++ code_in widths.now calls.now (reverse labels.old.items) depth (code_of list.now)) }
    ensures labels { OnOk result (labels.new.items ≡ labels.old.items) }
{
    for statement in list {
        put_one(out, widths, calls, labels, depth, statement)?;
    }
    Ok(())
}

#[cycle(put_routine)]
fn put_one(
    out: &mut Vec<Instr>,
    widths: &[Width],
    calls: &HandleCalls,
    labels: &mut Vec<Option<u32>>,
    depth: u32,
    statement: &Statement,
) -> Result<(), NoMemory>
    requires room { length widths.now + (length labels.old.items + brackets (before statement.now Stop)) < 2 ^ 32 }
    requires inner { depth ≤ length labels.old.items }
    ensures code { OnOk result (out.new.items ≡ out.old.items ++ code_in widths.now calls.now (reverse labels.old.items) depth (before statement.now Stop)) }
    ensures labels { OnOk result (labels.new.items ≡ labels.old.items) }
{
    match statement {
        Statement::If { test, yes, no } => {
            put(out, get(*test))?;
            put(out, Instr::If(BlockType::Empty))?;
            labels.push(None)?;
            put_list(out, widths, calls, labels, depth, yes)?;
            put(out, Instr::Else)?;
            put_list(out, widths, calls, labels, depth, no)?;
            labels.pop();
            put(out, Instr::End)
        }
        Statement::Repeat { name, count, body } => {
            let counter = widths.len() as u32 + depth;
            begin_turns(out, *count, counter)?;
            labels.push(Some(*name))?;
            labels.push(None)?;
            put_list(out, widths, calls, labels, depth + 1, body)?;
            labels.pop();
            labels.pop();
            end_turns(out, counter)
        }
        plain => put_plain(out, widths, calls, labels, plain),
    }
}

// The block and the loop of a `Repeat` up to its body.
fn begin_turns(out: &mut Vec<Instr>, count: u32, counter: u32) -> Result<(), NoMemory>
    ensures { OnOk result (out.new.items ≡ out.old.items ++ turns_begin count counter) }
{
    put(out, Instr::Block(BlockType::Empty))?;
    put(out, get(count))?;
    put(out, tee(counter))?;
    put(out, numeric(0x45))?;
    put(out, Instr::BrIf(0))?;
    put(out, Instr::Loop(BlockType::Empty))
}

// The same after its body.
fn end_turns(out: &mut Vec<Instr>, counter: u32) -> Result<(), NoMemory>
    ensures { OnOk result (out.new.items ≡ out.old.items ++ turns_end counter) }
{
    put(out, get(counter))?;
    put(out, constant(Width::Narrow, 1))?;
    put(out, numeric(0x6B))?;
    put(out, tee(counter))?;
    put(out, Instr::BrIf(0))?;
    put(out, Instr::End)?;
    put(out, Instr::End)
}

// A statement that holds no others.
fn put_plain(
    out: &mut Vec<Instr>,
    widths: &[Width],
    calls: &HandleCalls,
    labels: &[Option<u32>],
    statement: &Statement,
) -> Result<(), NoMemory>
    requires plain { IsPlain statement.now }
    requires room { length labels.now < 2 ^ 32 }
    ensures { OnOk result (out.new.items ≡ out.old.items ++ statement_code widths.now calls.now (reverse labels.now) statement.now) }
{
    match statement {
        Statement::Const { to, value } => {
            put(out, constant(width_of(widths, *to), *value))?;
            put(out, set(*to))
        }
        Statement::Move { to, from } => put_move(out, widths, *to, *from),
        Statement::Int { op, to, a, b } => {
            put(out, get(*a))?;
            put(out, get(*b))?;
            put(out, operator(*op, width_of(widths, *a)))?;
            put(out, set(*to))
        }
        Statement::Load {
            to,
            at,
            offset,
            width,
        } => put_load(out, widths, *to, *at, *offset, *width),
        Statement::Store {
            from,
            at,
            offset,
            width,
        } => put_store(out, widths, *from, *at, *offset, *width),
        Statement::NewHandle { kind, rep, to } => {
            put(out, get(*rep))?;
            put(out, call_of(calls.makes.as_slice(), *kind))?;
            put(out, set(*to))
        }
        Statement::DropHandle { kind, index } => {
            put(out, get(*index))?;
            put(out, call_of(calls.drops.as_slice(), *kind))
        }
        Statement::Leave { name } => put(out, Instr::Br(label_of(labels, *name) as u32)),
        Statement::Answer => put(out, Instr::Br(labels.len() as u32)),
        Statement::Trap => put(out, Instr::Unreachable),
        Statement::If { .. } | Statement::Repeat { .. } => unreachable!(),
    }
}

// A copy of one local to another.
fn put_move(out: &mut Vec<Instr>, widths: &[Width], to: u32, from: u32) -> Result<(), NoMemory>
    ensures { (calls : HandleCodes) (labels : Labels) → OnOk result (out.new.items ≡ out.old.items ++ statement_code widths.now calls labels (Move to from)) }
{
    put(out, get(from))?;
    convert(out, width_of(widths, to), width_of(widths, from))?;
    put(out, set(to))
}

// A load into a local.
fn put_load(
    out: &mut Vec<Instr>,
    widths: &[Width],
    to: u32,
    at: u32,
    offset: u32,
    width: u8,
) -> Result<(), NoMemory>
    ensures { (calls : HandleCodes) (labels : Labels) → OnOk result (out.new.items ≡ out.old.items ++ statement_code widths.now calls labels (Load to at offset width)) }
{
    let load = load_of(width_of(widths, to), width);
    put(out, get(at))?;
    put(out, Instr::Plain(Op::Load(load, at_offset(offset))))?;
    put(out, set(to))
}

// A store of a local.
fn put_store(
    out: &mut Vec<Instr>,
    widths: &[Width],
    from: u32,
    at: u32,
    offset: u32,
    width: u8,
) -> Result<(), NoMemory>
    ensures { (calls : HandleCodes) (labels : Labels) → OnOk result (out.new.items ≡ out.old.items ++ statement_code widths.now calls labels (Store from at offset width)) }
{
    let store = store_of(width_of(widths, from), width);
    put(out, get(at))?;
    put(out, get(from))?;
    put(out, Instr::Plain(Op::Store(store, at_offset(offset))))
}

// The conversion of a number of one width to another.
fn convert(out: &mut Vec<Instr>, to: Width, from: Width) -> Result<(), NoMemory>
    ensures { OnOk result (out.new.items ≡ out.old.items ++ conversion to from) }
{
    match (to, from) {
        (Width::Narrow, Width::Broad) => put(out, numeric(0xA7)),
        (Width::Broad, Width::Narrow) => put(out, numeric(0xAD)),
        _ => Ok(()),
    }
}

// The call by which a handle of a kind is made or dropped.
fn call_of(functions: &[Option<u32>], kind: u8) -> Instr
    ensures { result ≡ call_code (call_at functions.now kind) }
{
    match functions.get(kind as usize) {
        Some(Some(function)) => Instr::Call(*function),
        _ => Instr::Unreachable,
    }
}

fn width_of(widths: &[Width], local: u32) -> Width
    ensures { result ≡ width_in widths.now local }
{
    match widths.get(local as usize) {
        Some(width) => *width,
        None => Width::Narrow,
    }
}

fn at_offset(offset: u32) -> MemArg
    ensures { result ≡ at offset }
{
    MemArg { align: 0, offset }
}

fn get(local: u32) -> Instr
    ensures { result ≡ get_of local }
{
    Instr::Plain(Op::LocalGet(local))
}

fn set(local: u32) -> Instr
    ensures { result ≡ set_of local }
{
    Instr::Plain(Op::LocalSet(local))
}

fn tee(local: u32) -> Instr
    ensures { result ≡ tee_of local }
{
    Instr::Plain(Op::LocalTee(local))
}

// One more instruction.
fn put(out: &mut Vec<Instr>, instr: Instr) -> Result<(), NoMemory>
    ensures { OnOk result (out.new.items ≡ out.old.items ++ instr ∷ []) }
{
    out.push(instr)?;
    Ok(())
}
