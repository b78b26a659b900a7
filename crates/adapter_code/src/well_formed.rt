//! Whether a routine is well formed over locals of these widths, which its evaluator and its compiler ask for.

ghost use Rattle.std.specs.Prelude.{◌≡◌, ◌<◌, ◌↔◌, [], ◌∷◌, true, IfOk, OnOk, List, ℕ, length, slice_get};
ghost use Rattle.adapter_code.specs.declared.statement.Width.{Width};
ghost use Rattle.core_memory.specs.Number.{IsWidth};
ghost use Rattle.adapter_code.specs.Code.{Stop, before, code_of};
ghost use Rattle.adapter_code.specs.Number.{given_by as given_of};
ghost use Rattle.adapter_code.specs.Plain.{IsPlain};
ghost use Rattle.adapter_code.specs.WellFormed.{HasWidth, IsNamed, IsSize, IsFine, IsWellFormed};

use crate::statement::{IntOp, Statement, Width};
use std::alloc::Global;
use virt_base::NoMemory;

/// Whether a routine is well formed over locals of these widths: each local that it names is there with the width that the
/// statement needs, each `Leave` stands inside a `Repeat` that it names, and each width and kind is one that there is.
pub fn is_well_formed(
    alloc: Global,
    widths: &[Width],
    routine: &[Statement],
) -> Result<bool, NoMemory>
    ensures { IfOk result (λ fine. fine ≡ true ↔ IsWellFormed widths.now [] (code_of routine.now)) }
{
    let mut names = Vec::new(alloc);
    list_is_fine(widths, &mut names, routine)
}

#[cycle(is_well_formed)]
fn list_is_fine(
    widths: &[Width],
    names: &mut Vec<u32>,
    list: &[Statement],
) -> Result<bool, NoMemory>
    ensures fine { IfOk result (λ fine. fine ≡ true ↔ IsWellFormed widths.now names.old.items (code_of list.now)) }
    ensures same { OnOk result (names.new.items ≡ names.old.items) }
{
    for statement in list {
        if !one_is_fine(widths, names, statement)? {
            return Ok(false);
        }
    }
    Ok(true)
}

#[cycle(is_well_formed)]
fn one_is_fine(
    widths: &[Width],
    names: &mut Vec<u32>,
    statement: &Statement,
) -> Result<bool, NoMemory>
    ensures fine { IfOk result (λ fine. fine ≡ true ↔ IsWellFormed widths.now names.old.items (before statement.now Stop)) }
    ensures same { OnOk result (names.new.items ≡ names.old.items) }
{
    match statement {
        Statement::If { test, yes, no } => {
            if !has_width(widths, *test, Width::Narrow) {
                return Ok(false);
            }
            if !list_is_fine(widths, names, yes)? {
                return Ok(false);
            }
            list_is_fine(widths, names, no)
        }
        Statement::Repeat { name, count, body } => {
            if !has_width(widths, *count, Width::Narrow) {
                return Ok(false);
            }
            body_is_fine(widths, names, *name, body)
        }
        plain => Ok(plain_is_fine(widths, names, plain)),
    }
}

#[cycle(is_well_formed)]
fn body_is_fine(
    widths: &[Width],
    names: &mut Vec<u32>,
    name: u32,
    body: &[Statement],
) -> Result<bool, NoMemory>
    ensures fine { IfOk result (λ fine. fine ≡ true ↔ IsWellFormed widths.now (name ∷ names.old.items) (code_of body.now)) }
    ensures same { OnOk result (names.new.items ≡ names.old.items) }
{
    names.push(name)?;
    let fine = list_is_fine(widths, names, body)?;
    names.pop();
    Ok(fine)
}

fn plain_is_fine(widths: &[Width], names: &[u32], statement: &Statement) -> bool
    requires { IsPlain statement.now }
    ensures { result ≡ true ↔ IsWellFormed widths.now names.now (before statement.now Stop) }
{
    let _statement = statement;
    match statement {
        Statement::Const { to, .. } => is_local(widths, *to),
        Statement::Move { to, from } => is_local(widths, *to) && is_local(widths, *from),
        Statement::Int { op, to, a, b } => match width_of(widths, *a) {
            Some(width) => {
                has_width(widths, *b, width) && has_width(widths, *to, given_by(*op, width))
            }
            None => false,
        },
        Statement::Load { to, at, width, .. } => {
            has_width(widths, *at, Width::Narrow) && has_size(widths, *to, *width)
        }
        Statement::Store {
            from,
            at,
            width,
            ..
        } => { has_width(widths, *at, Width::Narrow) && has_size(widths, *from, *width) }
        Statement::Leave { name } => is_named(*name, names),
        Statement::NewHandle { kind, rep, to } => {
            *kind < 14
                && has_width(widths, *rep, Width::Narrow)
                && has_width(widths, *to, Width::Narrow)
        }
        Statement::DropHandle { kind, index } => *kind < 14
            && has_width(widths, *index, Width::Narrow),
        Statement::Trap | Statement::Answer => true,
        Statement::If { .. } | Statement::Repeat { .. } => unreachable!(),
    }
}

fn is_local(widths: &[Width], local: u32) -> bool
    ensures { result ≡ true ↔ local < length widths.now }
{
    (local as usize) < widths.len()
}

fn width_of(widths: &[Width], local: u32) -> Option<Width>
    ensures { result ≡ slice_get widths.now local }
{
    if (local as usize) < widths.len() {
        Some(widths[local as usize])
    } else {
        None
    }
}

fn has_width(widths: &[Width], local: u32, width: Width) -> bool
    ensures { result ≡ true ↔ HasWidth widths.now local width }
{
    match width_of(widths, local) {
        Some(found) => found == width,
        None => false,
    }
}

// Whether a local is there and may be loaded or stored in that many bytes.
fn has_size(widths: &[Width], local: u32, size: u8) -> bool
    ensures { result ≡ true ↔ (w : Width) × HasWidth widths.now local w × IsSize w size }
{
    match width_of(widths, local) {
        Some(width) => is_size(width, size),
        None => false,
    }
}

fn is_size(width: Width, size: u8) -> bool
    ensures { result ≡ true ↔ IsSize width size }
{
    match width {
        Width::Narrow => size == 1 || size == 2 || size == 4,
        Width::Broad => size == 1 || size == 2 || size == 4 || size == 8,
    }
}

/// The width of an operator's result.
fn given_by(op: IntOp, width: Width) -> Width
    ensures { result ≡ given_of op width }
{
    match op {
        IntOp::Eq | IntOp::Ne | IntOp::LtU | IntOp::LeU => Width::Narrow,
        _ => width,
    }
}

fn is_named(name: u32, names: &[u32]) -> bool
    ensures { result ≡ true ↔ IsNamed name names.now }
{
    for other in names {
        if *other == name {
            return true;
        }
    }
    false
}
