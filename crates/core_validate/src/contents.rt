//! The items with code: globals, segments and bodies.

ghost use Rattle.std.specs.Prelude.{◌≡◌, ℕ, List, [], length, map, Some, None, IfOk, OnOk, slice_get};
ghost use Rattle.std.specs.Option.{option_and_then, option_to_list, option_copied};
ghost use Rattle.core_body.specs.Conditions.{least, FunctionAt, TableAt, MemoryAt};
ghost use Rattle.core_body.specs.Views.{context_at};
ghost use Rattle.core_validate.specs.Faults.{fault, first_fault, parts_fault, fit_fault};
ghost use Rattle.core_validate.specs.Items.{AGlobal, Segment, ABody, DataSegment, fits_table, expressions, offset_parts, body_type, plain_items};
ghost use Rattle.core_validate.specs.Gather.{with_earlier};

use crate::collect::element_type;
use crate::items::unless_below;
use crate::segments::{data_offset, exprs_of, indexes_of, memory_of, offset_in, table_of};
use core_body::{Spaces, check_body, check_expression, lesser, same_ref, value_of};
use std::alloc::Global as Heap;
use virt_base::{CoreType, NoMemory};
use wasm_ast::{Body, ConstExpr, Data, Elements, Global, Module, RefType};

fn global_fault(alloc: Heap, spaces: &Spaces<'_>, global: &Global) -> Result<Option<u32>, NoMemory>
    ensures { IfOk result (λ rule. rule ≡ fault (context_at spaces.now) (AGlobal global.now)) }
{
    let code = global.init.code();
    let rule = check_expression(alloc, spaces, global.ty.value, code.as_slice())?;
    Ok(rule)
}

pub fn globals_fault(
    alloc: Heap,
    spaces: &Spaces<'_>,
    globals: &[Global],
) -> Result<Option<u32>, NoMemory>
    ensures { IfOk result (λ rule. rule ≡ first_fault (context_at spaces.now) (plain_items AGlobal globals.now)) }
{
    for global in globals {
        let rule = global_fault(alloc, spaces, global)?;
        if rule.is_some() {
            return Ok(rule);
        }
    }
    Ok(None)
}

/// The rule on functions, where one of the indexes is not there.
fn each_function(spaces: &Spaces<'_>, ns: &[u32]) -> Option<u32>
    ensures { result ≡ least (context_at spaces.now) (map FunctionAt ns.now) }
{
    for n in ns {
        if *n as usize >= spaces.functions.len() {
            return Some(2);
        }
    }
    None
}

fn table_there(spaces: &Spaces<'_>, table: Option<u32>) -> Option<u32>
    ensures { result ≡ least (context_at spaces.now) (map TableAt (option_to_list table)) }
{
    match table {
        Some(n) => unless_below(n, spaces.tables.len(), 3),
        None => None,
    }
}

fn memory_there(spaces: &Spaces<'_>, memory: Option<u32>) -> Option<u32>
    ensures { result ≡ least (context_at spaces.now) (map MemoryAt (option_to_list memory)) }
{
    match memory {
        Some(n) => unless_below(n, spaces.memories, 4),
        None => None,
    }
}

/// The rule on types, where the table that a segment fills is of another type than its elements.
fn fit(spaces: &Spaces<'_>, table: Option<u32>, ty: RefType) -> Option<u32>
    ensures { result ≡ fit_fault (fits_table (option_and_then (λ n. slice_get spaces.now.tables.now n) table) ty) }
{
    let Some(n) = table else {
        return None;
    };
    match spaces.tables.get(n as usize) {
        Some(table) => if same_ref(table.element, ty) {
            None
        } else {
            Some(7)
        },
        None => None,
    }
}

fn offset_fault(
    alloc: Heap,
    spaces: &Spaces<'_>,
    offset: Option<&ConstExpr>,
) -> Result<Option<u32>, NoMemory>
    ensures { IfOk result (λ rule. rule ≡ parts_fault (offset_parts (context_at spaces.now) (option_copied offset.entry))) }
{
    match offset {
        Some(expr) => {
            let code = expr.code();
            check_expression(alloc, spaces, CoreType::I32, code.as_slice())
        }
        None => Ok(None),
    }
}

fn exprs_fault(
    alloc: Heap,
    spaces: &Spaces<'_>,
    ty: RefType,
    exprs: &[ConstExpr],
) -> Result<Option<u32>, NoMemory>
    ensures { IfOk result (λ rule. rule ≡ parts_fault (expressions (context_at spaces.now) ty exprs.now)) }
{
    let mut rule = None;
    for expr in exprs {
        let code = expr.code();
        let own = check_expression(alloc, spaces, value_of(ty), code.as_slice())?;
        rule = lesser(rule, own);
    }
    Ok(rule)
}

fn segment_fault(
    alloc: Heap,
    spaces: &Spaces<'_>,
    elements: &Elements,
) -> Result<Option<u32>, NoMemory>
    ensures { IfOk result (λ rule. rule ≡ fault (context_at spaces.now) (Segment elements.now)) }
{
    let table = table_of(elements);
    let ty = element_type(elements);
    let own = lesser(
        table_there(spaces, table),
        each_function(spaces, indexes_of(elements)),
    );
    let offset = offset_fault(alloc, spaces, offset_in(elements))?;
    let exprs = exprs_fault(alloc, spaces, ty, exprs_of(elements))?;
    Ok(lesser(own, lesser(fit(spaces, table, ty), lesser(offset, exprs))))
}

pub fn segments_fault(
    alloc: Heap,
    spaces: &Spaces<'_>,
    segments: &[Elements],
) -> Result<Option<u32>, NoMemory>
    ensures { IfOk result (λ rule. rule ≡ first_fault (context_at spaces.now) (plain_items Segment segments.now)) }
{
    for elements in segments {
        let rule = segment_fault(alloc, spaces, elements)?;
        if rule.is_some() {
            return Ok(rule);
        }
    }
    Ok(None)
}

fn data_fault(alloc: Heap, spaces: &Spaces<'_>, segment: &Data) -> Result<Option<u32>, NoMemory>
    ensures { IfOk result (λ rule. rule ≡ fault (context_at spaces.now) (DataSegment segment.now)) }
{
    let offset = offset_fault(alloc, spaces, data_offset(segment))?;
    Ok(lesser(memory_there(spaces, memory_of(segment)), offset))
}

pub fn data_faults(
    alloc: Heap,
    spaces: &Spaces<'_>,
    segments: &[Data],
) -> Result<Option<u32>, NoMemory>
    ensures { IfOk result (λ rule. rule ≡ first_fault (context_at spaces.now) (plain_items DataSegment segments.now)) }
{
    for data in segments {
        let rule = data_fault(alloc, spaces, data)?;
        if rule.is_some() {
            return Ok(rule);
        }
    }
    Ok(None)
}

/// The body at a place, which is that of the function at the same place of the function section.
fn body_fault(
    alloc: Heap,
    spaces: &Spaces<'_>,
    core: &Module,
    place: usize,
    body: &Body,
) -> Result<Option<u32>, NoMemory>
    requires { spaces.now.types.now ≡ core.now.types }
    ensures { IfOk result (λ rule. rule ≡ fault (context_at spaces.now) (ABody (body_type core.now place) body.now)) }
{
    let ty = core.functions.as_slice().get(place).copied();
    check_body(alloc, spaces, ty, body)
}

/// The bodies, which are the module's.
pub fn bodies_fault(
    alloc: Heap,
    spaces: &Spaces<'_>,
    core: &Module,
    bodies: &[Body],
) -> Result<Option<u32>, NoMemory>
    requires { spaces.now.types.now ≡ core.now.types }
    ensures { IfOk result (λ rule. rule ≡ first_fault (context_at spaces.now) (with_earlier (λ before b. ABody (body_type core.now (length before)) b) [] bodies.now)) }
{
    for (place, body) in bodies.iter().enumerate() {
        let rule = body_fault(alloc, spaces, core, place, body)?;
        if rule.is_some() {
            return Ok(rule);
        }
    }
    Ok(None)
}
