//! The items without code: imports, functions, tables, memories, exports and the start function.

ghost use Rattle.std.specs.Prelude.{◌≡◌, ℕ, ◌==◌, ◌+◌, ◌&&◌, List, [], ◌∷◌, length, map, Some, None, IfOk, if◌then◌else◌, nat_lt, nat_le, not, true};
ghost use Rattle.std.specs.Option.{option_map_or, option_to_list};
ghost use Rattle.std.specs.List.{list_any};
ghost use Rattle.std.specs.Str.{bytes_eq};
ghost use Rattle.core_body.specs.Conditions.{is_ordered, broken, TypeAt, FunctionAt, TableAt, MemoryAt, GlobalAt, StartsBare, TableLimits, MemoryLimits};
ghost use Rattle.core_body.specs.Views.{context_at};
ghost use Rattle.core_validate.specs.Faults.{fault, first_fault};
ghost use Rattle.core_validate.specs.Items.{AnImport, AFunction, ATable, AMemory, AnExport, AStart, export_condition, import_items, plain_items, export_items};
ghost use Rattle.core_validate.specs.Gather.{with_earlier};
ghost use Rattle.core_validate.specs.Spaces.{memories_of, imported_memories};

use crate::names;
use core_body::{Spaces, lesser};
use std::alloc::Global as Heap;
use virt_base::NoMemory;
use wasm_ast::{Export, ExportItem, Import, ImportItem, Limits, TableType};

/// The rule, unless it is kept.
pub fn unless(kept: bool, rule: u32) -> Option<u32>
    ensures { result ≡ (if kept then None else Some rule) }
{
    if kept { None } else { Some(rule) }
}

/// The rule, where the index is not below the count.
pub fn unless_below(n: u32, count: usize, rule: u32) -> Option<u32>
    ensures { result ≡ (if nat_lt n count then None else Some rule) }
{
    unless((n as usize) < count, rule)
}

/// Whether the minimum is no more than the maximum.
fn is_ordered(limits: Limits) -> bool
    ensures { result ≡ is_ordered limits }
{
    match limits.max {
        Some(max) => limits.min <= max,
        None => true,
    }
}

fn table_limits(spaces: &Spaces<'_>, limits: Limits) -> Option<u32>
    ensures { result ≡ broken (context_at spaces.now) (TableLimits limits) }
{
    let _ = spaces;
    unless(is_ordered(limits) && limits.min <= 1_048_576, 11)
}

fn is_below_pages(max: Option<u32>) -> bool
    ensures { result ≡ option_map_or (λ greatest. nat_le greatest 65536) max true }
{
    match max {
        Some(max) => max <= 65_536,
        None => true,
    }
}

fn memory_limits(spaces: &Spaces<'_>, limits: Limits) -> Option<u32>
    ensures { result ≡ broken (context_at spaces.now) (MemoryLimits limits) }
{
    let _ = spaces;
    unless(
        is_ordered(limits) && (limits.min <= 4_096 && is_below_pages(limits.max)),
        11,
    )
}

/// A memory, which has to be the first.
pub fn memory_fault(spaces: &Spaces<'_>, first: bool, limits: Limits) -> Option<u32>
    ensures { (before : ℕ) → first ≡ (before == 0) → result ≡ fault (context_at spaces.now) (AMemory before limits) }
{
    lesser(unless(first, 4), memory_limits(spaces, limits))
}

fn table_fault(spaces: &Spaces<'_>, table: TableType) -> Option<u32>
    ensures { result ≡ fault (context_at spaces.now) (ATable table) }
{
    table_limits(spaces, table.limits)
}

fn function_fault(spaces: &Spaces<'_>, ty: u32) -> Option<u32>
    ensures { result ≡ fault (context_at spaces.now) (AFunction ty) }
{
    unless_below(ty, spaces.types.len(), 1)
}

/// An import; whether a memory is the first counts those before it.
fn import_fault(spaces: &Spaces<'_>, first: bool, item: ImportItem) -> Option<u32>
    ensures { (before : ℕ) → first ≡ (before == 0) → result ≡ fault (context_at spaces.now) (AnImport before item) }
{
    match item {
        ImportItem::Func(ty) => function_fault(spaces, ty),
        ImportItem::Table(table) => table_fault(spaces, table),
        ImportItem::Memory(limits) => memory_fault(spaces, first, limits),
        ImportItem::Global(_) => None,
    }
}

/// Whether there is no memory after the import either.
fn none_behind(none: bool, item: ImportItem) -> bool
    ensures { (before : ℕ) → none ≡ (before == 0) → result ≡ ((before + length (memories_of item)) == 0) }
{
    match item {
        ImportItem::Memory(_) => false,
        ImportItem::Func(_) | ImportItem::Table(_) | ImportItem::Global(_) => none,
    }
}

pub fn imports_fault(spaces: &Spaces<'_>, imports: &[Import]) -> Option<u32>
    ensures { result ≡ first_fault (context_at spaces.now) (import_items imports.now) }
{
    let mut none = true;
    for import in imports {
        let rule = import_fault(spaces, none, import.item);
        if rule.is_some() {
            return rule;
        }
        none = none_behind(none, import.item);
    }
    None
}

pub fn functions_fault(spaces: &Spaces<'_>, functions: &[u32]) -> Option<u32>
    ensures { result ≡ first_fault (context_at spaces.now) (plain_items AFunction functions.now) }
{
    for ty in functions {
        let rule = function_fault(spaces, *ty);
        if rule.is_some() {
            return rule;
        }
    }
    None
}

pub fn tables_fault(spaces: &Spaces<'_>, tables: &[TableType]) -> Option<u32>
    ensures { result ≡ first_fault (context_at spaces.now) (plain_items ATable tables.now) }
{
    for table in tables {
        let rule = table_fault(spaces, *table);
        if rule.is_some() {
            return rule;
        }
    }
    None
}

/// The memories, after that many imported ones.
pub fn memories_fault(spaces: &Spaces<'_>, imported: usize, memories: &[Limits]) -> Option<u32>
    ensures { result ≡ first_fault (context_at spaces.now) (with_earlier (λ before l. AMemory (imported + length before) l) [] memories.now) }
{
    let mut first = imported == 0;
    for limits in memories {
        let rule = memory_fault(spaces, first, *limits);
        if rule.is_some() {
            return rule;
        }
        first = false;
    }
    None
}

fn export_index(spaces: &Spaces<'_>, item: ExportItem) -> Option<u32>
    ensures { result ≡ broken (context_at spaces.now) (export_condition item) }
{
    match item {
        ExportItem::Func(n) => unless_below(n, spaces.functions.len(), 2),
        ExportItem::Table(n) => unless_below(n, spaces.tables.len(), 3),
        ExportItem::Memory(n) => unless_below(n, spaces.memories, 4),
        ExportItem::Global(n) => unless_below(n, spaces.globals.len(), 5),
    }
}

fn export_fault(spaces: &Spaces<'_>, new: bool, export: &Export) -> Option<u32>
    ensures { (earlier : List (List ℕ)) → new ≡ not (list_any (bytes_eq export.now.name) earlier) → result ≡ fault (context_at spaces.now) (AnExport earlier export.now) }
{
    lesser(export_index(spaces, export.item), unless(new, 12))
}

pub fn exports_fault(
    alloc: Heap,
    spaces: &Spaces<'_>,
    exports: &[Export],
) -> Result<Option<u32>, NoMemory>
    ensures { IfOk result (λ rule. rule ≡ first_fault (context_at spaces.now) (export_items exports.now)) }
{
    let mut seen = names::none(alloc);
    for export in exports {
        let new = names::add(&mut seen, export.name.as_str())?;
        let rule = export_fault(spaces, new, export);
        if rule.is_some() {
            return Ok(rule);
        }
    }
    Ok(None)
}

/// Whether the start function takes and leaves nothing.
fn starts_bare(spaces: &Spaces<'_>, n: u32) -> Option<u32>
    ensures { result ≡ broken (context_at spaces.now) (StartsBare n) }
{
    match spaces.function_type(n) {
        Some(f) => unless(f.params.is_empty() && f.results.is_empty(), 13),
        None => None,
    }
}

pub fn start_fault(spaces: &Spaces<'_>, start: Option<u32>) -> Option<u32>
    ensures { result ≡ first_fault (context_at spaces.now) (plain_items AStart (option_to_list start)) }
{
    match start {
        Some(n) => lesser(
            unless_below(n, spaces.functions.len(), 2),
            starts_bare(spaces, n),
        ),
        None => None,
    }
}
