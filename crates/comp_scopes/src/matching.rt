//! Whether a core item may stand where another one is imported (WebAssembly Core 2.0, section 3.2, "External Types" and
//! "Import Subtyping").

ghost use Rattle.std.specs.Prelude.{◌≡◌};
ghost use Rattle.std.specs.Cmp.Lexicographic.{pointwise};
ghost use Rattle.core_validate.specs.declared.item.CoreItem.TheVariants.{Func, Global, Memory, Table};
ghost use Rattle.comp_types.specs.CoreMatching.{fits_limits, is_under, meets, same_bool, same_core, same_func};

use core_validate::CoreItem;
use virt_base::CoreType;
use wasm_ast::{CoreFunc, Limits};

fn same_core(one: CoreType, other: CoreType) -> bool
    ensures { result ≡ same_core one other }
{
    match (one, other) {
        (CoreType::I32, CoreType::I32) => true,
        (CoreType::I64, CoreType::I64) => true,
        (CoreType::Funcref, CoreType::Funcref) => true,
        (CoreType::Externref, CoreType::Externref) => true,
        _ => false,
    }
}

/// Whether types are the same in order.
fn same_types(these: &[CoreType], others: &[CoreType]) -> bool
    ensures { result ≡ pointwise same_core these.now others.now }
{
    let mut left = these;
    let mut right = others;
    while let Some((one, more)) = left.split_first() {
        let Some((other, rest)) = right.split_first() else {
            return false;
        };
        if !same_core(*one, *other) {
            return false;
        }
        left = more;
        right = rest;
    }
    right.is_empty()
}

fn same_func(one: &CoreFunc, other: &CoreFunc) -> bool
    ensures { result ≡ same_func one.now other.now }
{
    same_types(one.params.as_slice(), other.params.as_slice())
        && same_types(one.results.as_slice(), other.results.as_slice())
}

fn is_under(given: Option<u32>, greatest: Option<u32>) -> bool
    ensures { result ≡ is_under given greatest }
{
    match (given, greatest) {
        (_, None) => true,
        (None, Some(_)) => false,
        (Some(given), Some(greatest)) => given <= greatest,
    }
}

fn fits_limits(given: Limits, asked: Limits) -> bool
    ensures { result ≡ fits_limits given asked }
{
    asked.min <= given.min && is_under(given.max, asked.max)
}

fn same_bool(one: bool, other: bool) -> bool
    ensures { result ≡ same_bool one other }
{
    if one { other } else { !other }
}

/// Whether a function may stand where the item is imported.
pub fn func_meets(given: &CoreFunc, asked: &CoreItem) -> bool
    ensures { result ≡ meets (Func given.now) asked.now }
{
    match asked {
        CoreItem::Func(ty) => same_func(given, ty.get()),
        CoreItem::Table(_, _) => false,
        CoreItem::Memory(_) => false,
        CoreItem::Global(_, _) => false,
    }
}

/// Whether a table may.
pub fn table_meets(ty: CoreType, given: Limits, asked: &CoreItem) -> bool
    ensures { result ≡ meets (Table ty given) asked.now }
{
    match asked {
        CoreItem::Func(_) => false,
        CoreItem::Table(other, limits) => same_core(ty, *other) && fits_limits(given, *limits),
        CoreItem::Memory(_) => false,
        CoreItem::Global(_, _) => false,
    }
}

/// Whether a memory may.
pub fn memory_meets(given: Limits, asked: &CoreItem) -> bool
    ensures { result ≡ meets (Memory given) asked.now }
{
    match asked {
        CoreItem::Func(_) => false,
        CoreItem::Table(_, _) => false,
        CoreItem::Memory(limits) => fits_limits(given, *limits),
        CoreItem::Global(_, _) => false,
    }
}

/// Whether a global may.
pub fn global_meets(ty: CoreType, variable: bool, asked: &CoreItem) -> bool
    ensures { result ≡ meets (Global ty variable) asked.now }
{
    match asked {
        CoreItem::Func(_) => false,
        CoreItem::Table(_, _) => false,
        CoreItem::Memory(_) => false,
        CoreItem::Global(other, is_variable) => {
            same_core(ty, *other) && same_bool(variable, *is_variable)
        }
    }
}
