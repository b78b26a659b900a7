//! Sections of types, item by item and without recursion: an instance type opens a scope, which closes after its last declaration.

ghost use Rattle.std.specs.Prelude.{◌≡◌, [], List, IfOk, None};
ghost use Rattle.comp_types.specs.Declarations.{Declarations, Done, grouped};
ghost use Rattle.comp_types.specs.Definitions.{types_in};
ghost use Rattle.comp_types.specs.Spaces.{Space};
ghost use Rattle.comp_defining.specs.Around.{StandAll};
ghost use Rattle.comp_defining.specs.Judged.{JudgedEach};
ghost use Rattle.comp_validate.specs.Rest.{Rest, Step, in_front};
ghost use Rattle.comp_validate.specs.Stack.{IsReady};

use crate::declarations::{define_alone, item_count};
use crate::instance_types::close_type;
use crate::open_types::OpenTypes;
use comp_defining::Scopes;
use std::alloc::Global;
use virt_base::NoMemory;
use wasm_ast::TypeItem;

/// Closes the instance types that have no declarations left.
fn close_whole(
    alloc: Global,
    scopes: &mut Scopes,
    counts: &mut OpenTypes,
) -> Result<Option<u32>, NoMemory>
    ensures step { IfOk result (λ rule. (around : List Space) → (s : Space) → (ds : Declarations) → StandAll around s scopes.old → Step (Rest counts.old around s ds) counts.new ds scopes.new rule) }
    ensures ready { IfOk result (λ rule. rule ≡ None → IsReady counts.new) }
{
    while let Some(count) = counts.pop() {
        if count != 0 {
            counts.push(count)?;
            return Ok(None);
        }
        if let Some(rule) = close_type(alloc, scopes)? {
            return Ok(Some(rule));
        }
    }
    Ok(None)
}

/// Closes all instance types, where no declarations are left.
fn close_all(
    alloc: Global,
    scopes: &mut Scopes,
    counts: &mut OpenTypes,
) -> Result<Option<u32>, NoMemory>
    ensures { IfOk result (λ rule. (around : List Space) → (s : Space) → StandAll around s scopes.old → Step (Rest counts.old around s Done) [] Done scopes.new rule) }
{
    while let Some(_left) = counts.pop() {
        if let Some(rule) = close_type(alloc, scopes)? {
            return Ok(Some(rule));
        }
    }
    Ok(None)
}

/// An item, where the innermost instance type has declarations left.
fn define_item(
    alloc: Global,
    scopes: &mut Scopes,
    counts: &mut OpenTypes,
    item: &TypeItem,
) -> Result<Option<u32>, NoMemory>
    ensures { IfOk result (λ rule. IsReady counts.old → (around : List Space) → (s : Space) → (ds : Declarations) → StandAll around s scopes.old → Step (Rest counts.old around s (in_front item.now ds)) counts.new ds scopes.new rule) }
{
    counts.take_one()?;
    match item_count(item) {
        None => define_alone(alloc, scopes, item),
        Some(count) => {
            scopes.open_type(alloc)?;
            counts.push(count)?;
            Ok(None)
        }
    }
}

/// An item.
fn pass(
    alloc: Global,
    scopes: &mut Scopes,
    counts: &mut OpenTypes,
    item: &TypeItem,
) -> Result<Option<u32>, NoMemory>
    ensures { IfOk result (λ rule. (around : List Space) → (s : Space) → (ds : Declarations) → StandAll around s scopes.old → Step (Rest counts.old around s (in_front item.now ds)) counts.new ds scopes.new rule) }
{
    match close_whole(alloc, scopes, counts)? {
        Some(rule) => Ok(Some(rule)),
        None => define_item(alloc, scopes, counts, item),
    }
}

/// A section of types: the least rule that the first definition at fault breaks, or else all of them are added.
pub fn define_types(
    alloc: Global,
    scopes: &mut Scopes,
    items: &[TypeItem],
) -> Result<Option<u32>, NoMemory>
    ensures { IfOk result (λ rule. (around : List Space) → (s : Space) → StandAll around s scopes.old → JudgedEach around s (types_in (grouped items.now)) scopes.new rule) }
{
    let mut counts = OpenTypes::none(alloc);
    let mut rest = items;
    while let Some((item, more)) = rest.split_first() {
        if let Some(rule) = pass(alloc, scopes, &mut counts, item)? {
            return Ok(Some(rule));
        }
        rest = more;
    }
    close_all(alloc, scopes, &mut counts)
}
