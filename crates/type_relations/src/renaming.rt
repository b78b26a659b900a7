//! Types of items with other resources. What speaks of no resource stays shared.

ghost use Rattle.std.specs.Prelude.{◌≡◌, map, IfOk};
ghost use Rattle.comp_types.specs.Items.{InstanceKind};
ghost use Rattle.comp_types.specs.Views.{item_of, kind_of, entries_of};
ghost use Rattle.comp_types.specs.Substitution.{partner_in, entries_with, substituted};
ghost use Rattle.type_table.specs.Tables.{HasItem, HasKind, HasEntries, Grew};
ghost use Rattle.type_relations.specs.Walked.{MakesItem, MakesKind, MakesEntries};

use comp_types::{
    DeclaredInstance, InstanceEntries, InstanceEntry, InstanceType, ItemType, Substitution,
    TypeItem,
};
use std::alloc::Global;
use std::mem;
use std::rc::Rc;
use type_table::{Making, TypeTable};
use virt_base::{Items, NoMemory};

fn resources_with(alloc: Global, own: &[u32], making: &Making<'_>) -> Result<Items<u32>, NoMemory>
    ensures { IfOk result (λ new. new ≡ map (partner_in making.now.by) own.now) }
{
    let mut new = Items::empty(alloc);
    for resource in own {
        new.push(making.partner(*resource))?;
    }
    Ok(new)
}

#[cycle(item_with)]
fn slice_with(
    alloc: Global,
    entries: &[InstanceEntry],
    making: &mut Making<'_>,
) -> Result<InstanceEntries, NoMemory>
    ensures made { IfOk result (MakesEntries making.old making.new (entries_of entries.now)) }
    ensures grew { HasEntries making.old.types (entries_of entries.now) → Grew making.old.types making.new.types }
    ensures by { making.new.by ≡ making.old.by }
{
    let mut new = InstanceEntries::empty(alloc);
    for entry in entries {
        let name = entry.name.copy(alloc)?;
        let ty = item_with(alloc, &entry.ty, making)?;
        new.push(name, ty)?;
    }
    Ok(new)
}

#[cycle(item_with)]
fn declared_with(
    alloc: Global,
    ty: &DeclaredInstance,
    making: &mut Making<'_>,
) -> Result<DeclaredInstance, NoMemory>
    ensures made { IfOk result (λ new. MakesKind making.old making.new (InstanceKind ty.now.own ty.now.instance.value.entries) (InstanceKind new.own new.instance.value.entries)) }
    ensures grew { HasEntries making.old.types ty.now.instance.value.entries → Grew making.old.types making.new.types }
    ensures by { making.new.by ≡ making.old.by }
{
    let own = resources_with(alloc, ty.own.as_slice(), making)?;
    let entries = slice_with(alloc, ty.instance.entries.as_slice(), making)?;
    let instance = Rc::new(alloc, InstanceType { entries })?;
    Ok(DeclaredInstance { own, instance })
}

#[cycle(item_with)]
fn kind_with(alloc: Global, kind: &TypeItem, making: &mut Making<'_>) -> Result<TypeItem, NoMemory>
    ensures made { IfOk result (λ new. MakesKind making.old making.new (kind_of kind.now) (kind_of new)) }
    ensures grew { HasKind making.old.types (kind_of kind.now) → Grew making.old.types making.new.types }
    ensures by { making.new.by ≡ making.old.by }
{
    match kind {
        TypeItem::Resource(resource) => Ok(TypeItem::Resource(making.partner(*resource))),
        TypeItem::Value(ty) => Ok(TypeItem::Value(making.value_with(alloc, ty)?)),
        TypeItem::Func(ty) => Ok(TypeItem::Func(making.func_with(alloc, ty)?)),
        TypeItem::Instance(ty) => {
            let declared = declared_with(alloc, ty, making)?;
            Ok(TypeItem::Instance(Rc::new(alloc, declared)?))
        }
    }
}

#[cycle(item_with)]
fn item_with(alloc: Global, ty: &ItemType, making: &mut Making<'_>) -> Result<ItemType, NoMemory>
    ensures made { IfOk result (λ new. MakesItem making.old making.new (item_of ty.now) (item_of new)) }
    ensures grew { HasItem making.old.types (item_of ty.now) → Grew making.old.types making.new.types }
    ensures by { making.new.by ≡ making.old.by }
{
    if !ty.has_resource() {
        let same = ty.copy()?;
        return Ok(same);
    }
    match ty {
        ItemType::Func(ty) => Ok(ItemType::Func(making.func_with(alloc, ty)?)),
        ItemType::Instance(ty) => {
            let entries = slice_with(alloc, ty.entries.as_slice(), making)?;
            Ok(ItemType::Instance(Rc::new(alloc, InstanceType { entries })?))
        }
        ItemType::Kind(kind) => Ok(ItemType::Kind(kind_with(alloc, kind, making)?)),
    }
}

/// The type with other resources. What speaks of no resource stays shared where it stands.
pub fn substitute(
    alloc: Global,
    types: &mut TypeTable,
    ty: &ItemType,
    by: &Substitution,
) -> Result<ItemType, NoMemory>
    ensures made { IfOk result (λ new. HasItem types.old (item_of ty.now) → (item_of new ≡ substituted by.now (item_of ty.now)) × HasItem types.new (item_of new)) }
    ensures grew { HasItem types.old (item_of ty.now) → Grew types.old types.new }
{
    let table = mem::replace(types, TypeTable::none(alloc));
    let mut making = Making::new(alloc, table, by);
    let made = item_with(alloc, ty, &mut making);
    *types = making.into_table();
    made
}

/// What an instance exports, with other resources. What speaks of no resource stays shared where it stands; all else is made anew,
/// as often as it stands there, but for value types: `NoMemory` at once where that is too much.
pub fn entries_with(
    alloc: Global,
    types: &mut TypeTable,
    entries: &InstanceEntries,
    by: &Substitution,
) -> Result<InstanceEntries, NoMemory>
    ensures made { IfOk result (λ new. HasEntries types.old entries.now → (new ≡ entries_with (partner_in by.now) entries.now) × HasEntries types.new new) }
    ensures grew { HasEntries types.old entries.now → Grew types.old types.new }
{
    if entries.is_too_large() {
        return Err(NoMemory);
    }
    let table = mem::replace(types, TypeTable::none(alloc));
    let mut making = Making::new(alloc, table, by);
    let made = slice_with(alloc, entries.as_slice(), &mut making);
    *types = making.into_table();
    made
}
