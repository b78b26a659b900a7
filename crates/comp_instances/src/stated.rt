//! Rule 22: whether an exported item is of the type that the export states.

ghost use Rattle.std.specs.Prelude.{◌≡◌, IfOk, Some, is_some, option_map};
ghost use Rattle.std.specs.Bool.{Decides};
ghost use Rattle.wasm_ast.specs.declared.component.ExternDesc.TheVariants.{Func as AFunc, Instance as AnInstance, TypeEq as AType};
ghost use Rattle.comp_types.specs.Items.{InstanceItem};
ghost use Rattle.comp_types.specs.Subtyping.{IsSubtype};
ghost use Rattle.comp_types.specs.Views.{item_of, kind_of};
ghost use Rattle.comp_types.specs.GivenResources.{named_in_kind};
ghost use Rattle.comp_types.specs.Rules.{IsInstanceOf, IsKind, IsStated, as_they_are, resource_of};
ghost use Rattle.comp_types.specs.Spaces.{Space, kind_at};
ghost use Rattle.comp_types.specs.Types.{instance_in};
ghost use Rattle.comp_scopes.specs.Stands.{Stands};
ghost use Rattle.type_table.specs.Tables.{HasEntries, HasItem, HasKind};
ghost use Rattle.type_table.specs.Covers.{Covers, HasSome};
ghost use Rattle.comp_instances.specs.Takes.{TakesAlike};

use comp_scopes::{Scope, func_at};
use comp_types::{DeclaredInstance, InstanceType, ItemType, Substitution, TypeItem};
use std::alloc::Global;
use type_relations::{equal, resources_of_kind, subtype};
use type_table::TypeTable;
use virt_base::NoMemory;
use wasm_ast::ExternDesc;

fn is_stated_func(
    alloc: Global,
    scope: &Scope,
    types: &TypeTable,
    given: &Option<ItemType>,
    index: u32,
) -> Result<bool, NoMemory>
    ensures { IfOk result (λ fits. (s : Space) → Stands s scope.now → Covers types.now s → HasSome types.now (option_map item_of given.now) → Decides fits (IsStated s (option_map item_of given.now) (AFunc index))) }
{
    match given {
        None => Ok(false),
        Some(item) => {
            let ty = ItemType::Func(func_at(alloc, scope, index)?);
            let same = equal(alloc, types, item, &ty)?;
            Ok(same)
        }
    }
}

fn is_kind(
    alloc: Global,
    types: &TypeTable,
    given: &Option<ItemType>,
    kind: &TypeItem,
) -> Result<bool, NoMemory>
    ensures { IfOk result (λ fits. HasSome types.now (option_map item_of given.now) → HasKind types.now (kind_of kind.now) → Decides fits (IsKind (option_map item_of given.now) (Some (kind_of kind.now)))) }
{
    match given {
        None => Ok(false),
        Some(item) => {
            let ty = ItemType::Kind(kind.copy()?);
            let same = equal(alloc, types, item, &ty)?;
            Ok(same)
        }
    }
}

fn is_stated_type(
    alloc: Global,
    scope: &Scope,
    types: &TypeTable,
    given: &Option<ItemType>,
    index: u32,
) -> Result<bool, NoMemory>
    ensures { IfOk result (λ fits. (s : Space) → Stands s scope.now → Covers types.now s → HasSome types.now (option_map item_of given.now) → Decides fits (IsStated s (option_map item_of given.now) (AType index))) }
{
    match scope.kind_at(index) {
        None => Ok(true),
        Some(kind) => {
            let same = is_kind(alloc, types, given, kind)?;
            Ok(same)
        }
    }
}

fn is_resource(given: &Option<ItemType>) -> bool
    ensures { result ≡ is_some (resource_of (option_map item_of given.now)) }
{
    match given {
        None => false,
        Some(ItemType::Kind(TypeItem::Resource(_))) => true,
        Some(ItemType::Kind(TypeItem::Value(_))) => false,
        Some(ItemType::Kind(TypeItem::Func(_))) => false,
        Some(ItemType::Kind(TypeItem::Instance(_))) => false,
        Some(ItemType::Func(_)) => false,
        Some(ItemType::Instance(_)) => false,
    }
}

// ---- instances

/// Pairs by which each of these resources stands for itself.
fn as_they_are(alloc: Global, these: &[u32]) -> Result<Substitution, NoMemory>
    ensures { IfOk result (λ by. TakesAlike by (as_they_are these.now)) }
{
    let mut by = Substitution::empty(alloc);
    for resource in these {
        by.push(*resource, *resource)?;
    }
    Ok(by)
}

/// Whether an instance has each entry of an instance type, of which the resources that it declares are any.
fn is_instance_of_type(
    alloc: Global,
    types: &TypeTable,
    given: &InstanceType,
    kind: &TypeItem,
    ty: &DeclaredInstance,
) -> Result<bool, NoMemory>
    ensures { IfOk result (λ fits. HasEntries types.now given.now.entries → HasKind types.now (kind_of kind.now) → HasEntries types.now ty.now.instance.value.entries → Decides fits (IsSubtype given.now.entries ty.now.instance.value.entries (as_they_are (named_in_kind (kind_of kind.now))))) }
{
    let named = resources_of_kind(alloc, types, kind)?;
    let matched = as_they_are(alloc, named.as_slice())?;
    let fits = subtype(alloc, types, given, &ty.instance, &matched)?;
    Ok(fits)
}

fn is_instance_of_kind(
    alloc: Global,
    types: &TypeTable,
    given: &InstanceType,
    kind: &TypeItem,
) -> Result<bool, NoMemory>
    ensures { IfOk result (λ fits. HasEntries types.now given.now.entries → HasKind types.now (kind_of kind.now) → Decides fits (IsInstanceOf (Some (InstanceItem given.now.entries)) (instance_in (Some (kind_of kind.now))))) }
{
    match kind {
        TypeItem::Resource(_) => Ok(true),
        TypeItem::Value(_) => Ok(true),
        TypeItem::Func(_) => Ok(true),
        TypeItem::Instance(ty) => {
            let fits = is_instance_of_type(alloc, types, given, kind, ty)?;
            Ok(fits)
        }
    }
}

fn is_instance_at(
    alloc: Global,
    scope: &Scope,
    types: &TypeTable,
    given: &InstanceType,
    index: u32,
) -> Result<bool, NoMemory>
    ensures { IfOk result (λ fits. (s : Space) → Stands s scope.now → Covers types.now s → HasEntries types.now given.now.entries → Decides fits (IsInstanceOf (Some (InstanceItem given.now.entries)) (instance_in (kind_at s index)))) }
{
    match scope.kind_at(index) {
        None => Ok(true),
        Some(kind) => {
            let fits = is_instance_of_kind(alloc, types, given, kind)?;
            Ok(fits)
        }
    }
}

fn is_item_at(
    alloc: Global,
    scope: &Scope,
    types: &TypeTable,
    item: &ItemType,
    index: u32,
) -> Result<bool, NoMemory>
    ensures { IfOk result (λ fits. (s : Space) → Stands s scope.now → Covers types.now s → HasItem types.now (item_of item.now) → Decides fits (IsInstanceOf (Some (item_of item.now)) (instance_in (kind_at s index)))) }
{
    match item {
        ItemType::Func(_) => Ok(false),
        ItemType::Kind(_) => Ok(false),
        ItemType::Instance(given) => {
            let fits = is_instance_at(alloc, scope, types, given, index)?;
            Ok(fits)
        }
    }
}

fn is_stated_instance(
    alloc: Global,
    scope: &Scope,
    types: &TypeTable,
    given: &Option<ItemType>,
    index: u32,
) -> Result<bool, NoMemory>
    ensures { IfOk result (λ fits. (s : Space) → Stands s scope.now → Covers types.now s → HasSome types.now (option_map item_of given.now) → Decides fits (IsStated s (option_map item_of given.now) (AnInstance index))) }
{
    match given {
        None => Ok(false),
        Some(item) => {
            let fits = is_item_at(alloc, scope, types, item, index)?;
            Ok(fits)
        }
    }
}

/// Whether an item is of the type that an export states: an equal type, any resource, or an instance with at least the entries.
pub fn is_stated(
    alloc: Global,
    scope: &Scope,
    types: &TypeTable,
    given: &Option<ItemType>,
    desc: ExternDesc,
) -> Result<bool, NoMemory>
    ensures { IfOk result (λ fits. (s : Space) → Stands s scope.now → Covers types.now s → HasSome types.now (option_map item_of given.now) → Decides fits (IsStated s (option_map item_of given.now) desc)) }
{
    match desc {
        ExternDesc::Func(index) => {
            let fits = is_stated_func(alloc, scope, types, given, index)?;
            Ok(fits)
        }
        ExternDesc::TypeEq(index) => {
            let fits = is_stated_type(alloc, scope, types, given, index)?;
            Ok(fits)
        }
        ExternDesc::Resource => Ok(is_resource(given)),
        ExternDesc::Instance(index) => {
            let fits = is_stated_instance(alloc, scope, types, given, index)?;
            Ok(fits)
        }
    }
}
