//! What a description of an import or export describes (Component Model, Binary.md, "externdesc"). New resources get new numbers, and
//! so an instance type is made anew where it declares some.

ghost use Rattle.std.specs.Prelude.{◌≡◌, IfOk, OnOk, Some, []};
ghost use Rattle.wasm_ast.specs.declared.component.ExternDesc.TheVariants.{Func as AFunc, Instance as AnInstance, Resource as AResource, TypeEq as AType};
ghost use Rattle.comp_types.specs.Items.{End};
ghost use Rattle.comp_types.specs.Views.{item_of, kind_of};
ghost use Rattle.comp_types.specs.Added.{and_described, and_index, described, kind_item};
ghost use Rattle.comp_types.specs.Spaces.{Space, kind_at};
ghost use Rattle.comp_types.specs.Types.{instance_in};
ghost use Rattle.comp_scopes.specs.Stands.{Stands};
ghost use Rattle.type_table.specs.Covers.{Covers};
ghost use Rattle.type_table.specs.Tables.{HasEntries};
ghost use Rattle.comp_instances.specs.Describes.{Describes, IsDescribed, IsNewInstance, MakesInstance};

use crate::again::add_type_again;
use crate::descriptions::Described;
use crate::giving::give_numbers;
use comp_scopes::{Scope, func_at, no_func};
use comp_types::{
    DeclaredInstance, InstanceEntries, InstanceType, ItemType, Substitution, TypeItem,
};
use std::alloc::Global;
use std::rc::Rc;
use type_relations::entries_with;
use type_table::TypeTable;
use virt_base::{Items, NoMemory};
use wasm_ast::ExternDesc;

// ---- instances

fn describe_nothing(alloc: Global, next: u32) -> Result<Described, NoMemory>
    ensures { IfOk result (IsNewInstance ([], End) next) }
{
    let entries = InstanceEntries::empty(alloc);
    let item = ItemType::Instance(Rc::new(alloc, InstanceType { entries })?);
    Ok(Described {
        item,
        numbers: Items::empty(alloc),
        next,
    })
}

/// An instance of this type. Where the type declares no resource, what it exports stays shared.
fn describe_declared(
    alloc: Global,
    types: &mut TypeTable,
    ty: &DeclaredInstance,
    next: u32,
) -> Result<Described, NoMemory>
    ensures { IfOk result (λ d. HasEntries types.old ty.now.instance.value.entries → MakesInstance types.old types.new (ty.now.own, ty.now.instance.value.entries) next d) }
{
    if ty.own.is_empty() {
        let same = ty.instance.clone()?;
        return Ok(Described {
            item: ItemType::Instance(same),
            numbers: Items::empty(alloc),
            next,
        });
    }
    let fresh = give_numbers(alloc, Substitution::empty(alloc), ty.own.as_slice(), next)?;
    let entries = entries_with(alloc, types, &ty.instance.entries, &fresh.by)?;
    let item = ItemType::Instance(Rc::new(alloc, InstanceType { entries })?);
    Ok(Described {
        item,
        numbers: fresh.numbers,
        next: fresh.next,
    })
}

fn describe_kind(
    alloc: Global,
    types: &mut TypeTable,
    kind: &TypeItem,
    next: u32,
) -> Result<Described, NoMemory>
    ensures { IfOk result (λ d. HasEntries types.old (instance_in (Some (kind_of kind.now))).1 → MakesInstance types.old types.new (instance_in (Some (kind_of kind.now))) next d) }
{
    match kind {
        TypeItem::Resource(_) => {
            let made = describe_nothing(alloc, next)?;
            Ok(made)
        }
        TypeItem::Value(_) => {
            let made = describe_nothing(alloc, next)?;
            Ok(made)
        }
        TypeItem::Func(_) => {
            let made = describe_nothing(alloc, next)?;
            Ok(made)
        }
        TypeItem::Instance(ty) => {
            let made = describe_declared(alloc, types, ty, next)?;
            Ok(made)
        }
    }
}

fn describe_instance(
    alloc: Global,
    scope: &Scope,
    types: &mut TypeTable,
    index: u32,
) -> Result<Described, NoMemory>
    ensures { IfOk result (λ d. (s : Space) → Stands s scope.now → Covers types.old s → Describes types.old types.new s (AnInstance index) d) }
{
    match scope.kind_at(index) {
        None => {
            let made = describe_nothing(alloc, scope.next)?;
            Ok(made)
        }
        Some(kind) => {
            let made = describe_kind(alloc, types, kind, scope.next)?;
            Ok(made)
        }
    }
}

// ---- all descriptions

/// A resource with the next number: `NoMemory` also where there is none after it.
fn describe_resource(alloc: Global, scope: &Scope) -> Result<Described, NoMemory>
    ensures { IfOk result (λ d. (s : Space) → Stands s scope.now → IsDescribed s AResource d) }
{
    let Some(next) = scope.next.checked_add(1) else {
        return Err(NoMemory);
    };
    let mut numbers = Items::empty(alloc);
    numbers.push(scope.next)?;
    Ok(Described {
        item: ItemType::Kind(TypeItem::Resource(scope.next)),
        numbers,
        next,
    })
}

fn type_at(alloc: Global, scope: &Scope, index: u32) -> Result<ItemType, NoMemory>
    ensures { IfOk result (λ item. (s : Space) → Stands s scope.now → item_of item ≡ kind_item (kind_at s index)) }
{
    match scope.kind_at(index) {
        None => Ok(ItemType::Func(no_func(alloc)?)),
        Some(kind) => Ok(ItemType::Kind(kind.copy()?)),
    }
}

fn describe_func(alloc: Global, scope: &Scope, index: u32) -> Result<Described, NoMemory>
    ensures { IfOk result (λ d. (s : Space) → Stands s scope.now → IsDescribed s (AFunc index) d) }
{
    Ok(Described {
        item: ItemType::Func(func_at(alloc, scope, index)?),
        numbers: Items::empty(alloc),
        next: scope.next,
    })
}

fn describe_type(alloc: Global, scope: &Scope, index: u32) -> Result<Described, NoMemory>
    ensures { IfOk result (λ d. (s : Space) → Stands s scope.now → IsDescribed s (AType index) d) }
{
    Ok(Described {
        item: type_at(alloc, scope, index)?,
        numbers: Items::empty(alloc),
        next: scope.next,
    })
}

/// What a description of an import or an export describes (Component Model, Binary.md, "externdesc"); the value types of a new
/// instance are added to the table. Where the index is none of its kind, a function or an instance without anything stands for it.
pub fn describe(
    alloc: Global,
    scope: &Scope,
    types: &mut TypeTable,
    desc: ExternDesc,
) -> Result<Described, NoMemory>
    ensures { IfOk result (λ d. (s : Space) → Stands s scope.now → Covers types.old s → Describes types.old types.new s desc d) }
{
    match desc {
        ExternDesc::Func(index) => {
            let made = describe_func(alloc, scope, index)?;
            Ok(made)
        }
        ExternDesc::TypeEq(index) => {
            let made = describe_type(alloc, scope, index)?;
            Ok(made)
        }
        ExternDesc::Resource => {
            let made = describe_resource(alloc, scope)?;
            Ok(made)
        }
        ExternDesc::Instance(index) => {
            let made = describe_instance(alloc, scope, types, index)?;
            Ok(made)
        }
    }
}

/// Adds the index of what is described: a type that it equals as deep as that is.
fn add_index(scope: &mut Scope, desc: ExternDesc, item: &ItemType) -> Result<(), NoMemory>
    ensures { OnOk result ((s : Space) → Stands s scope.old → item_of item.now ≡ described s desc → Stands (and_index s desc) scope.new) }
{
    match desc {
        ExternDesc::TypeEq(index) => {
            add_type_again(scope, index)?;
            Ok(())
        }
        ExternDesc::Func(_) => {
            scope.add_item(item.copy()?)?;
            Ok(())
        }
        ExternDesc::Resource => {
            scope.add_item(item.copy()?)?;
            Ok(())
        }
        ExternDesc::Instance(_) => {
            scope.add_item(item.copy()?)?;
            Ok(())
        }
    }
}

/// Adds the index of what is described, and its new resources.
pub fn add_described(scope: &mut Scope, desc: ExternDesc, d: &Described) -> Result<(), NoMemory>
    ensures { OnOk result ((s : Space) → Stands s scope.old → IsDescribed s desc d.now → Stands (and_described s desc) scope.new) }
{
    add_index(scope, desc, &d.item)?;
    scope.next = d.next;
    Ok(())
}
