//! Aliases of what instances export, in a component or in an instance type (Component Model, Binary.md, "Alias Definitions").

ghost use Rattle.std.specs.Prelude.{◌≡◌, List, IfOk, OnOk, nat_lt, slice_get, option_map};
ghost use Rattle.std.specs.Option.{option_and_then};
ghost use Rattle.wasm_ast.specs.declared.component.Alias.TheVariants.{Export as AnExport};
ghost use Rattle.wasm_ast.specs.declared.component.TypeAlias.TheVariants.{Export as ATypeExport};
ghost use Rattle.comp_types.specs.Items.{look_up};
ghost use Rattle.comp_types.specs.Views.{item_of};
ghost use Rattle.comp_types.specs.Added.{and_some_item};
ghost use Rattle.comp_types.specs.Declarations.{ATypeAlias};
ghost use Rattle.comp_types.specs.Definitions.{AType, AnAlias};
ghost use Rattle.comp_types.specs.Faults.{fault};
ghost use Rattle.comp_types.specs.Rules.{exports_sort, if_there, is_of_sort, lengths_of};
ghost use Rattle.comp_types.specs.Spaces.{Space};
ghost use Rattle.comp_scopes.specs.Judged.{Judged};
ghost use Rattle.comp_scopes.specs.Stands.{Stands};

use comp_scopes::Scope;
use comp_types::{InstanceEntries, ItemType};
use virt_base::{NoMemory, Text};
use wasm_ast::Sort;

fn stands(scope: &Scope, instance: u32) -> bool
    ensures { (s : Space) → Stands s scope.now → result ≡ nat_lt instance (lengths_of s).instances }
{
    (instance as usize) < scope.lengths().instances
}

fn is_of_sort(sort: Sort, item: &ItemType) -> bool
    ensures { result ≡ is_of_sort sort (item_of item.now) }
{
    match item {
        ItemType::Func(_) => match sort {
            Sort::Func => true,
            Sort::Type => false,
            Sort::Instance => false,
        },
        ItemType::Kind(_) => match sort {
            Sort::Func => false,
            Sort::Type => true,
            Sort::Instance => false,
        },
        ItemType::Instance(_) => match sort {
            Sort::Func => false,
            Sort::Type => false,
            Sort::Instance => true,
        },
    }
}

fn exports_sort(sort: Sort, name: &Text, entries: &InstanceEntries) -> bool
    ensures { result ≡ exports_sort sort name.now entries.now }
{
    match entries.look_up(name) {
        None => false,
        Some(item) => is_of_sort(sort, item),
    }
}

/// Whether an instance, if it is there, exports an item of a sort under a name.
fn is_exported(scope: &Scope, sort: Sort, instance: u32, name: &Text) -> bool
    ensures { (s : Space) → Stands s scope.now → result ≡ if_there (exports_sort sort name.now) (slice_get s.instances instance) }
{
    match scope.instance_at(instance) {
        None => true,
        Some(ty) => exports_sort(sort, name, &ty.entries),
    }
}

/// The least rule that an alias of an instance's export breaks.
fn export_alias_fault(scope: &Scope, sort: Sort, instance: u32, name: &Text) -> Option<u32>
    ensures { (around : List Space) → (s : Space) → Stands s scope.now → result ≡ fault around s (AnAlias (AnExport sort instance name.now)) }
{
    if !stands(scope, instance) {
        return Some(3);
    }
    if !is_exported(scope, sort, instance, name) {
        return Some(7);
    }
    None
}

/// The least rule that such an alias breaks in an instance type.
fn type_alias_fault(scope: &Scope, instance: u32, name: &Text) -> Option<u32>
    ensures { (around : List Space) → (s : Space) → Stands s scope.now → result ≡ fault around s (AType (ATypeAlias (ATypeExport instance name.now))) }
{
    if !stands(scope, instance) {
        return Some(3);
    }
    if !is_exported(scope, Sort::Type, instance, name) {
        return Some(7);
    }
    None
}

fn export_at(scope: &Scope, instance: u32, name: &Text) -> Result<Option<ItemType>, NoMemory>
    ensures { IfOk result (λ item. (s : Space) → Stands s scope.now → option_map item_of item ≡ option_and_then (look_up name.now) (slice_get s.instances instance)) }
{
    let Some(ty) = scope.instance_at(instance) else {
        return Ok(None);
    };
    match ty.entries.look_up(name) {
        None => Ok(None),
        Some(item) => Ok(Some(item.copy()?)),
    }
}

fn add_export(scope: &mut Scope, instance: u32, name: &Text) -> Result<(), NoMemory>
    ensures { OnOk result ((s : Space) → Stands s scope.old → Stands (and_some_item s (option_and_then (look_up name.now) (slice_get s.instances instance))) scope.new) }
{
    match export_at(scope, instance, name)? {
        None => Ok(()),
        Some(item) => {
            scope.add_item(item)?;
            Ok(())
        }
    }
}

/// An alias of an instance's export: the least rule that it breaks, or else it is added.
pub fn define_export_alias(
    scope: &mut Scope,
    sort: Sort,
    instance: u32,
    name: &Text,
) -> Result<Option<u32>, NoMemory>
    ensures { IfOk result (λ rule. (around : List Space) → (s : Space) → Stands s scope.old → Judged around s (AnAlias (AnExport sort instance name.now)) scope.new rule) }
{
    match export_alias_fault(scope, sort, instance, name) {
        Some(rule) => Ok(Some(rule)),
        None => {
            add_export(scope, instance, name)?;
            Ok(None)
        }
    }
}

/// An alias of an instance's export in an instance type: the least rule that it breaks, or else it is added.
pub fn define_type_export_alias(
    scope: &mut Scope,
    instance: u32,
    name: &Text,
) -> Result<Option<u32>, NoMemory>
    ensures { IfOk result (λ rule. (around : List Space) → (s : Space) → Stands s scope.old → Judged around s (AType (ATypeAlias (ATypeExport instance name.now))) scope.new rule) }
{
    match type_alias_fault(scope, instance, name) {
        Some(rule) => Ok(Some(rule)),
        None => {
            add_export(scope, instance, name)?;
            Ok(None)
        }
    }
}
