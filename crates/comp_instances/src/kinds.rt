//! Whether the types that a description names are of its kind, and which resources they name.

ghost use Rattle.std.specs.Prelude.{◌≡◌, IfOk, [], None, Some};
ghost use Rattle.comp_types.specs.Views.{kind_of};
ghost use Rattle.comp_types.specs.GivenResources.{distinct, named_in_func, named_in_kind};
ghost use Rattle.comp_types.specs.Rules.{desc_has_kind, if_there, is_func, is_instance, named_at, named_in_desc};
ghost use Rattle.comp_types.specs.Spaces.{Space, kind_at};
ghost use Rattle.comp_types.specs.Types.{func_in};
ghost use Rattle.comp_scopes.specs.Stands.{Stands};
ghost use Rattle.type_table.specs.Tables.{HasKind};
ghost use Rattle.type_table.specs.Covers.{Covers};

use comp_scopes::{Scope, is_func_at, is_instance_at};
use comp_types::TypeItem;
use std::alloc::Global;
use type_relations::{Resources, resources_of_kind};
use type_table::TypeTable;
use virt_base::NoMemory;
use wasm_ast::ExternDesc;

/// Whether a function type or an instance type stands where a description names one.
pub fn desc_has_kind(scope: &Scope, desc: ExternDesc) -> bool
    ensures { (s : Space) → Stands s scope.now → result ≡ desc_has_kind s desc }
{
    match desc {
        ExternDesc::Func(index) => is_func_at(scope, index),
        ExternDesc::TypeEq(_) => true,
        ExternDesc::Resource => true,
        ExternDesc::Instance(index) => is_instance_at(scope, index),
    }
}

fn resources_of_func(
    alloc: Global,
    types: &TypeTable,
    kind: &TypeItem,
) -> Result<Resources, NoMemory>
    ensures { IfOk result (λ rs. HasKind types.now (kind_of kind.now) → rs ≡ distinct (named_in_func (func_in (Some (kind_of kind.now))))) }
{
    match kind {
        TypeItem::Resource(_) => Ok(Resources::none(alloc)),
        TypeItem::Value(_) => Ok(Resources::none(alloc)),
        TypeItem::Func(_) => {
            let found = resources_of_kind(alloc, types, kind)?;
            Ok(found)
        }
        TypeItem::Instance(_) => Ok(Resources::none(alloc)),
    }
}

fn resources_of_func_at(
    alloc: Global,
    scope: &Scope,
    types: &TypeTable,
    index: u32,
) -> Result<Resources, NoMemory>
    ensures { IfOk result (λ rs. (s : Space) → Stands s scope.now → Covers types.now s → rs ≡ distinct (named_in_func (func_in (kind_at s index)))) }
{
    match scope.kind_at(index) {
        None => Ok(Resources::none(alloc)),
        Some(kind) => {
            let found = resources_of_func(alloc, types, kind)?;
            Ok(found)
        }
    }
}

fn resources_at(
    alloc: Global,
    scope: &Scope,
    types: &TypeTable,
    index: u32,
) -> Result<Resources, NoMemory>
    ensures { IfOk result (λ rs. (s : Space) → Stands s scope.now → Covers types.now s → rs ≡ distinct (named_at (kind_at s index))) }
{
    match scope.kind_at(index) {
        None => Ok(Resources::none(alloc)),
        Some(kind) => {
            let found = resources_of_kind(alloc, types, kind)?;
            Ok(found)
        }
    }
}

/// The resources that a description names.
pub fn resources_of_desc(
    alloc: Global,
    scope: &Scope,
    types: &TypeTable,
    desc: ExternDesc,
) -> Result<Resources, NoMemory>
    ensures { IfOk result (λ rs. (s : Space) → Stands s scope.now → Covers types.now s → rs ≡ distinct (named_in_desc s desc)) }
{
    match desc {
        ExternDesc::Func(index) => {
            let found = resources_of_func_at(alloc, scope, types, index)?;
            Ok(found)
        }
        ExternDesc::TypeEq(index) => {
            let found = resources_at(alloc, scope, types, index)?;
            Ok(found)
        }
        ExternDesc::Resource => Ok(Resources::none(alloc)),
        ExternDesc::Instance(index) => {
            let found = resources_at(alloc, scope, types, index)?;
            Ok(found)
        }
    }
}
