//! Items of sections of types that are no instance types: definitions, aliases, and exports of an instance type (Component Model,
//! Binary.md, "Type Definitions").

ghost use Rattle.std.specs.Prelude.{◌≡◌, List, IfOk};
ghost use Rattle.comp_types.specs.Declarations.{ATypeAlias, ATypeDef};
ghost use Rattle.comp_types.specs.Definitions.{AType};
ghost use Rattle.comp_types.specs.Spaces.{Space};
ghost use Rattle.comp_defining.specs.Around.{StandAll};
ghost use Rattle.comp_defining.specs.Judged.{JudgedIn};
ghost use Rattle.comp_scopes.specs.Judged.{Judged};
ghost use Rattle.comp_scopes.specs.Stands.{Stands};
ghost use Rattle.type_table.specs.Anew.{Makes};
ghost use Rattle.type_table.specs.Covers.{Covers};
ghost use Rattle.comp_validate.specs.Rest.{alone, item_count};

use crate::walks::{walked_by_desc, walked_by_type_alias};
use comp_defining::{Scopes, define_outer_type, define_type};
use comp_instances::{define_type_export, define_type_export_alias};
use comp_scopes::Scope;
use std::alloc::Global;
use type_table::TypeTable;
use virt_base::NoMemory;
use wasm_ast::{KeptType, TypeAlias, TypeItem};

/// How many declarations stand after an item, if it is an instance type.
pub fn item_count(item: &TypeItem) -> Option<u32>
    ensures { result ≡ item_count item.now }
{
    match item {
        TypeItem::Define(def) => def.declarations(),
        TypeItem::Alias(_) => None,
        TypeItem::Export { name: _, desc: _ } => None,
    }
}

fn define_kept(
    alloc: Global,
    scope: &mut Scope,
    types: &mut TypeTable,
    kept: &KeptType,
) -> Result<Option<u32>, NoMemory>
    ensures { IfOk result (λ rule. (around : List Space) → (s : Space) → Stands s scope.old → Covers types.old s → Judged around s (AType (ATypeDef kept.now)) scope.new rule × Makes types.old types.new s (AType (ATypeDef kept.now)) rule) }
{
    let def = kept.def(alloc)?;
    define_type(alloc, scope, types, &def)
}

fn define_type_alias(
    alloc: Global,
    scopes: &mut Scopes,
    alias: &TypeAlias,
) -> Result<Option<u32>, NoMemory>
    ensures { IfOk result (λ rule. (around : List Space) → (s : Space) → StandAll around s scopes.old → JudgedIn around s (AType (ATypeAlias alias.now)) scopes.new rule) }
{
    match alias {
        TypeAlias::Export { instance, name } => {
            define_type_export_alias(&mut scopes.inner, *instance, name)
        }
        TypeAlias::Outer { count, index } => define_outer_type(alloc, scopes, *count, *index),
    }
}

fn add_alone(alloc: Global, scopes: &mut Scopes, item: &TypeItem) -> Result<Option<u32>, NoMemory>
    ensures { IfOk result (λ rule. (around : List Space) → (s : Space) → StandAll around s scopes.old → JudgedIn around s (AType (alone item.now)) scopes.new rule) }
{
    match item {
        TypeItem::Define(def) => define_kept(alloc, &mut scopes.inner, &mut scopes.types, def),
        TypeItem::Alias(alias) => define_type_alias(alloc, scopes, alias),
        TypeItem::Export { name, desc } => {
            define_type_export(alloc, &mut scopes.inner, &mut scopes.types, name, *desc)
        }
    }
}

fn walked(scopes: &Scopes, item: &TypeItem) -> u64 {
    match item {
        TypeItem::Alias(alias) => walked_by_type_alias(scopes, alias),
        TypeItem::Export { name: _, desc } => walked_by_desc(&scopes.inner, *desc),
        TypeItem::Define(_) => 0,
    }
}

/// An item that is no instance type: the least rule that it breaks, or else it is added.
pub fn define_alone(
    alloc: Global,
    scopes: &mut Scopes,
    item: &TypeItem,
) -> Result<Option<u32>, NoMemory>
    ensures { IfOk result (λ rule. (around : List Space) → (s : Space) → StandAll around s scopes.old → JudgedIn around s (AType (alone item.now)) scopes.new rule) }
{
    let entries = walked(scopes, item);
    scopes.walk(entries)?;
    add_alone(alloc, scopes, item)
}
