//! Exports that an instance type declares (Component Model, Binary.md, "Type Definitions", `instancedecl`).

ghost use Rattle.std.specs.Prelude.{◌≡◌, List, IfOk, OnOk, min, slice_get, true};
ghost use Rattle.comp_types.specs.Views.{item_of};
ghost use Rattle.comp_types.specs.Added.{and_type_export, depth_in, described, described_depth};
ghost use Rattle.comp_types.specs.Declarations.{ATypeExport};
ghost use Rattle.comp_types.specs.Definitions.{AType};
ghost use Rattle.comp_types.specs.Faults.{fault};
ghost use Rattle.comp_types.specs.Rules.{desc_stands, lengths_of};
ghost use Rattle.comp_types.specs.Spaces.{Space};
ghost use Rattle.comp_scopes.specs.Judged.{Judged};
ghost use Rattle.comp_scopes.specs.Stands.{Stands};
ghost use Rattle.type_table.specs.Anew.{Makes};
ghost use Rattle.type_table.specs.Covers.{Covers};
ghost use Rattle.comp_instances.specs.Describes.{IsDescribed};

use crate::kinds::desc_has_kind;
use crate::numbering::push_all;
use crate::{Described, add_described, describe, name_fits};
use comp_indexes::desc_stands;
use comp_names::is_legal;
use comp_scopes::Scope;
use comp_types::ItemType;
use std::alloc::Global;
use type_table::TypeTable;
use virt_base::{NoMemory, Text};
use wasm_ast::ExternDesc;

/// How deep the type at an index is; 101 stands for more than 100, and 1 for one that is not there.
fn depth_at(scope: &Scope, index: u32) -> u32
    ensures { (s : Space) → Stands s scope.now → result ≡ min (depth_in (slice_get s.types index)) 101 }
{
    match scope.entry_at(index) {
        None => 1,
        Some(entry) => entry.depth,
    }
}

fn described_depth(scope: &Scope, desc: ExternDesc) -> u32
    ensures { (s : Space) → Stands s scope.now → result ≡ min (described_depth s desc) 101 }
{
    match desc {
        ExternDesc::Func(index) => depth_at(scope, index),
        ExternDesc::TypeEq(index) => depth_at(scope, index),
        ExternDesc::Resource => 1,
        ExternDesc::Instance(index) => depth_at(scope, index),
    }
}

/// The least rule that a declared export breaks, whose index stands.
fn type_export_fault(
    alloc: Global,
    scope: &Scope,
    name: &Text,
    desc: ExternDesc,
    item: &ItemType,
) -> Result<Option<u32>, NoMemory>
    ensures { IfOk result (λ rule. (around : List Space) → (s : Space) → Stands s scope.now → desc_stands (lengths_of s) desc ≡ true → item_of item.now ≡ described s desc → rule ≡ fault around s (AType (ATypeExport name.now desc))) }
{
    if !desc_has_kind(scope, desc) {
        return Ok(Some(11));
    }
    let differs = scope.exports.is_new(alloc, name)?;
    if !differs {
        return Ok(Some(15));
    }
    if !is_legal(name.bytes()) {
        return Ok(Some(20));
    }
    let fits = name_fits(alloc, scope.exports.entries(), name, item)?;
    if !fits {
        return Ok(Some(24));
    }
    Ok(None)
}

fn add_type_export(
    alloc: Global,
    scope: &mut Scope,
    name: &Text,
    desc: ExternDesc,
    d: &Described,
) -> Result<(), NoMemory>
    ensures { OnOk result ((s : Space) → Stands s scope.old → IsDescribed s desc d.now → Stands (and_type_export s name.now desc) scope.new) }
{
    let depth = described_depth(scope, desc);
    add_described(scope, desc, d)?;
    scope.deepest = u32::max(scope.deepest, depth);
    scope.exports.push(alloc, name, d.item.copy()?)?;
    push_all(&mut scope.defined, d.numbers.as_slice())?;
    Ok(())
}

/// A declared export whose index stands: the least rule that it breaks, or else it is added.
fn define_described(
    alloc: Global,
    scope: &mut Scope,
    name: &Text,
    desc: ExternDesc,
    d: &Described,
) -> Result<Option<u32>, NoMemory>
    ensures { IfOk result (λ rule. (around : List Space) → (s : Space) → Stands s scope.old → desc_stands (lengths_of s) desc ≡ true → IsDescribed s desc d.now → Judged around s (AType (ATypeExport name.now desc)) scope.new rule) }
{
    match type_export_fault(alloc, scope, name, desc, &d.item)? {
        Some(rule) => Ok(Some(rule)),
        None => {
            add_type_export(alloc, scope, name, desc, d)?;
            Ok(None)
        }
    }
}

/// An export that an instance type declares: the least rule that it breaks, or else it is added.
pub fn define_type_export(
    alloc: Global,
    scope: &mut Scope,
    types: &mut TypeTable,
    name: &Text,
    desc: ExternDesc,
) -> Result<Option<u32>, NoMemory>
    ensures { IfOk result (λ rule. (around : List Space) → (s : Space) → Stands s scope.old → Covers types.old s → Judged around s (AType (ATypeExport name.now desc)) scope.new rule × Makes types.old types.new s (AType (ATypeExport name.now desc)) rule) }
{
    if !desc_stands(&scope.lengths(), desc) {
        return Ok(Some(3));
    }
    let d = describe(alloc, scope, types, desc)?;
    let rule = define_described(alloc, scope, name, desc, &d)?;
    Ok(rule)
}
