//! Exports of a component, with or without a stated type (Component Model, Binary.md, "Import and Export Definitions").

ghost use Rattle.std.specs.Prelude.{◌≡◌, List, IfOk, OnOk, None, Some, true};
ghost use Rattle.comp_types.specs.Views.{item_of};
ghost use Rattle.comp_types.specs.Added.{and_export};
ghost use Rattle.comp_types.specs.Definitions.{AnExport};
ghost use Rattle.comp_types.specs.Rules.{desc_has_kind, export_stands, if_there, lengths_of};
ghost use Rattle.comp_types.specs.Spaces.{Space, item_at};
ghost use Rattle.comp_scopes.specs.Judged.{Judged};
ghost use Rattle.comp_scopes.specs.Stands.{Stands};
ghost use Rattle.type_table.specs.Anew.{Makes};
ghost use Rattle.type_table.specs.Covers.{Covers};
ghost use Rattle.comp_instances.specs.Describes.{IsDescribed};
ghost use Rattle.comp_instances.specs.Early.{early_fault};

use crate::externs_again::add_again;
use crate::kinds::desc_has_kind;
use crate::stated::is_stated;
use crate::{Described, add_described, describe, name_fits};
use comp_indexes::export_stands;
use comp_names::is_legal;
use comp_scopes::Scope;
use comp_types::ItemType;
use std::alloc::Global;
use type_table::TypeTable;
use virt_base::NoMemory;
use wasm_ast::{ComponentExport, ExternDesc};

/// Whether the type that an export states, if it states one, is of its kind.
fn stated_has_kind(scope: &Scope, desc: Option<ExternDesc>) -> bool
    ensures { (s : Space) → Stands s scope.now → result ≡ if_there (desc_has_kind s) desc }
{
    match desc {
        None => true,
        Some(desc) => desc_has_kind(scope, desc),
    }
}

/// The least rule, before that of stated types, that an export breaks whose indexes stand.
fn early_fault(
    alloc: Global,
    scope: &Scope,
    export: &ComponentExport,
) -> Result<Option<u32>, NoMemory>
    ensures { IfOk result (λ rule. (around : List Space) → (s : Space) → Stands s scope.now → export_stands (lengths_of s) export.now ≡ true → rule ≡ early_fault around s (AnExport export.now)) }
{
    if !stated_has_kind(scope, export.desc) {
        return Ok(Some(11));
    }
    if !is_legal(export.name.bytes()) {
        return Ok(Some(20));
    }
    let differs = scope.exports.is_new(alloc, &export.name)?;
    if !differs {
        return Ok(Some(21));
    }
    Ok(None)
}

// ---- without a stated type

fn add_plain(
    alloc: Global,
    scope: &mut Scope,
    export: &ComponentExport,
    item: &ItemType,
) -> Result<(), NoMemory>
    ensures { OnOk result ((s : Space) → Stands s scope.old → export.now.desc ≡ None → item_at s export.now.sort export.now.index ≡ Some (item_of item.now) → Stands (and_export s export.now) scope.new) }
{
    add_again(scope, export.sort, export.index, item)?;
    scope.exports.push(alloc, &export.name, item.copy()?)?;
    Ok(())
}

fn define_item(
    alloc: Global,
    scope: &mut Scope,
    export: &ComponentExport,
    item: &ItemType,
) -> Result<Option<u32>, NoMemory>
    ensures { IfOk result (λ rule. (around : List Space) → (s : Space) → Stands s scope.old → export.now.desc ≡ None → item_at s export.now.sort export.now.index ≡ Some (item_of item.now) → early_fault around s (AnExport export.now) ≡ None → Judged around s (AnExport export.now) scope.new rule) }
{
    let fits = name_fits(alloc, scope.exports.entries(), &export.name, item)?;
    if !fits {
        return Ok(Some(24));
    }
    add_plain(alloc, scope, export, item)?;
    Ok(None)
}

fn define_plain(
    alloc: Global,
    scope: &mut Scope,
    export: &ComponentExport,
) -> Result<Option<u32>, NoMemory>
    ensures { IfOk result (λ rule. (around : List Space) → (s : Space) → Stands s scope.old → export.now.desc ≡ None → export_stands (lengths_of s) export.now ≡ true → early_fault around s (AnExport export.now) ≡ None → Judged around s (AnExport export.now) scope.new rule) }
{
    let found = scope.item_at(export.sort, export.index)?;
    match found {
        None => Ok(Some(3)),
        Some(item) => {
            let rule = define_item(alloc, scope, export, &item)?;
            Ok(rule)
        }
    }
}

// ---- with one

fn add_stated(
    alloc: Global,
    scope: &mut Scope,
    export: &ComponentExport,
    desc: ExternDesc,
    d: &Described,
) -> Result<(), NoMemory>
    ensures { OnOk result ((s : Space) → Stands s scope.old → export.now.desc ≡ Some desc → IsDescribed s desc d.now → Stands (and_export s export.now) scope.new) }
{
    add_described(scope, desc, d)?;
    scope.exports.push(alloc, &export.name, d.item.copy()?)?;
    Ok(())
}

fn define_stated(
    alloc: Global,
    scope: &mut Scope,
    types: &mut TypeTable,
    export: &ComponentExport,
    desc: ExternDesc,
) -> Result<Option<u32>, NoMemory>
    ensures { IfOk result (λ rule. (around : List Space) → (s : Space) → Stands s scope.old → Covers types.old s → export.now.desc ≡ Some desc → early_fault around s (AnExport export.now) ≡ None → Judged around s (AnExport export.now) scope.new rule × Makes types.old types.new s (AnExport export.now) rule) }
{
    let given = scope.item_at(export.sort, export.index)?;
    let stated = is_stated(alloc, scope, types, &given, desc)?;
    if !stated {
        return Ok(Some(22));
    }
    let d = describe(alloc, scope, types, desc)?;
    let fits = name_fits(alloc, scope.exports.entries(), &export.name, &d.item)?;
    if !fits {
        return Ok(Some(24));
    }
    add_stated(alloc, scope, export, desc, &d)?;
    Ok(None)
}

// ---- all exports

/// An export that breaks no rule before that of stated types.
fn define_sound(
    alloc: Global,
    scope: &mut Scope,
    types: &mut TypeTable,
    export: &ComponentExport,
) -> Result<Option<u32>, NoMemory>
    ensures { IfOk result (λ rule. (around : List Space) → (s : Space) → Stands s scope.old → Covers types.old s → export_stands (lengths_of s) export.now ≡ true → early_fault around s (AnExport export.now) ≡ None → Judged around s (AnExport export.now) scope.new rule × Makes types.old types.new s (AnExport export.now) rule) }
{
    match export.desc {
        None => {
            let rule = define_plain(alloc, scope, export)?;
            Ok(rule)
        }
        Some(desc) => {
            let rule = define_stated(alloc, scope, types, export, desc)?;
            Ok(rule)
        }
    }
}

/// An export: the least rule that it breaks, or else it is added.
pub fn define_export(
    alloc: Global,
    scope: &mut Scope,
    types: &mut TypeTable,
    export: &ComponentExport,
) -> Result<Option<u32>, NoMemory>
    ensures { IfOk result (λ rule. (around : List Space) → (s : Space) → Stands s scope.old → Covers types.old s → Judged around s (AnExport export.now) scope.new rule × Makes types.old types.new s (AnExport export.now) rule) }
{
    if !export_stands(&scope.lengths(), export) {
        return Ok(Some(3));
    }
    let early = early_fault(alloc, scope, export)?;
    match early {
        Some(rule) => Ok(Some(rule)),
        None => {
            let rule = define_sound(alloc, scope, types, export)?;
            Ok(rule)
        }
    }
}
