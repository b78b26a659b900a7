//! Imports of a component (Component Model, Binary.md, "Import and Export Definitions").

ghost use Rattle.std.specs.Prelude.{◌≡◌, List, IfOk, OnOk, true};
ghost use Rattle.std.specs.List.{list_all};
ghost use Rattle.comp_types.specs.Views.{item_of};
ghost use Rattle.comp_types.specs.Added.{and_import, described};
ghost use Rattle.comp_types.specs.Definitions.{AnImport};
ghost use Rattle.comp_types.specs.Faults.{fault};
ghost use Rattle.comp_types.specs.GivenResources.{is_among};
ghost use Rattle.comp_types.specs.Rules.{desc_stands, lengths_of, named_in_desc};
ghost use Rattle.comp_types.specs.Spaces.{Space};
ghost use Rattle.comp_scopes.specs.Judged.{Judged};
ghost use Rattle.comp_scopes.specs.Stands.{Stands};
ghost use Rattle.type_table.specs.Anew.{Makes};
ghost use Rattle.type_table.specs.Covers.{Covers};
ghost use Rattle.comp_instances.specs.Describes.{IsDescribed};

use crate::kinds::{desc_has_kind, resources_of_desc};
use crate::numbering::{are_among, push_all};
use crate::{Described, add_described, describe, name_fits};
use comp_indexes::desc_stands;
use comp_names::is_legal;
use comp_scopes::Scope;
use comp_types::ItemType;
use std::alloc::Global;
use type_table::TypeTable;
use virt_base::NoMemory;
use wasm_ast::{ComponentImport, ExternDesc};

/// Whether each resource that a description names was imported.
fn names_imported(
    alloc: Global,
    scope: &Scope,
    types: &TypeTable,
    desc: ExternDesc,
) -> Result<bool, NoMemory>
    ensures { IfOk result (λ all. (s : Space) → Stands s scope.now → Covers types.now s → all ≡ list_all (is_among s.imported) (named_in_desc s desc)) }
{
    let found = resources_of_desc(alloc, scope, types, desc)?;
    Ok(are_among(found.as_slice(), &scope.imported))
}

/// The least rule that an import breaks, whose index stands.
fn import_fault(
    alloc: Global,
    scope: &Scope,
    types: &TypeTable,
    import: &ComponentImport,
    item: &ItemType,
) -> Result<Option<u32>, NoMemory>
    ensures { IfOk result (λ rule. (around : List Space) → (s : Space) → Stands s scope.now → Covers types.now s → desc_stands (lengths_of s) import.now.desc ≡ true → item_of item.now ≡ described s import.now.desc → rule ≡ fault around s (AnImport import.now)) }
{
    let imported = names_imported(alloc, scope, types, import.desc)?;
    if !imported {
        return Ok(Some(8));
    }
    if !desc_has_kind(scope, import.desc) {
        return Ok(Some(11));
    }
    let differs = scope.imports.is_new(alloc, &import.name)?;
    if !differs {
        return Ok(Some(19));
    }
    if !is_legal(import.name.bytes()) {
        return Ok(Some(20));
    }
    let fits = name_fits(alloc, scope.imports.entries(), &import.name, item)?;
    if !fits {
        return Ok(Some(24));
    }
    Ok(None)
}

fn add_import(
    alloc: Global,
    scope: &mut Scope,
    import: &ComponentImport,
    d: &Described,
) -> Result<(), NoMemory>
    ensures { OnOk result ((s : Space) → Stands s scope.old → IsDescribed s import.now.desc d.now → Stands (and_import s import.now) scope.new) }
{
    add_described(scope, import.desc, d)?;
    scope.imports.push(alloc, &import.name, d.item.copy()?)?;
    push_all(&mut scope.imported, d.numbers.as_slice())?;
    Ok(())
}

/// An import whose index stands: the least rule that it breaks, or else it is added.
fn define_described(
    alloc: Global,
    scope: &mut Scope,
    types: &TypeTable,
    import: &ComponentImport,
    d: &Described,
) -> Result<Option<u32>, NoMemory>
    ensures { IfOk result (λ rule. (around : List Space) → (s : Space) → Stands s scope.old → Covers types.now s → desc_stands (lengths_of s) import.now.desc ≡ true → IsDescribed s import.now.desc d.now → Judged around s (AnImport import.now) scope.new rule) }
{
    match import_fault(alloc, scope, types, import, &d.item)? {
        Some(rule) => Ok(Some(rule)),
        None => {
            add_import(alloc, scope, import, d)?;
            Ok(None)
        }
    }
}

/// An import: the least rule that it breaks, or else it is added.
pub fn define_import(
    alloc: Global,
    scope: &mut Scope,
    types: &mut TypeTable,
    import: &ComponentImport,
) -> Result<Option<u32>, NoMemory>
    ensures { IfOk result (λ rule. (around : List Space) → (s : Space) → Stands s scope.old → Covers types.old s → Judged around s (AnImport import.now) scope.new rule × Makes types.old types.new s (AnImport import.now) rule) }
{
    if !desc_stands(&scope.lengths(), import.desc) {
        return Ok(Some(3));
    }
    let d = describe(alloc, scope, types, import.desc)?;
    let rule = define_described(alloc, scope, types, import, &d)?;
    Ok(rule)
}
