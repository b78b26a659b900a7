//! Definitions of instances: one that is written out, or an instantiated component (Component Model, Binary.md, "Instance Definitions").

ghost use Rattle.std.specs.Prelude.{◌≡◌, List, IfOk, OnOk, true};
ghost use Rattle.wasm_ast.specs.declared.component.Instance.TheVariants.{Inline};
ghost use Rattle.comp_types.specs.Items.{InstanceItem};
ghost use Rattle.comp_types.specs.Added.{named_items};
ghost use Rattle.comp_types.specs.Definitions.{AnInstance};
ghost use Rattle.comp_types.specs.Faults.{fault};
ghost use Rattle.comp_types.specs.Rules.{instance_stands, lengths_of};
ghost use Rattle.comp_types.specs.Spaces.{Space, and_item};
ghost use Rattle.comp_scopes.specs.Judged.{Judged};
ghost use Rattle.comp_scopes.specs.Stands.{Stands};
ghost use Rattle.type_table.specs.Anew.{Makes};
ghost use Rattle.type_table.specs.Covers.{Covers};

use crate::inline::{named_items, names_fit};
use crate::instantiate::define_instantiated;
use comp_indexes::{instance_stands, names_are_legal, names_differ};
use comp_scopes::Scope;
use comp_types::InstanceType;
use std::alloc::Global;
use std::rc::Rc;
use type_table::TypeTable;
use virt_base::NoMemory;
use wasm_ast::{Instance, NamedItem};

/// The least rule that an inline instance breaks, whose indexes stand.
fn inline_fault(
    alloc: Global,
    scope: &Scope,
    exports: &[NamedItem],
) -> Result<Option<u32>, NoMemory>
    ensures { IfOk result (λ rule. (around : List Space) → (s : Space) → Stands s scope.now → instance_stands (lengths_of s) (Inline exports.now) ≡ true → rule ≡ fault around s (AnInstance (Inline exports.now))) }
{
    let differ = names_differ(alloc, exports)?;
    if !differ {
        return Ok(Some(6));
    }
    if !names_are_legal(exports) {
        return Ok(Some(20));
    }
    let fit = names_fit(alloc, scope, exports)?;
    if !fit {
        return Ok(Some(24));
    }
    Ok(None)
}

fn add_inline(alloc: Global, scope: &mut Scope, exports: &[NamedItem]) -> Result<(), NoMemory>
    ensures { OnOk result ((s : Space) → Stands s scope.old → Stands (and_item s (InstanceItem (named_items s exports.now))) scope.new) }
{
    let entries = named_items(alloc, scope, exports)?;
    let made = Rc::new(alloc, InstanceType { entries })?;
    scope.add_instance(made)?;
    Ok(())
}

/// An inline instance whose indexes stand: the least rule that it breaks, or else it is added.
fn define_inline(
    alloc: Global,
    scope: &mut Scope,
    exports: &[NamedItem],
) -> Result<Option<u32>, NoMemory>
    ensures { IfOk result (λ rule. (around : List Space) → (s : Space) → Stands s scope.old → instance_stands (lengths_of s) (Inline exports.now) ≡ true → Judged around s (AnInstance (Inline exports.now)) scope.new rule) }
{
    match inline_fault(alloc, scope, exports)? {
        Some(rule) => Ok(Some(rule)),
        None => {
            add_inline(alloc, scope, exports)?;
            Ok(None)
        }
    }
}

/// An instance: the least rule that it breaks, or else it is added.
pub fn define_instance(
    alloc: Global,
    scope: &mut Scope,
    types: &mut TypeTable,
    instance: &Instance,
) -> Result<Option<u32>, NoMemory>
    ensures { IfOk result (λ rule. (around : List Space) → (s : Space) → Stands s scope.old → Covers types.old s → Judged around s (AnInstance instance.now) scope.new rule × Makes types.old types.new s (AnInstance instance.now) rule) }
{
    if !instance_stands(&scope.lengths(), instance) {
        return Ok(Some(3));
    }
    match instance {
        Instance::Instantiate { component, args } => {
            let rule = define_instantiated(alloc, scope, types, *component, args.as_slice())?;
            Ok(rule)
        }
        Instance::Inline { exports } => {
            let rule = define_inline(alloc, scope, exports.as_slice())?;
            Ok(rule)
        }
    }
}
