//! Core instances in the core index spaces: the rules that are asked of one, and what it exports (Component Model, Binary.md,
//! "Instance Definitions").

ghost use Rattle.std.specs.Prelude.{◌≡◌, List, ℕ, IfOk, OnOk, slice_get, ◌∷◌, []};
ghost use Rattle.std.specs.Option.{option_or};
ghost use Rattle.wasm_ast.specs.declared.component.CoreInstance.TheVariants.{Instantiate};
ghost use Rattle.comp_types.specs.Added.{after, core_exports, core_named, exports_in};
ghost use Rattle.comp_types.specs.CoreMatching.{core_look_up};
ghost use Rattle.comp_types.specs.Definitions.{ACoreInstance};
ghost use Rattle.comp_types.specs.Faults.{fault};
ghost use Rattle.comp_types.specs.Rules.{core_arguments_given, core_arguments_meet, lengths_of};
ghost use Rattle.comp_types.specs.Spaces.{Space};
ghost use Rattle.comp_scopes.specs.Arguments.{arguments_fault};
ghost use Rattle.comp_scopes.specs.Found.{HasExports, found};
ghost use Rattle.comp_scopes.specs.Scopes.{IsCoreOf};

use crate::arguments::Arguments;
use crate::by_name::CoreMap;
use crate::core_scope::CoreScope;
use comp_indexes::{core_instance_stands, texts_differ};
use comp_types::Lengths;
use core_validate::Shared;
use std::alloc::Global;
use virt_base::NoMemory;
use wasm_ast::{CoreArg, CoreExport, CoreInstance};

/// Rules 4 and 5 of the arguments of a module.
fn arguments_fault(
    alloc: Global,
    scope: &CoreScope,
    index: u32,
    args: &[CoreArg],
) -> Result<Option<u32>, NoMemory>
    ensures { IfOk result (λ rule. (s : Space) → IsCoreOf s scope.now → rule ≡ arguments_fault (core_arguments_given s (ACoreInstance (Instantiate index args.now))) (core_arguments_meet s (ACoreInstance (Instantiate index args.now)))) }
{
    if !texts_differ(alloc, args)? {
        return Ok(Some(4));
    }
    let Some(module) = scope.module_at(index) else {
        return Ok(None);
    };
    let imports = module.get().imports.as_slice();
    let arguments = Arguments::new(alloc, args)?;
    if !arguments.gives_each(scope, imports) {
        return Ok(Some(4));
    }
    if !arguments.meets_each(scope, imports) {
        return Ok(Some(5));
    }
    Ok(None)
}

/// The least rule that a core instance breaks.
pub fn core_instance_fault(
    alloc: Global,
    scope: &CoreScope,
    lengths: &Lengths,
    instance: &CoreInstance,
) -> Result<Option<u32>, NoMemory>
    ensures { IfOk result (λ rule. (around : List Space) → (s : Space) → IsCoreOf s scope.now → lengths.now ≡ lengths_of s → rule ≡ fault around s (ACoreInstance instance.now)) }
{
    if !core_instance_stands(lengths, instance) {
        return Ok(Some(3));
    }
    match instance {
        CoreInstance::Instantiate { module, args } => {
            arguments_fault(alloc, scope, *module, args.as_slice())
        }
        CoreInstance::Inline { exports } => {
            if texts_differ(alloc, exports.as_slice())? {
                Ok(None)
            } else {
                Ok(Some(6))
            }
        }
    }
}

/// What a module exports; nothing where there is none.
fn module_exports(alloc: Global, scope: &CoreScope, index: u32) -> Result<Shared<CoreMap>, NoMemory>
    ensures { IfOk result (λ map. (s : Space) → IsCoreOf s scope.now → HasExports (exports_in (slice_get s.core_modules index)) map) }
{
    match scope.module_at(index) {
        None => Shared::new(alloc, CoreMap::new(alloc)),
        Some(module) => module.get().exports.share(),
    }
}

/// Puts an export that is written out, if its item is there.
fn put_named(
    alloc: Global,
    map: &mut CoreMap,
    scope: &CoreScope,
    export: &CoreExport,
) -> Result<(), NoMemory>
    ensures { OnOk result ((s : Space) → IsCoreOf s scope.now → (q : List ℕ) → found map.new q ≡ option_or (core_look_up q (core_named s (export.now ∷ []))) (found map.old q)) }
{
    match scope.item_at(export.sort, export.index) {
        None => Ok(()),
        Some(item) => map.put(export.name.copy(alloc)?, item.share()?),
    }
}

/// Exports that are written out; of those with one name the first.
fn inline_exports(
    alloc: Global,
    scope: &CoreScope,
    exports: &[CoreExport],
) -> Result<CoreMap, NoMemory>
    ensures { IfOk result (λ map. (s : Space) → IsCoreOf s scope.now → HasExports (core_named s exports.now) map) }
{
    let mut map = CoreMap::new(alloc);
    let mut rest = exports;
    while let Some((export, more)) = rest.split_last() {
        put_named(alloc, &mut map, scope, export)?;
        rest = more;
    }
    Ok(map)
}

fn exports_of(
    alloc: Global,
    scope: &CoreScope,
    instance: &CoreInstance,
) -> Result<Shared<CoreMap>, NoMemory>
    ensures { IfOk result (λ map. (s : Space) → IsCoreOf s scope.now → HasExports (core_exports s instance.now) map) }
{
    match instance {
        CoreInstance::Instantiate { module, args: _ } => module_exports(alloc, scope, *module),
        CoreInstance::Inline { exports } => {
            Shared::new(alloc, inline_exports(alloc, scope, exports.as_slice())?)
        }
    }
}

/// Adds a core instance.
pub fn add_core_instance(
    alloc: Global,
    scope: &mut CoreScope,
    instance: &CoreInstance,
) -> Result<(), NoMemory>
    ensures { OnOk result ((around : List Space) → (s : Space) → IsCoreOf s scope.old → IsCoreOf (after around s (ACoreInstance instance.now)) scope.new) }
{
    let exports = exports_of(alloc, scope, instance)?;
    scope.add_instance(exports)
}
