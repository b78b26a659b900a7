//! Instantiated components: whether arguments meet the imports, and the instance that is made, with new numbers for its own resources.

ghost use Rattle.std.specs.Prelude.{◌≡◌, List, IfOk, OnOk, slice_get, true};
ghost use Rattle.std.specs.Bool.{Decides};
ghost use Rattle.wasm_ast.specs.declared.component.Instance.TheVariants.{Instantiate};
ghost use Rattle.comp_types.specs.Added.{and_instantiated};
ghost use Rattle.comp_types.specs.Definitions.{AnInstance};
ghost use Rattle.comp_types.specs.Rules.{MeetsComponent, instance_stands, lengths_of};
ghost use Rattle.comp_types.specs.Spaces.{NestedComponent, Space};
ghost use Rattle.comp_scopes.specs.Judged.{Judged};
ghost use Rattle.comp_scopes.specs.Stands.{IsNested, Stands};
ghost use Rattle.comp_types.specs.Items.{End};
ghost use Rattle.comp_instances.specs.Instances.{IsKept, IsMade, IsMadeAt};
ghost use Rattle.type_table.specs.Anew.{HasInstantiated, Makes};
ghost use Rattle.type_table.specs.Covers.{Covers, HasNested};
ghost use Rattle.type_table.specs.Tables.{Grew, HasEntries};

use crate::give_numbers;
use crate::given::add_given;
use crate::inline::named_items;
use crate::made::Made;
use comp_indexes::names_differ;
use comp_scopes::{KnownComponent, Scope};
use comp_types::{InstanceEntries, InstanceType, Substitution};
use std::alloc::Global;
use std::rc::Rc;
use type_relations::{entries_with, is_given};
use type_table::TypeTable;
use virt_base::NoMemory;
use wasm_ast::NamedItem;

/// The instance of a component with these arguments, whose own resources have the numbers from the next one on.
fn instantiate(
    alloc: Global,
    types: &mut TypeTable,
    component: &KnownComponent,
    args: &InstanceEntries,
    next: u32,
) -> Result<Made, NoMemory>
    ensures { IfOk result (λ made. (c : NestedComponent) → IsNested c component.now → HasNested types.old c → IsMade c args.now next made × IsKept types.old types.new made) }
{
    let mut by = Substitution::empty(alloc);
    add_given(&mut by, args, component.imports.as_slice())?;
    let fresh = give_numbers(alloc, by, component.own.as_slice(), next)?;
    let entries = entries_with(alloc, types, &component.exports, &fresh.by)?;
    let instance = Rc::new(alloc, InstanceType { entries })?;
    Ok(Made {
        instance,
        next: fresh.next,
    })
}

fn make_nothing(alloc: Global, next: u32) -> Result<Made, NoMemory>
    ensures { IfOk result (λ made. (made.instance.value.entries ≡ End) × (made.next ≡ next)) }
{
    let entries = InstanceEntries::empty(alloc);
    let instance = Rc::new(alloc, InstanceType { entries })?;
    Ok(Made { instance, next })
}

/// The instance of the component at an index; without exports where there is none.
fn instance_of(
    alloc: Global,
    scope: &Scope,
    types: &mut TypeTable,
    component: u32,
    args: &InstanceEntries,
) -> Result<Made, NoMemory>
    ensures { IfOk result (λ made. (s : Space) → Stands s scope.now → Covers types.old s → IsMadeAt s (slice_get s.components component) args.now made × IsKept types.old types.new made) }
{
    match scope.component_at(component) {
        None => {
            let made = make_nothing(alloc, scope.next)?;
            Ok(made)
        }
        Some(known) => {
            let made = instantiate(alloc, types, known.get(), args, scope.next)?;
            Ok(made)
        }
    }
}

fn add_instantiated(
    alloc: Global,
    scope: &mut Scope,
    types: &mut TypeTable,
    component: u32,
    args: &InstanceEntries,
) -> Result<(), NoMemory>
    ensures { OnOk result ((s : Space) → Stands s scope.old → Covers types.old s → Stands (and_instantiated s (slice_get s.components component) args.now) scope.new × Grew types.old types.new × HasInstantiated types.new s (slice_get s.components component) args.now) }
{
    let made = instance_of(alloc, scope, types, component, args)?;
    scope.add_instance(made.instance)?;
    scope.next = made.next;
    Ok(())
}

/// Whether the imports of a component, if it is there, are given.
fn are_given(
    alloc: Global,
    scope: &Scope,
    types: &TypeTable,
    component: u32,
    args: &InstanceEntries,
) -> Result<bool, NoMemory>
    ensures { IfOk result (λ fits. (s : Space) → Stands s scope.now → Covers types.now s → HasEntries types.now args.now → Decides fits (MeetsComponent args.now (slice_get s.components component))) }
{
    match scope.component_at(component) {
        None => Ok(true),
        Some(known) => {
            let fits = is_given(alloc, types, args, &known.get().imports)?;
            Ok(fits)
        }
    }
}

/// An instantiated component whose indexes stand: the least rule that it breaks, or else it is added.
pub fn define_instantiated(
    alloc: Global,
    scope: &mut Scope,
    types: &mut TypeTable,
    component: u32,
    args: &[NamedItem],
) -> Result<Option<u32>, NoMemory>
    ensures { IfOk result (λ rule. (around : List Space) → (s : Space) → Stands s scope.old → Covers types.old s → instance_stands (lengths_of s) (Instantiate component args.now) ≡ true → Judged around s (AnInstance (Instantiate component args.now)) scope.new rule × Makes types.old types.new s (AnInstance (Instantiate component args.now)) rule) }
{
    let differ = names_differ(alloc, args)?;
    if !differ {
        return Ok(Some(23));
    }
    let entries = named_items(alloc, scope, args)?;
    let fits = are_given(alloc, scope, types, component, &entries)?;
    if !fits {
        return Ok(Some(23));
    }
    add_instantiated(alloc, scope, types, component, &entries)?;
    Ok(None)
}
