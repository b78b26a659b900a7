//! The modules are moved out of a component's tree, in the order in which they stand, since the linked component names them by number.

#![tactic(auto, using(comp_grammar::proofs::PlainLemmas::plains, crate::proofs::ModuleLemmas::taken))]

ghost use Rattle.std.specs.Prelude.{◌≡◌, ◌++◌, ◌+◌, ◌<◌, IfOk, OnOk, reverse};
ghost use Rattle.comp_grammar.specs.Trees.{plain, plain_section, plain_sections};
ghost use Rattle.comp_linking.specs.Modules.{modules_in, modules_in_part, weight, weight_of_part};

use std::alloc::Global;
use virt_base::{Items, NoMemory};
use wasm_ast::{Boxed, Component, Module, Section};

/// Takes a section apart: a module, the sections of a component, or nothing.
fn take_section(
    modules: &mut Vec<Boxed<Module>>,
    sections: &mut Vec<Section>,
    section: Section,
) -> Result<(), NoMemory>
    ensures modules { OnOk result (modules.new.items ++ reverse (modules_in (plain_sections sections.new.items)) ≡ modules.old.items ++ (reverse (modules_in_part (plain_section section)) ++ reverse (modules_in (plain_sections sections.old.items)))) }
    ensures weight { OnOk result (weight (plain_sections sections.new.items) < weight (plain_sections sections.old.items) + weight_of_part (plain_section section)) }
{
    match section {
        Section::CoreModule(_, module) => {
            modules.push(module)?;
            Ok(())
        }
        Section::Nested(_, component) => {
            let mut inner = component.sections;
            sections.append(&mut inner)?;
            Ok(())
        }
        Section::CoreInstances(_) => Ok(()),
        Section::Instances(_) => Ok(()),
        Section::Aliases(_) => Ok(()),
        Section::Types(_) => Ok(()),
        Section::Canons(_) => Ok(()),
        Section::Imports(_) => Ok(()),
        Section::Exports(_) => Ok(()),
        Section::Custom(_) => Ok(()),
    }
}

/// The modules of a component and of those in it, in the order in which they stand. Each is moved out of the tree.
pub fn take_modules(alloc: Global, component: Component) -> Result<Items<Boxed<Module>>, NoMemory>
    ensures { IfOk result (λ modules. modules ≡ modules_in (plain component)) }
{
    let mut modules = Vec::new(alloc);
    let mut sections = component.sections;
    while let Some(section) = sections.pop() {
        take_section(&mut modules, &mut sections, section)?;
    }
    modules.reverse();
    Ok(Items::new(modules))
}
