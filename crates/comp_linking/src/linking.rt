//! A component is linked: the walk over its sections makes the plans, and the modules are taken out of its tree.

ghost use Rattle.std.specs.Prelude.{◌≡◌, [], IfOk};
ghost use Rattle.comp_grammar.specs.Trees.{plain};
ghost use Rattle.comp_link.specs.Linking.{group_of};
ghost use Rattle.comp_link.specs.Plans.{plan_of};
ghost use Rattle.comp_link.specs.Groups.{linked_group};
ghost use Rattle.comp_link.specs.Planned.{plan_in};
ghost use Rattle.comp_types.specs.Added.{after_tree, root};
ghost use Rattle.comp_types.specs.Validity.{IsValidComponent};

use crate::planner::Planner;
use crate::sections::plan_sections;
use crate::take_modules;
use comp_link::Linked;
use std::alloc::Global;
use virt_base::{Items, NoMemory};
use wasm_ast::Component;

/// The linked component, in memory and time in proportion to the component: modules are moved out of its tree, and a component that is
/// instantiated often stands in it once.
pub fn link(alloc: Global, component: Component) -> Result<Linked, NoMemory>
    requires { IsValidComponent (plain component) }
    ensures plan { IfOk result (λ linked. plan_in linked ≡ plan_of (plain component)) }
    ensures imports { IfOk result (λ linked. linked.imports ≡ (after_tree [] root (plain component)).imports) }
    ensures group { IfOk result (λ linked. linked_group linked ≡ group_of (plain component)) }
{
    let mut planner = Planner::root(alloc);
    plan_sections(alloc, &mut planner, component.sections.as_slice())?;
    let Planner {
        scopes,
        inner,
        components,
        ..
    } = planner;
    let imports = scopes.into_inner().imports.into_entries();
    let modules = take_modules(alloc, component)?;
    let components = Items::new(components);
    let items = Items::new(inner.items);
    Ok(Linked {
        modules,
        components,
        items,
        imports,
    })
}
