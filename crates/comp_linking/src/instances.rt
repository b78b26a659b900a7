//! What the definition of an instance plans (Component Model, Binary.md, "Instance Definitions").

ghost use Rattle.std.specs.Prelude.{◌≡◌, List, IfOk};
ghost use Rattle.wasm_ast.specs.Boxed.{Held};
ghost use Rattle.wasm_ast.specs.declared.component.Instance.TheVariants.{Instantiate};
ghost use Rattle.wasm_ast.specs.declared.module.Module.{Module};
ghost use Rattle.comp_link.specs.Plans.{Scope as Named, of_instance};
ghost use Rattle.comp_link.specs.Planned.{PlannedComponent};
ghost use Rattle.comp_types.specs.Spaces.{Space};
ghost use Rattle.comp_scopes.specs.Stands.{Stands};
ghost use Rattle.comp_linking.specs.Drafts.{NamesComponents, some_item};

use crate::arguments::named_args;
use crate::draft::Draft;
use comp_link::PlanItem;
use comp_scopes::Scope;
use std::alloc::Global;
use virt_base::NoMemory;
use wasm_ast::{Instance, NamedItem};

/// An instance of the component at an index; nothing where there is none.
fn component_instance(
    alloc: Global,
    draft: &Draft,
    scope: &Scope,
    index: u32,
    args: &[NamedItem],
) -> Result<Option<PlanItem>, NoMemory>
    ensures { IfOk result (λ item. (ms : List (Held Module)) (cs : List PlannedComponent) (names : Named) (s : Space) → Stands s scope.now → NamesComponents cs names s.components draft.now.components.items → some_item ms cs item ≡ of_instance names s (Instantiate index args.now)) }
{
    match draft.component_at(index) {
        None => Ok(None),
        Some(number) => {
            let args = named_args(alloc, scope, args)?;
            Ok(Some(PlanItem::OfComponent {
                number: *number,
                first: scope.next,
                args,
            }))
        }
    }
}

/// What an instance plans.
pub fn instance_item(
    alloc: Global,
    draft: &Draft,
    scope: &Scope,
    instance: &Instance,
) -> Result<Option<PlanItem>, NoMemory>
    ensures { IfOk result (λ item. (ms : List (Held Module)) (cs : List PlannedComponent) (names : Named) (s : Space) → Stands s scope.now → NamesComponents cs names s.components draft.now.components.items → some_item ms cs item ≡ of_instance names s instance.now) }
{
    match instance {
        Instance::Instantiate { component, args } => {
            let item = component_instance(alloc, draft, scope, *component, args.as_slice())?;
            Ok(item)
        }
        Instance::Inline { exports } => {
            let exports = named_args(alloc, scope, exports.as_slice())?;
            Ok(Some(PlanItem::OfItems { exports }))
        }
    }
}
