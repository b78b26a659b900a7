//! What the definition of a core instance plans: one of a module, or one of named items.

ghost use Rattle.std.specs.Prelude.{◌≡◌, List, IfOk};
ghost use Rattle.wasm_ast.specs.Boxed.{Held};
ghost use Rattle.wasm_ast.specs.declared.component.CoreInstance.TheVariants.{Instantiate};
ghost use Rattle.wasm_ast.specs.declared.module.Module.{Module};
ghost use Rattle.comp_link.specs.Plans.{Scope as Named, of_core_instance};
ghost use Rattle.comp_link.specs.Planned.{PlannedComponent};
ghost use Rattle.comp_linking.specs.Drafts.{NamesModules, some_item};

use crate::arguments::{copy_core_args, copy_core_exports};
use crate::draft::Draft;
use comp_link::PlanItem;
use std::alloc::Global;
use virt_base::NoMemory;
use wasm_ast::{CoreArg, CoreInstance};

/// An instance of the module at an index; nothing where there is none.
fn module_instance(
    alloc: Global,
    draft: &Draft,
    index: u32,
    args: &[CoreArg],
) -> Result<Option<PlanItem>, NoMemory>
    ensures { IfOk result (λ item. (ms : List (Held Module)) (cs : List PlannedComponent) (scope : Named) → NamesModules ms scope draft.now.modules.items → some_item ms cs item ≡ of_core_instance scope (Instantiate index args.now)) }
{
    match draft.module_at(index) {
        None => Ok(None),
        Some(number) => {
            let args = copy_core_args(alloc, args)?;
            Ok(Some(PlanItem::OfModule {
                number: *number,
                args,
            }))
        }
    }
}

/// What a core instance plans.
pub fn core_instance_item(
    alloc: Global,
    draft: &Draft,
    instance: &CoreInstance,
) -> Result<Option<PlanItem>, NoMemory>
    ensures { IfOk result (λ item. (ms : List (Held Module)) (cs : List PlannedComponent) (scope : Named) → NamesModules ms scope draft.now.modules.items → some_item ms cs item ≡ of_core_instance scope instance.now) }
{
    match instance {
        CoreInstance::Instantiate { module, args } => {
            let item = module_instance(alloc, draft, *module, args.as_slice())?;
            Ok(item)
        }
        CoreInstance::Inline { exports } => {
            let exports = copy_core_exports(alloc, exports.as_slice())?;
            Ok(Some(PlanItem::OfCoreItems { exports }))
        }
    }
}
