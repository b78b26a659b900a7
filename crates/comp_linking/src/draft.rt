//! The draft of a component: what is planned of it so far, and the modules and components that it can name.

#![tactic(auto, using(comp_link::proofs::Earlier::planned))]

ghost use Rattle.std.specs.Prelude.{◌≡◌, [], List, OnOk, option_map, slice_get};
ghost use Rattle.wasm_ast.specs.Boxed.{Held};
ghost use Rattle.wasm_ast.specs.declared.module.Module.{Module};
ghost use Rattle.comp_link.specs.Plans.{followed};
ghost use Rattle.comp_link.specs.Planned.{PlannedComponent, plan_items};
ghost use Rattle.comp_linking.specs.Drafts.{some_item};

use comp_link::PlanItem;
use std::alloc::Global;
use virt_base::NoMemory;

/// What is planned of a component so far, and the numbers of the modules and components that it can name, by their indexes.
#[derive(Drop)]
pub struct Draft {
    pub modules: Vec<u32>,
    pub components: Vec<u32>,
    pub items: Vec<PlanItem>,
}

impl Draft {
    /// Nothing yet.
    pub fn new(alloc: Global) -> Draft
        ensures modules { result.modules.items ≡ [] }
        ensures components { result.components.items ≡ [] }
        ensures items { result.items.items ≡ [] }
    {
        Draft {
            modules: Vec::new(alloc),
            components: Vec::new(alloc),
            items: Vec::new(alloc),
        }
    }

    /// The number of the module at an index.
    pub fn module_at(&self, index: u32) -> Option<&u32>
        ensures { option_map (λ n. n.now) result ≡ slice_get self.now.modules.items index }
    {
        self.modules.get(index as usize)
    }

    /// The number of the component at an index.
    pub fn component_at(&self, index: u32) -> Option<&u32>
        ensures { option_map (λ n. n.now) result ≡ slice_get self.now.components.items index }
    {
        self.components.get(index as usize)
    }

    /// Adds an item, if there is one.
    pub fn add(&mut self, item: Option<PlanItem>) -> Result<(), NoMemory>
        ensures modules { OnOk result (self.new.modules.items ≡ self.old.modules.items) }
        ensures components { OnOk result (self.new.components.items ≡ self.old.components.items) }
        ensures items { OnOk result ((ms : List (Held Module)) (cs : List PlannedComponent) → plan_items ms cs self.new.items.items ≡ followed (plan_items ms cs self.old.items.items) (some_item ms cs item)) }
    {
        match item {
            None => Ok(()),
            Some(item) => {
                self.items.push(item)?;
                Ok(())
            }
        }
    }
}
