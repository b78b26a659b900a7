//! Which plan of a linked component is followed, and what stands in it: items, own resources, and the modules and components that it can
//! name.

ghost use Rattle.std.specs.Prelude.{◌≡◌, option_map, slice_get};
ghost use Rattle.wasm_ast.specs.Boxed.{Held as HeldValue};
ghost use Rattle.wasm_ast.specs.declared.module.Module.{Module as TheModule};
ghost use Rattle.comp_interp.specs.Parts.{part_items, part_own, part_limit};

use comp_link::{Linked, PlanItem};
use wasm_ast::Module;

/// Which plan of a linked component is followed.
#[derive(Debug, Clone, Copy, PartialEq, Eq)]
pub enum Part {
    /// Its own.
    Whole,
    /// That of a component that it holds, by its number.
    Held(u32),
}

impl Part {
    /// The items of the plan.
    pub fn items(self, linked: &Linked) -> &[PlanItem]
        ensures { result.now ≡ part_items linked.now self }
    {
        match self {
            Part::Whole => linked.items.as_slice(),
            Part::Held(number) => match linked.components.as_slice().get(number as usize) {
                None => &[],
                Some(plan) => plan.items.as_slice(),
            },
        }
    }

    /// The resources in the exports of a component that no import gives.
    pub fn own(self, linked: &Linked) -> &[u32]
        ensures { result.now ≡ part_own linked.now self }
    {
        match self {
            Part::Whole => &[],
            Part::Held(number) => match linked.components.as_slice().get(number as usize) {
                None => &[],
                Some(plan) => plan.own.as_slice(),
            },
        }
    }

    /// The number below which the plan names components: each names those before it.
    pub fn limit(self, linked: &Linked) -> usize
        ensures { result ≡ part_limit linked.now self }
    {
        match self {
            Part::Whole => linked.components.len(),
            Part::Held(number) => number as usize,
        }
    }
}

/// A module.
pub fn module_at(linked: &Linked, number: u32) -> Option<&Module>
    ensures { option_map (λ m. m.now) result ≡ option_map (λ (m : HeldValue TheModule). m.value) (slice_get linked.now.modules number) }
{
    match linked.modules.as_slice().get(number as usize) {
        None => None,
        Some(core_module) => Some(core_module),
    }
}
