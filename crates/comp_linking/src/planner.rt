//! The state of the walk over a component's sections: scopes and drafts from the outside in, the count of modules, and the plans of
//! components.

ghost use Rattle.std.specs.Prelude.{◌≡◌, ◌∷◌, [], List, ℕ, option_map, slice_get};
ghost use Rattle.wasm_ast.specs.Boxed.{Held};
ghost use Rattle.wasm_ast.specs.declared.module.Module.{Module};

use crate::Draft;
use comp_defining::Scopes;
use comp_link::ComponentPlan;
use std::alloc::Global;

/// The walk over the sections of a component: index spaces and drafts of the component and of those around it, and what is planned of
/// the components before it.
#[derive(Drop)]
pub struct Planner {
    pub scopes: Scopes,
    pub inner: Draft,
    /// From the outside in.
    pub outer: Vec<Draft>,
    /// How many modules came.
    pub count: u32,
    pub components: Vec<ComponentPlan>,
}

impl Planner {
    ghost use Rattle.comp_linking.specs.Walks.{At, Walks, at_root, made};
    ghost use Rattle.comp_linking.specs.Names.{AreNamed};

    /// At the beginning of a component around which there is none.
    pub fn root(alloc: Global) -> Planner
        ensures { (ms : List (Held Module)) → Walks ms ms [] at_root result }
    {
        let scopes = Scopes::root(alloc);
        let inner = Draft::new(alloc);
        Planner {
            scopes,
            inner,
            outer: Vec::new(alloc),
            count: 0,
            components: Vec::new(alloc),
        }
    }

    /// The draft of the component that many components further out.
    pub fn draft_at(&self, count: u32) -> Option<&Draft>
        ensures { (ms todo : List (Held Module)) (outer : List At) (a : At) → Walks ms todo outer a self.now → AreNamed ms (made ms self.now.components.items) (slice_get (a ∷ outer) count) (option_map (λ d. d.now) result) }
    {
        if count == 0 {
            return Some(&self.inner);
        }
        let Some(index) = self.outer.len().checked_sub(count as usize) else {
            return None;
        };
        self.outer.get(index)
    }
}
