//! A linked component as data: modules and plans, which name one another by number.

use crate::items::PlanItem;
use comp_types::InstanceEntries;
use virt_base::Items;
use wasm_ast::{Boxed, Module};

/// The plan of a component that another one holds, and the resources in its exports that no import gives, each once.
#[derive(Debug, Drop)]
pub struct ComponentPlan {
    pub items: Items<PlanItem>,
    pub own: Items<u32>,
}

/// A linked component.
#[derive(Debug, Drop)]
pub struct Linked {
    /// The modules of the component and of all that it holds.
    pub modules: Items<Boxed<Module>>,
    /// The plans of all components that it holds. Each names those before it alone.
    pub components: Items<ComponentPlan>,
    /// Its own plan, which may name all of them.
    pub items: Items<PlanItem>,
    /// What it imports.
    pub imports: InstanceEntries,
}
