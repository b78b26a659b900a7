//! The items of a plan, as code holds them: what is made, in order, when a component is instantiated (Component Model, Explainer.md,
//! "Instance Definitions").

use comp_types::{ItemType, KnownFunc};
use std::rc::Rc;
use virt_base::{Items, Text};
use wasm_ast::{CanonOption, CoreArg, CoreExport, CoreFunc, CoreSort, Sort};

/// What an argument or an export is: a function or an instance by its index, a resource by its number in the component, or another
/// type.
#[derive(Debug, Clone, Copy, PartialEq, Eq)]
pub enum ItemAt {
    Func(u32),
    Instance(u32),
    Resource(u32),
    Type,
}

/// An argument of an instantiation, or an item of an inline instance.
#[derive(Debug, Drop)]
pub struct PlanArg {
    pub name: Text,
    pub item: ItemAt,
}

/// What is made when a component is instantiated (Component Model, Explainer.md, "Instance Definitions" and "Canonical Definitions").
/// Each item stands at the next index of its sort. Types have the numbers of resources of the component's own index spaces.
#[derive(Debug, Drop)]
pub enum PlanItem {
    /// A core instance of the module of this number.
    OfModule {
        number: u32,
        args: Items<CoreArg>,
    },
    /// A core instance of items.
    OfCoreItems {
        exports: Items<CoreExport>,
    },
    /// An item of a core instance.
    CoreItemOf {
        sort: CoreSort,
        instance: u32,
        name: Text,
    },
    /// An instance of the component of this number, whose own resources have, in their order, the numbers from `first` on here.
    OfComponent {
        number: u32,
        first: u32,
        args: Items<PlanArg>,
    },
    /// An instance of items.
    OfItems {
        exports: Items<PlanArg>,
    },
    /// An item of an instance.
    ItemOf {
        sort: Sort,
        instance: u32,
        name: Text,
    },
    /// A resource of this number, with the core function that is its destructor.
    NewResource {
        resource: u32,
        destructor: Option<u32>,
    },
    /// A function that is lifted from a core function.
    Lifts {
        func: u32,
        options: Items<CanonOption>,
        ty: Rc<KnownFunc>,
    },
    /// A core function of this type that is lowered from a function.
    Lowers {
        func: u32,
        options: Items<CanonOption>,
        ty: CoreFunc,
    },
    /// `resource.new`, as a core function.
    MakesResource(u32),
    /// `resource.drop`, as a core function.
    DropsResource(u32),
    /// `resource.rep`, as a core function.
    ReadsResource(u32),
    /// An import.
    Imports {
        name: Text,
        item: ItemType,
    },
    /// An export, with the type that it states, if it states one.
    Exports {
        name: Text,
        item: ItemAt,
        stated: Option<ItemType>,
    },
}
