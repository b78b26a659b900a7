//! Which component instance defines a resource, and the resource's destructor.

ghost use Rattle.std.specs.Prelude.{◌≡◌, ◌+◌, ◌++◌, ◌∷◌, [], length, OnOk, IfOk, option_map};
ghost use Rattle.comp_worlds.specs.Calls.{owned_by};
ghost use Rattle.instance_state.specs.Owning.{owner_of, owner_in};

use std::alloc::Global;
use virt_base::NoMemory;

/// The component instance that defines a resource, and the resource's destructor, a function of the instance's store.
#[derive(Debug, Clone, Copy)]
pub struct Owner {
    pub instance: u32,
    pub destructor: Option<u32>,
}

/// The owners of the resources from a number on; those before it are resources of imports.
#[derive(Debug, Drop)]
pub struct Owners {
    pub first: u32,
    pub items: Vec<Owner>,
}

impl Owners {
    /// No instance defines a resource; the next number is the first.
    pub fn new(alloc: Global, first: u32) -> Owners
        ensures first { result.first ≡ first }
        ensures none { result.items.items ≡ [] }
    {
        Owners {
            first,
            items: Vec::new(alloc),
        }
    }

    /// The owner of a resource; none where it is one of imports.
    pub fn owner(&self, resource: u32) -> Option<Owner>
        ensures { option_map owner_of result ≡ owner_in self.now resource }
    {
        if resource < self.first {
            return None;
        }
        self.items.get((resource - self.first) as usize).copied()
    }

    /// Whether the instance defines the resource.
    pub fn owns(&self, instance: u32, resource: u32) -> bool
        ensures { result ≡ owned_by (owner_in self.now resource) instance }
    {
        match self.owner(resource) {
            None => false,
            Some(owner) => owner.instance == instance,
        }
    }
}
