//! What instances are given and export: items under their names, of which an instance stands by its number among those that are made.

ghost use Rattle.std.specs.Prelude.{◌≡◌, List, Some, IfOk};
ghost use Rattle.comp_link.specs.Linking.{Given as GroupGiven, Givens as GroupGivens};
ghost use Rattle.instance_making.specs.Made.{IsGiven};
ghost use Rattle.instance_making.specs.Bound.{number_of, resource_of};

use crate::named::Named;
use core_instance::Extern;
use instance_state::Target;
use virt_base::NoMemory;

/// What stands under a name: a function by where it leads, an instance by its number among those that are made, a resource by its
/// number, or another type.
#[derive(Debug, Drop)]
pub enum Given {
    Func(Target),
    Instance(usize),
    Resource(u32),
    Type,
}

/// What an instance is given, or exports.
pub type Givens = Named<Given>;

/// What instances export, each by its number; an instance names those before it alone.
pub type MadeInstances = Vec<Givens>;

/// The items of a core instance.
pub type CoreItems = Named<Extern>;

impl Given {
    /// The same item.
    pub fn share(&self) -> Result<Given, NoMemory>
        ensures { IfOk result (λ same. (made : List GroupGivens) (g : GroupGiven) → IsGiven made self.now g → IsGiven made same g) }
    {
        match self {
            Given::Func(target) => Ok(Given::Func(target.share()?)),
            Given::Instance(number) => Ok(Given::Instance(*number)),
            Given::Resource(resource) => Ok(Given::Resource(*resource)),
            Given::Type => Ok(Given::Type),
        }
    }
    /// The number of an instance.
    pub fn number(&self) -> Option<usize>
        ensures { result ≡ number_of (Some self.now) }
    {
        match self {
            Given::Func(_) => None,
            Given::Instance(number) => Some(*number),
            Given::Resource(_) => None,
            Given::Type => None,
        }
    }

    /// The number of a resource.
    pub fn resource(&self) -> Option<u32>
        ensures { result ≡ resource_of (Some self.now) }
    {
        match self {
            Given::Func(_) => None,
            Given::Instance(_) => None,
            Given::Resource(resource) => Some(*resource),
            Given::Type => None,
        }
    }
}
