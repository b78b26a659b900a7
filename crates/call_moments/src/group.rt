//! What the instances of a component have in common: canonical functions, the owners of resources, and the resources of imports.

ghost use Rattle.std.specs.Prelude.{◌≡◌, IfOk, option_map};
ghost use Rattle.instance_state.specs.Targets.{func_of};
ghost use Rattle.call_moments.specs.Grouped.{canon_in};

use host_port::Resource;
use indexmap::IndexMap;
use instance_state::{Canon, Owners};
use std::alloc::Global;
use virt_base::NoMemory;

/// What the instances of a component have in common.
#[derive(Debug, Drop)]
pub struct Group {
    /// The canonical functions of each instance, by the numbers that its store has for them.
    pub canons: Vec<Vec<Canon>>,
    pub owners: Owners,
    /// The resources of imports, each by the import in which it stands first.
    pub imported: IndexMap<u32, Resource>,
}

impl Group {
    /// There are no instances and no resources.
    pub fn new(alloc: Global) -> Group {
        Group {
            canons: Vec::new(alloc),
            owners: Owners::new(alloc, 0),
            imported: IndexMap::new(alloc),
        }
    }

    /// The canonical function of a number.
    pub fn canon(&self, instance: u32, number: u32) -> Result<Option<Canon>, NoMemory>
        ensures { IfOk result (λ canon. option_map func_of canon ≡ canon_in self.now.canons.items instance number) }
    {
        let Some(canons) = self.canons.get(instance as usize) else {
            return Ok(None);
        };
        match canons.get(number as usize) {
            None => Ok(None),
            Some(canon) => Ok(Some(canon.share()?)),
        }
    }
}
