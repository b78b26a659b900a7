//! The resources that an instance type declares, as a set, so that each is tested without a walk along the list.

ghost use Rattle.std.specs.Prelude.{◌≡◌, IfOk};
ghost use Rattle.comp_types.specs.Matching.{is_own};

use indexmap::IndexSet;
use std::alloc::Global;
use std::marker::Model;
use virt_base::NoMemory;

/// Resources that an instance type declares, each once.
#[derive(Debug, Drop)]
pub struct Declared {
    numbers: IndexSet<u32>,
}

impl Model for Declared {
    ghost use Rattle.std.specs.Prelude.{List, ℕ};

    ghost Value = { List ℕ };

    ghost view = { λ d. d.numbers.keys };
}

impl Declared {
    pub fn of(alloc: Global, own: &[u32]) -> Result<Declared, NoMemory>
        ensures { IfOk result (λ d. is_own d ≡ is_own own.now) }
    {
        let mut numbers = IndexSet::new(alloc);
        for resource in own {
            numbers.insert(*resource)?;
        }
        Ok(Declared { numbers })
    }

    pub fn has(&self, resource: u32) -> bool
        ensures { result ≡ is_own self.now resource }
    {
        self.numbers.contains(&resource)
    }
}
