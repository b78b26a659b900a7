//! Lists of resources in which each stands once, by the order in which they came.

ghost use Rattle.std.specs.Prelude.{◌≡◌, [], ◌∷◌, not, OnOk, IfOk};
ghost use Rattle.comp_types.specs.GivenResources.{is_among, without};
ghost use Rattle.comp_types.specs.Rules.{is_filled};
ghost use Rattle.type_relations.specs.Once.{and_each, and_once};

use indexmap::IndexSet;
use std::alloc::Global;
use std::marker::Model;
use virt_base::NoMemory;

/// Resources in order, each once. Whether one is there takes the same time however many there are.
#[derive(Debug, Drop)]
pub struct Resources {
    numbers: IndexSet<u32>,
}

impl Model for Resources {
    ghost use Rattle.std.specs.Prelude.{List, ℕ};

    ghost Value = { List ℕ };

    ghost view = { λ r. r.numbers.keys };
}

impl Resources {
    /// None, which takes no memory.
    pub fn none(alloc: Global) -> Resources
        ensures { result ≡ [] }
    {
        Resources {
            numbers: IndexSet::new(alloc),
        }
    }

    /// Adds one after the others, unless it is there.
    pub fn push(&mut self, resource: u32) -> Result<(), NoMemory>
        ensures { OnOk result (self.new ≡ and_once self.old resource) }
    {
        self.numbers.insert(resource)?;
        Ok(())
    }

    /// Whether it is among them.
    pub fn has(&self, resource: u32) -> bool
        ensures { result ≡ is_among self.now resource }
    {
        self.numbers.contains(&resource)
    }

    /// All of them in order.
    pub fn as_slice(&self) -> &[u32]
        ensures { result.now ≡ self.now }
    {
        self.numbers.as_slice()
    }

    pub fn is_empty(&self) -> bool
        ensures { result ≡ not (is_filled self.now) }
    {
        self.as_slice().is_empty()
    }

    /// The resources of a list.
    pub fn of(alloc: Global, list: &[u32]) -> Result<Resources, NoMemory>
        ensures { IfOk result (λ rs. rs ≡ and_each [] list.now) }
    {
        let mut all = Resources::none(alloc);
        for resource in list {
            all.push(*resource)?;
        }
        Ok(all)
    }

    fn push_unless(&mut self, resource: u32, others: &Resources) -> Result<(), NoMemory>
        ensures { OnOk result (self.new ≡ and_each self.old (without others.now (resource ∷ []))) }
    {
        if others.has(resource) {
            return Ok(());
        }
        self.push(resource)?;
        Ok(())
    }

    /// Adds each of these that is not among others.
    pub fn push_without(&mut self, these: &Resources, others: &Resources) -> Result<(), NoMemory>
        ensures { OnOk result (self.new ≡ and_each self.old (without others.now these.now)) }
    {
        for resource in these.as_slice() {
            self.push_unless(*resource, others)?;
        }
        Ok(())
    }
}
