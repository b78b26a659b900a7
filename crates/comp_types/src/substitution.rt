//! Pairs of resources, by which a type gets other resources and two types are matched.

ghost use Rattle.std.specs.Prelude.{◌≡◌, [], ◌∷◌, ◌++◌, ◌<◌, length, slice_get, None, Some, IfOk, OnOk, OnErr, nat_eq};
ghost use Rattle.std.specs.List.{IsDistinct};
ghost use Rattle.std.specs.Map.{keys_of};
ghost use Rattle.indexmap.specs.IndexMap.{get};
ghost use Rattle.comp_types.specs.Substitution.{partner_in, partner_of, and_pair};
ghost use Rattle.comp_types.specs.Matching.{all_same, meet, GoesOn};

use indexmap::IndexMap;
use std::alloc::Global;
use std::marker::Model;
use virt_base::NoMemory;

/// A pair of a resource that has none goes last.
fn append(pairs: &mut IndexMap<u32, u32>, resource: u32, partner: u32) -> Result<(), NoMemory>
    ensures ok { OnOk result (get nat_eq pairs.old resource ≡ None → pairs.new.entries ≡ pairs.old.entries ++ (resource, partner) ∷ []) }
    ensures err { OnErr result (pairs.new.entries ≡ pairs.old.entries) }
{
    pairs.insert(resource, partner)?;
    Ok(())
}

/// Pairs of resources, the old one and its partner, each old one once. A look-up takes the same time however many there are.
#[derive(Debug, Drop)]
pub struct Substitution {
    pairs: IndexMap<u32, u32>,
}

impl Model for Substitution {
    ghost use Rattle.std.specs.Prelude.{List, ℕ};

    ghost Value = { List (ℕ × ℕ) };

    ghost view = { λ s. s.pairs.entries };
}

impl Substitution {
    /// No pairs, which takes no memory.
    pub fn empty(alloc: Global) -> Substitution
        ensures { result ≡ [] }
    {
        Substitution {
            pairs: IndexMap::new(alloc),
        }
    }

    /// The resource's partner, if it has one.
    pub fn partner_of(&self, resource: u32) -> Option<u32>
        ensures { result ≡ partner_of self.now resource }
    {
        match self.pairs.get(&resource) {
            Some(partner) => Some(*partner),
            None => None,
        }
    }

    /// The resource's partner, or else the resource.
    pub fn partner(&self, resource: u32) -> u32
        ensures { result ≡ partner_in self.now resource }
    {
        match self.partner_of(resource) {
            Some(partner) => partner,
            None => resource,
        }
    }

    /// One pair more, after the others, unless the resource has a partner already.
    pub fn push(&mut self, resource: u32, partner: u32) -> Result<(), NoMemory>
        ensures ok { OnOk result (self.new ≡ and_pair self.old resource partner) }
        ensures err { OnErr result (self.new ≡ self.old) }
    {
        match self.partner_of(resource) {
            Some(_) => Ok(()),
            None => {
                append(&mut self.pairs, resource, partner)?;
                Ok(())
            }
        }
    }

    /// Gives the resource this partner: false exactly where it has another one.
    pub fn meet(&mut self, resource: u32, partner: u32) -> Result<bool, NoMemory>
        ensures { IfOk result (λ same. GoesOn same self.new (meet self.old resource partner)) }
    {
        match self.partner_of(resource) {
            Some(other) => Ok(other == partner),
            None => {
                append(&mut self.pairs, resource, partner)?;
                Ok(true)
            }
        }
    }

    /// The same pairs.
    pub fn copy(&self) -> Result<Substitution, NoMemory>
        ensures { IfOk result (λ copy. copy ≡ self.now) }
    {
        Ok(Substitution {
            pairs: self.pairs.clone()?,
        })
    }

    /// How many pairs there are. No resource stands first in two of them.
    pub fn len(&self) -> usize
        ensures len { result ≡ length self.now }
        ensures distinct { IsDistinct nat_eq (keys_of self.now) }
    {
        self.pairs.len()
    }

    /// The pair at an index.
    pub fn pair(&self, index: usize) -> (u32, u32)
        requires { index < length self.now }
        ensures { slice_get self.now index ≡ Some result }
    {
        match self.pairs.get_index(index) {
            Some((resource, partner)) => (*resource, *partner),
            None => unreachable!(),
        }
    }
}

/// Whether each resource is its own partner.
pub fn are_same(by: &Substitution) -> bool
    ensures { result ≡ all_same by.now }
{
    for i in 0..by.len() {
        let (resource, partner) = by.pair(i);
        if resource != partner {
            return false;
        }
    }
    true
}
