//! The catalogue: the named types of all listed interfaces of WASI 0.2, each with a number. A type that interfaces use of another one has
//! one number in all of them.

use std::alloc::Global;
use virt_base::{NoMemory, Text};
use wasi_listed::{INTERFACES, describe};
use wasi_table::{Interface, Meaning, NamedType, Use};

/// A named type of a listed interface.
#[derive(Drop)]
pub struct ListedType {
    /// The interface that defines it.
    pub interface: u32,
    pub named: NamedType,
    /// The numbers of the types with which it is written, in order.
    pub parts: Vec<usize>,
}

/// The named types of all listed interfaces, numbered in the order of the interfaces, and in each interface in its order.
#[derive(Drop)]
pub struct Catalogue {
    types: Vec<ListedType>,
    /// For each interface the types that it knows: uses, then its own.
    known: Vec<Vec<usize>>,
}

impl Catalogue {
    pub fn new(alloc: Global) -> Result<Catalogue, NoMemory> {
        let mut catalogue = Catalogue {
            types: Vec::new(alloc),
            known: Vec::new(alloc),
        };
        for number in 0..INTERFACES {
            let interface = describe(alloc, number)?;
            catalogue.add(alloc, number, interface)?;
        }
        Ok(catalogue)
    }

    /// How many types there are.
    pub fn len(&self) -> usize {
        self.types.len()
    }

    /// The type with a number.
    pub fn get(&self, number: usize) -> Option<&ListedType> {
        self.types.get(number)
    }

    /// The number of the type that an interface knows by a name.
    pub fn named(&self, interface: u32, name: &Text) -> Option<usize> {
        let known = self.known.get(interface as usize)?;
        self.among(known, name)
    }

    /// The numbers of the types that an interface knows by names, in order.
    pub fn numbers(
        &self,
        alloc: Global,
        interface: u32,
        names: &[Text],
    ) -> Result<Vec<usize>, NoMemory> {
        let mut numbers = Vec::new(alloc);
        for name in names {
            if let Some(number) = self.named(interface, name) {
                numbers.push(number)?;
            }
        }
        Ok(numbers)
    }

    /// The number of the type that is a kind of resources.
    pub fn kind(&self, kind: u32) -> Option<usize> {
        for number in 0..self.types.len() {
            if self.is_kind(number, kind) {
                return Some(number);
            }
        }
        None
    }

    fn is_kind(&self, number: usize, kind: u32) -> bool {
        match self.types.get(number) {
            Some(ty) => match &ty.named.meaning {
                Meaning::Kind(other) => *other == kind,
                Meaning::Value(_) => false,
            },
            None => false,
        }
    }

    fn among(&self, numbers: &[usize], name: &Text) -> Option<usize> {
        for number in numbers {
            if self.has_name(*number, name) {
                return Some(*number);
            }
        }
        None
    }

    fn has_name(&self, number: usize, name: &Text) -> bool {
        match self.types.get(number) {
            Some(ty) => ty.named.name.is_same(name),
            None => false,
        }
    }

    fn add(&mut self, alloc: Global, number: u32, interface: Interface) -> Result<(), NoMemory> {
        let Interface { uses, types, .. } = interface;
        let mut known = self.used(alloc, uses.as_slice())?;
        for named in types.into_vec() {
            self.add_type(alloc, number, &mut known, named)?;
        }
        self.known.push(known)?;
        Ok(())
    }

    fn used(&self, alloc: Global, uses: &[Use]) -> Result<Vec<usize>, NoMemory> {
        let mut known = Vec::new(alloc);
        for used in uses {
            if let Some(number) = self.named(used.interface, &used.name) {
                known.push(number)?;
            }
        }
        Ok(known)
    }

    fn add_type(
        &mut self,
        alloc: Global,
        interface: u32,
        known: &mut Vec<usize>,
        named: NamedType,
    ) -> Result<(), NoMemory> {
        let mut parts = Vec::new(alloc);
        for name in named.names.as_slice() {
            if let Some(number) = self.among(known, name) {
                parts.push(number)?;
            }
        }
        known.push(self.types.len())?;
        self.types.push(ListedType {
            interface,
            named,
            parts,
        })?;
        Ok(())
    }
}
