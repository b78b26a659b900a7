//! Where the types of the catalogue stand in a scope, by their indexes there.

use crate::catalogue::Catalogue;
use std::alloc::Global;
use virt_base::NoMemory;

/// Where types stand in a scope: for each number of a type its index there, if it has one.
#[derive(Drop)]
pub struct Standing {
    indexes: Vec<Option<u32>>,
}

impl Standing {
    /// No type stands anywhere.
    pub fn none(alloc: Global, catalogue: &Catalogue) -> Result<Standing, NoMemory> {
        let mut indexes = Vec::new(alloc);
        for _ in 0..catalogue.len() {
            indexes.push(None)?;
        }
        Ok(Standing { indexes })
    }

    pub fn get(&self, number: usize) -> Option<u32> {
        match self.indexes.get(number) {
            Some(index) => *index,
            None => None,
        }
    }

    /// The index of a type, or one that no scope has.
    pub fn index(&self, number: usize) -> u32 {
        self.get(number).unwrap_or(u32::MAX)
    }

    /// From now on the type stands there.
    pub fn set(&mut self, number: usize, index: u32) {
        if number < self.indexes.len() {
            self.indexes[number] = Some(index);
        }
    }
}
