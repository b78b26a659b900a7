//! The named types that stand in a type, taken one after another while it is written.

use crate::catalogue::Catalogue;
use wasi_table::Meaning;
use wit_types::WitType;

/// The named types with which a type is written, in the order in which they stand in it, as far as they are left.
#[derive(Clone, Copy)]
pub struct Queue<'a> {
    catalogue: &'a Catalogue,
    numbers: &'a [usize],
    at: usize,
}

impl<'a> Queue<'a> {
    pub fn new(catalogue: &'a Catalogue, numbers: &'a [usize]) -> Queue<'a> {
        Queue {
            catalogue,
            numbers,
            at: 0,
        }
    }

    /// Takes the next named type, whichever it is.
    pub fn take(&mut self) -> Option<usize> {
        let number = *self.numbers.get(self.at)?;
        self.at = self.at.saturating_add(1);
        Some(number)
    }

    /// Takes the next named type where it is of this form: so it is this type, since two of one form that stand one after
    /// another have names both.
    pub fn take_like(&mut self, ty: &WitType) -> Option<usize> {
        let number = *self.numbers.get(self.at)?;
        if !self.is_like(number, ty) {
            return None;
        }
        self.at = self.at.saturating_add(1);
        Some(number)
    }

    /// The named types with which one of these types is written.
    pub fn parts_of(&self, number: usize) -> Queue<'a> {
        match self.catalogue.get(number) {
            Some(listed) => Queue::new(self.catalogue, listed.parts.as_slice()),
            None => Queue {
                at: usize::MAX,
                ..*self
            },
        }
    }

    fn is_like(&self, number: usize, ty: &WitType) -> bool {
        match self.catalogue.get(number) {
            Some(listed) => match &listed.named.meaning {
                Meaning::Value(meant) => is_like(meant, ty),
                Meaning::Kind(_) => false,
            },
            None => false,
        }
    }
}

/// Whether two types are of one form, for those forms of which a listed type may be.
fn is_like(a: &WitType, b: &WitType) -> bool {
    match (a, b) {
        (WitType::U64, WitType::U64) => true,
        (WitType::Tuple(a), WitType::Tuple(b)) => a.items.len() == b.items.len(),
        (WitType::Record(_), WitType::Record(_)) => true,
        (WitType::Variant(_), WitType::Variant(_)) => true,
        (WitType::Flags(_), WitType::Flags(_)) => true,
        (WitType::Enum(_), WitType::Enum(_)) => true,
        _ => false,
    }
}
