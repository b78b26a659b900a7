//! Whether a type is the one at a place, by the places of their parts.

ghost use Rattle.std.specs.Prelude.{◌≡◌, slice_get, Some, IfOk};
ghost use Rattle.std.specs.Bool.{OnTrue};
ghost use Rattle.wit_types.specs.Plain.{plain};
ghost use Rattle.type_table.specs.Slots.{slots_of};
ghost use Rattle.type_table.specs.Tables.{trees, Leads, AreLinks, IsSound};
ghost use Rattle.type_table.specs.Nodes.{link_at};

use crate::slots::{form_number, same_name, slot_at, slot_count};
use crate::table::TypeTable;
use comp_types::{Substitution, are_same, match_value};
use std::alloc::Global;
use virt_base::NoMemory;
use wit_types::WitType;

/// Whether two types are the same, resource for resource.
fn is_same_value(alloc: Global, a: &WitType, b: &WitType) -> Result<bool, NoMemory>
    ensures { IfOk result (λ same. OnTrue same (plain a.now ≡ plain b.now)) }
{
    let mut by = Substitution::empty(alloc);
    if !match_value(&mut by, a, b)? {
        return Ok(false);
    }
    Ok(are_same(&by))
}

/// The place of the part at an index, if it has one.
pub fn link_at(links: &[Option<usize>], index: usize) -> Option<usize>
    ensures { result ≡ link_at links.now index }
{
    match links.get(index) {
        Some(link) => *link,
        None => None,
    }
}

impl TypeTable {
    /// Whether two parts have the same type: where both have a place, whether it is the same place.
    fn is_same_part(
        &self,
        alloc: Global,
        a: &WitType,
        at: Option<usize>,
        b: &WitType,
        other: Option<usize>,
    ) -> Result<bool, NoMemory>
        ensures { IfOk result (λ same. Leads (trees self.now) at (Some (plain a.now)) → Leads (trees self.now) other (Some (plain b.now)) → OnTrue same (plain a.now ≡ plain b.now)) }
    {
        match (at, other) {
            (Some(at), Some(other)) => Ok(at == other),
            (None, None) => {
                let same = is_same_value(alloc, a, b)?;
                Ok(same)
            }
            (Some(_), None) => Ok(false),
            (None, Some(_)) => Ok(false),
        }
    }

    /// Whether two types have the same part at an index.
    fn is_same_slot(
        &self,
        alloc: Global,
        a: &WitType,
        links: &[Option<usize>],
        b: &WitType,
        others: &[Option<usize>],
        index: usize,
    ) -> Result<bool, NoMemory>
        ensures { IfOk result (λ same. AreLinks (trees self.now) links.now (slots_of (plain a.now)) → AreLinks (trees self.now) others.now (slots_of (plain b.now)) → OnTrue same (slice_get (slots_of (plain a.now)) index ≡ slice_get (slots_of (plain b.now)) index)) }
    {
        let Some(a) = slot_at(a, index) else {
            return Ok(false);
        };
        let Some(b) = slot_at(b, index) else {
            return Ok(false);
        };
        if !same_name(a.name, b.name) {
            return Ok(false);
        }
        match (a.ty, b.ty) {
            (None, None) => Ok(true),
            (Some(x), Some(y)) => {
                let same = self.is_same_part(
                    alloc,
                    x,
                    link_at(links, index),
                    y,
                    link_at(others, index),
                )?;
                Ok(same)
            }
            (Some(_), None) => Ok(false),
            (None, Some(_)) => Ok(false),
        }
    }

    /// Whether two types of one form have the same parts.
    fn are_same_slots(
        &self,
        alloc: Global,
        a: &WitType,
        links: &[Option<usize>],
        b: &WitType,
        others: &[Option<usize>],
    ) -> Result<bool, NoMemory>
        ensures { IfOk result (λ same. AreLinks (trees self.now) links.now (slots_of (plain a.now)) → AreLinks (trees self.now) others.now (slots_of (plain b.now)) → OnTrue same (slots_of (plain a.now) ≡ slots_of (plain b.now))) }
    {
        let count = slot_count(a);
        if count != slot_count(b) {
            return Ok(false);
        }
        for index in 0..count {
            if !self.is_same_slot(alloc, a, links, b, others, index)? {
                return Ok(false);
            }
        }
        Ok(true)
    }

    /// Whether a type is the one at a place.
    pub fn is_same(
        &self,
        alloc: Global,
        ty: &WitType,
        links: &[Option<usize>],
        at: usize,
    ) -> Result<bool, NoMemory>
        ensures { IfOk result (λ same. IsSound self.now → AreLinks (trees self.now) links.now (slots_of (plain ty.now)) → OnTrue same (slice_get (trees self.now) at ≡ Some (plain ty.now))) }
    {
        let Some(node) = self.node(at) else {
            return Ok(false);
        };
        let other = node.known.ty();
        let form = form_number(ty);
        if form != form_number(other) {
            return Ok(false);
        }
        if form == 0 {
            let same = is_same_value(alloc, ty, other)?;
            return Ok(same);
        }
        let same = self.are_same_slots(alloc, ty, links, other, node.links.as_slice())?;
        Ok(same)
    }
}
