//! Types that are found in no table: with all that they are made of they come into it.
#![tactic(auto, using(wit_types::proofs::PlainLemmas::plains))]

ghost use Rattle.std.specs.Prelude.{◌≡◌, map, option_map, is_some, IfOk};
ghost use Rattle.wit_types.specs.Plain.{plain};
ghost use Rattle.comp_types.specs.Substitution.{partner_in, value_with, answer_with};
ghost use Rattle.type_table.specs.Slots.{Part, slots_of};
ghost use Rattle.type_table.specs.Tables.{IsSound, Has, HasOwnParts, HasAnswer, Grew};
ghost use Rattle.type_table.specs.Nodes.{HasEach, IsLonger};
ghost use Rattle.type_table.specs.Retyped.{Fits, value_of, values_of};

use crate::rebuilt::{borrow_as, own_as, rebuilt};
use crate::slots::slot_count;
use crate::table::{TypeTable, part_type};
use comp_types::{KnownValue, Substitution};
use std::alloc::Global;
use std::rc::Rc;
use virt_base::NoMemory;
use wit_types::WitType;

impl TypeTable {
    /// The types of a type's parts with other resources.
    #[cycle(add_tree)]
    fn add_parts(
        &mut self,
        alloc: Global,
        ty: &WitType,
        by: &Substitution,
    ) -> Result<Vec<Option<Rc<KnownValue>>>, NoMemory>
        ensures fits { IfOk result (λ parts. Fits (slots_of (plain ty.now)) (values_of parts.items)) }
        ensures parts { IfOk result (λ parts. IsSound self.old → values_of parts.items ≡ map (λ (p : Part). answer_with (partner_in by.now) p.1) (slots_of (plain ty.now))) }
        ensures grew { IsSound self.old → Grew self.old self.new }
        ensures longer { IsLonger self.old self.new }
        ensures has { IfOk result (λ parts. IsSound self.old → HasEach self.new (values_of parts.items)) }
    {
        let mut parts = Vec::new(alloc);
        for index in 0..slot_count(ty) {
            let part = self.add_part(alloc, part_type(ty, index), by)?;
            parts.push(part)?;
        }
        Ok(parts)
    }

    /// The type of a part with other resources, if it has one.
    #[cycle(add_tree)]
    fn add_part(
        &mut self,
        alloc: Global,
        ty: Option<&WitType>,
        by: &Substitution,
    ) -> Result<Option<Rc<KnownValue>>, NoMemory>
        ensures fits { IfOk result (λ new. is_some (option_map (λ t. plain t.now) ty.entry) ≡ is_some (value_of new)) }
        ensures value { IfOk result (λ new. IsSound self.old → value_of new ≡ answer_with (partner_in by.now) (option_map (λ t. plain t.now) ty.entry)) }
        ensures grew { IsSound self.old → Grew self.old self.new }
        ensures longer { IsLonger self.old self.new }
        ensures has { IfOk result (λ new. IsSound self.old → HasAnswer self.new (value_of new)) }
    {
        match ty {
            None => Ok(None),
            Some(ty) => {
                let new = self.add_tree(alloc, ty, by)?;
                Ok(Some(new))
            }
        }
    }

    #[cycle(add_tree)]
    fn tree_with(
        &mut self,
        alloc: Global,
        ty: &WitType,
        by: &Substitution,
    ) -> Result<KnownValue, NoMemory>
        ensures value { IfOk result (λ new. IsSound self.old → new ≡ value_with (partner_in by.now) (plain ty.now)) }
        ensures grew { IsSound self.old → Grew self.old self.new }
        ensures longer { IsLonger self.old self.new }
        ensures has { IfOk result (λ new. IsSound self.old → HasOwnParts self.new (value_with (partner_in by.now) (plain ty.now))) }
    {
        match ty {
            WitType::Own(resource) => own_as(alloc, by.partner(*resource)),
            WitType::Borrow(resource) => borrow_as(alloc, by.partner(*resource)),
            _ => {
                let parts = self.add_parts(alloc, ty, by)?;
                rebuilt(alloc, ty, parts.as_slice())
            }
        }
    }

    /// The type with other resources, as it stands in the table then.
    #[cycle(add_tree)]
    pub fn add_tree(
        &mut self,
        alloc: Global,
        ty: &WitType,
        by: &Substitution,
    ) -> Result<Rc<KnownValue>, NoMemory>
        ensures value { IfOk result (λ new. IsSound self.old → new.value ≡ value_with (partner_in by.now) (plain ty.now)) }
        ensures grew { IsSound self.old → Grew self.old self.new }
        ensures longer { IsLonger self.old self.new }
        ensures has { IfOk result (λ new. IsSound self.old → Has self.new new.value) }
    {
        let known = Rc::new(alloc, self.tree_with(alloc, ty, by)?)?;
        let same = self.add(alloc, known)?;
        Ok(same)
    }

    /// Adds a type, and all that it is made of, and gives the type as it stands in the table then.
    pub fn add_whole(&mut self, alloc: Global, ty: &WitType) -> Result<Rc<KnownValue>, NoMemory>
        ensures value { IfOk result (λ new. IsSound self.old → new.value ≡ plain ty.now) }
        ensures grew { IsSound self.old → Grew self.old self.new }
        ensures longer { IsLonger self.old self.new }
        ensures has { IfOk result (λ new. IsSound self.old → Has self.new (plain ty.now)) }
    {
        let none = Substitution::empty(alloc);
        let known = self.add_tree(alloc, ty, &none)?;
        Ok(known)
    }
}
