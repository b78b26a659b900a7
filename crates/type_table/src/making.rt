//! Value types with other resources: what stands in a table in many places is made once, and stands there too.

ghost use Rattle.std.specs.Prelude.{◌≡◌, map, option_map, is_some, slice_get, Contains, Some, IfOk, IfSome, OnErr};
ghost use Rattle.wit_types.specs.Plain.{Plain, plain, fields_of, plain_result};
ghost use Rattle.comp_types.specs.Known.{AreKnownOf};
ghost use Rattle.comp_types.specs.Substitution.{partner_in, value_with, parts_with, answer_with, func_with};
ghost use Rattle.comp_facts.specs.Keys.{key_of, keys_in};
ghost use Rattle.comp_facts.specs.Facts.{IsAnswerOf};
ghost use Rattle.type_table.specs.Slots.{Part, slots_of};
ghost use Rattle.type_table.specs.Tables.{Types, trees, Leads, AreLinks, IsSound, Has, HasParts, HasOwnParts, HasAnswer, HasFunc, Grew};
ghost use Rattle.type_table.specs.Nodes.{placed, AreBelow, IsBelow, HasEach, IsLonger};
ghost use Rattle.type_table.specs.Retyped.{Fits, retyped, value_of, values_of};

use crate::rebuilt::{add_field, rebuilt};
use crate::same::link_at;
use crate::slots::{form_number, slot_count};
use crate::table::{Node, TypeTable, part_type, share};
use comp_facts::{Facts, FuncFacts};
use comp_types::{KnownFunc, KnownParts, KnownValue, Substitution};
use std::alloc::Global;
use std::collections::BTreeMap;
use std::marker::Model;
use std::rc::Rc;
use virt_base::{Items, NoMemory};
use wit_types::{Field, Fields, FuncType, WitType, copy_type};

/// A place, and what was made of the type there.
#[derive(Debug, Drop)]
pub struct Made {
    at: usize,
    new: Rc<KnownValue>,
}

/// A table, a substitution, and what was made so far of types of the table.
#[derive(Debug, Drop)]
pub struct Making<'a> {
    table: TypeTable,
    by: &'a Substitution,
    made: Vec<Made>,
    /// Where in the list stands what was made of the type at a place.
    found: BTreeMap<usize, usize>,
}

impl<'a> Model for Making<'a> {
    ghost use Rattle.std.specs.Prelude.{All};
    ghost use Rattle.comp_types.specs.Substitution.{partner_in};
    ghost use Rattle.type_table.specs.Tables.{IsSound};
    ghost use Rattle.type_table.specs.Walks.{Walk, walk_code};
    ghost use Rattle.type_table.specs.Made.{IsMadeAt};

    ghost Value = { Walk };

    ghost coded = { walk_code };

    ghost view = { λ m. record { types = m.table; by = m.by.now } };

    ghost invariant = { λ m. IsSound m.table → All (IsMadeAt m.table (partner_in m.by.now)) m.made.items };
}

fn copy_links(alloc: Global, links: &[Option<usize>]) -> Result<Items<Option<usize>>, NoMemory>
    ensures { IfOk result (λ copy. copy ≡ links.now) }
{
    Ok(Items::new(Vec::from_slice(alloc, links)?))
}

fn share_func(known: &Rc<KnownFunc>) -> Result<Rc<KnownFunc>, NoMemory>
    ensures { IfOk result (λ same. same.value ≡ known.now.value) }
{
    Ok(known.clone()?)
}

impl<'a> Making<'a> {
    ghost use Rattle.type_table.specs.Made.{MadeOf};

    /// Nothing is made yet.
    pub fn new(alloc: Global, table: TypeTable, by: &'a Substitution) -> Making<'a>
        ensures types { result.types ≡ table }
        ensures by { result.by ≡ by.now }
    {
        Making {
            table,
            by,
            made: Vec::new(alloc),
            found: BTreeMap::new(alloc),
        }
    }

    /// The table, with what was made.
    pub fn into_table(self) -> TypeTable
        ensures { result ≡ self.entry.types }
    {
        self.table
    }

    /// The resource's partner, or else the resource.
    pub fn partner(&self, resource: u32) -> u32
        ensures { result ≡ partner_in self.now.by resource }
    {
        self.by.partner(resource)
    }

    /// What was made of the type at a place.
    fn found(&self, at: usize) -> Result<Option<Rc<KnownValue>>, NoMemory>
        ensures { IfOk result (λ found. IfSome found (λ new. IsSound self.now.types → MadeOf self.now.types (partner_in self.now.by) at new.value)) }
    {
        let Some(index) = self.found.get(&at) else {
            return Ok(None);
        };
        match self.made.get(*index) {
            None => Ok(None),
            Some(made) => if made.at == at {
                Ok(Some(share(&made.new)?))
            } else {
                Ok(None)
            },
        }
    }

    /// Keeps what was made of the type at a place.
    fn keep(&mut self, at: usize, new: Rc<KnownValue>) -> Result<(), NoMemory>
        requires { IsSound self.old.types → MadeOf self.old.types (partner_in self.old.by) at new.value }
        ensures { self.new ≡ self.old }
    {
        let index = self.made.len();
        self.made.push(Made { at, new })?;
        self.found.insert(at, index)?;
        Ok(())
    }

    /// The type at a place, with the places of its parts.
    fn node_at(&self, alloc: Global, at: usize) -> Result<Option<Node>, NoMemory>
        ensures node { IfOk result (λ node. option_map placed node ≡ slice_get self.now.types at) }
        ensures below { IfOk result (λ node. IfSome node (λ n. AreBelow at n.links)) }
    {
        match self.table.node(at) {
            None => Ok(None),
            Some(node) => {
                let known = share(&node.known)?;
                let links = copy_links(alloc, node.links.as_slice())?;
                Ok(Some(Node { known, links }))
            }
        }
    }

    /// The type with other resources, as it is written out.
    fn written_with(&mut self, alloc: Global, ty: &WitType) -> Result<Rc<KnownValue>, NoMemory>
        ensures by { self.new.by ≡ self.old.by }
        ensures longer { IsLonger self.old.types self.new.types }
        ensures grew { IsSound self.old.types → Grew self.old.types self.new.types }
        ensures made { IfOk result (λ new. IsSound self.old.types → new.value ≡ value_with (partner_in self.old.by) (plain ty.now)) }
        ensures has { IfOk result (λ new. IsSound self.old.types → Has self.new.types new.value) }
    {
        let by = self.by;
        let new = self.table.add_tree(alloc, ty, by)?;
        Ok(new)
    }

    /// Adds what was made to the table, and gives it as it stands there.
    fn add(&mut self, alloc: Global, new: KnownValue) -> Result<Rc<KnownValue>, NoMemory>
        ensures value { IfOk result (λ same. HasOwnParts self.old.types new → same.value ≡ new) }
        ensures by { self.new.by ≡ self.old.by }
        ensures longer { IsLonger self.old.types self.new.types }
        ensures has { IfOk result (λ same. HasOwnParts self.old.types new → Grew self.old.types self.new.types × Has self.new.types new) }
        ensures err { OnErr result (self.new ≡ self.old) }
    {
        let new = Rc::new(alloc, new)?;
        let same = self.table.add(alloc, new)?;
        Ok(same)
    }

    /// The type with these types of parts.
    fn remade(
        &mut self,
        alloc: Global,
        ty: &WitType,
        parts: &[Option<Rc<KnownValue>>],
    ) -> Result<Rc<KnownValue>, NoMemory>
        requires { Fits (slots_of (plain ty.now)) (values_of parts.now) }
        ensures by { self.new.by ≡ self.old.by }
        ensures longer { IsLonger self.old.types self.new.types }
        ensures grew { IsSound self.old.types → HasEach self.old.types (values_of parts.now) → Grew self.old.types self.new.types }
        ensures made { IfOk result (λ new. IsSound self.old.types → HasEach self.old.types (values_of parts.now) → new.value ≡ retyped (plain ty.now) (values_of parts.now)) }
        ensures has { IfOk result (λ new. IsSound self.old.types → HasEach self.old.types (values_of parts.now) → Has self.new.types new.value) }
    {
        let new = rebuilt(alloc, ty, parts)?;
        let new = self.add(alloc, new)?;
        Ok(new)
    }

    /// The types of parts with other resources.
    #[cycle(node_with)]
    fn parts_with(
        &mut self,
        alloc: Global,
        ty: &WitType,
        links: &[Option<usize>],
        below: usize,
    ) -> Result<Vec<Option<Rc<KnownValue>>>, NoMemory>
        requires { AreBelow below links.now }
        ensures by { self.new.by ≡ self.old.by }
        ensures longer { IsLonger self.old.types self.new.types }
        ensures grew { IsSound self.old.types → Grew self.old.types self.new.types }
        ensures fits { IfOk result (λ parts. Fits (slots_of (plain ty.now)) (values_of parts.items)) }
        ensures made { IfOk result (λ parts. IsSound self.old.types → AreLinks (trees self.old.types) links.now (slots_of (plain ty.now)) → values_of parts.items ≡ map (λ (p : Part). answer_with (partner_in self.old.by) p.1) (slots_of (plain ty.now))) }
        ensures has { IfOk result (λ parts. IsSound self.old.types → HasEach self.new.types (values_of parts.items)) }
    {
        let mut parts = Vec::new(alloc);
        for index in 0..slot_count(ty) {
            let part = self.slot_with(alloc, part_type(ty, index), link_at(links, index), below)?;
            parts.push(part)?;
        }
        Ok(parts)
    }

    /// The type of a part with other resources, if it has one.
    #[cycle(node_with)]
    fn slot_with(
        &mut self,
        alloc: Global,
        ty: Option<&WitType>,
        link: Option<usize>,
        below: usize,
    ) -> Result<Option<Rc<KnownValue>>, NoMemory>
        requires { IsBelow below link }
        ensures by { self.new.by ≡ self.old.by }
        ensures longer { IsLonger self.old.types self.new.types }
        ensures grew { IsSound self.old.types → Grew self.old.types self.new.types }
        ensures fits { IfOk result (λ new. is_some (option_map (λ t. plain t.now) ty.entry) ≡ is_some (value_of new)) }
        ensures made { IfOk result (λ new. IsSound self.old.types → Leads (trees self.old.types) link (option_map (λ t. plain t.now) ty.entry) → value_of new ≡ answer_with (partner_in self.old.by) (option_map (λ t. plain t.now) ty.entry)) }
        ensures has { IfOk result (λ new. IsSound self.old.types → HasAnswer self.new.types (value_of new)) }
    {
        match ty {
            None => Ok(None),
            Some(ty) => {
                let new = self.part_with(alloc, ty, link, below)?;
                Ok(Some(new))
            }
        }
    }

    /// The type of a part with other resources, found by its place if it has one.
    #[cycle(node_with)]
    fn part_with(
        &mut self,
        alloc: Global,
        ty: &WitType,
        link: Option<usize>,
        below: usize,
    ) -> Result<Rc<KnownValue>, NoMemory>
        requires { IsBelow below link }
        ensures by { self.new.by ≡ self.old.by }
        ensures longer { IsLonger self.old.types self.new.types }
        ensures grew { IsSound self.old.types → Grew self.old.types self.new.types }
        ensures made { IfOk result (λ new. IsSound self.old.types → Leads (trees self.old.types) link (Some (plain ty.now)) → new.value ≡ value_with (partner_in self.old.by) (plain ty.now)) }
        ensures has { IfOk result (λ new. IsSound self.old.types → Has self.new.types new.value) }
    {
        match link {
            None => {
                let new = self.written_with(alloc, ty)?;
                Ok(new)
            }
            Some(at) => {
                let new = self.node_with(alloc, ty, at)?;
                Ok(new)
            }
        }
    }

    /// The type at a place with other resources; where there is none, that of this type.
    #[cycle(node_with)]
    fn node_with(
        &mut self,
        alloc: Global,
        ty: &WitType,
        at: usize,
    ) -> Result<Rc<KnownValue>, NoMemory>
        ensures by { self.new.by ≡ self.old.by }
        ensures longer { IsLonger self.old.types self.new.types }
        ensures grew { IsSound self.old.types → Grew self.old.types self.new.types }
        ensures made { IfOk result (λ new. IsSound self.old.types → slice_get (trees self.old.types) at ≡ Some (plain ty.now) → new.value ≡ value_with (partner_in self.old.by) (plain ty.now)) }
        ensures has { IfOk result (λ new. IsSound self.old.types → Has self.new.types new.value) }
    {
        if let Some(new) = self.found(at)? {
            return Ok(new);
        }
        let Some(node) = self.node_at(alloc, at)? else {
            let new = self.written_with(alloc, ty)?;
            return Ok(new);
        };
        let new = self.known_with(alloc, &node.known, node.links.as_slice(), at)?;
        self.keep(at, share(&new)?)?;
        Ok(new)
    }

    /// A type of the table with other resources: itself, where it has no handle.
    #[cycle(node_with)]
    fn known_with(
        &mut self,
        alloc: Global,
        known: &Rc<KnownValue>,
        links: &[Option<usize>],
        below: usize,
    ) -> Result<Rc<KnownValue>, NoMemory>
        requires { AreBelow below links.now }
        ensures by { self.new.by ≡ self.old.by }
        ensures longer { IsLonger self.old.types self.new.types }
        ensures grew { IsSound self.old.types → Grew self.old.types self.new.types }
        ensures made { IfOk result (λ new. IsSound self.old.types → AreLinks (trees self.old.types) links.now (slots_of known.now.value) → new.value ≡ value_with (partner_in self.old.by) known.now.value) }
        ensures has { IfOk result (λ new. IsSound self.old.types → Contains (trees self.old.types) known.now.value → Has self.new.types new.value) }
    {
        let facts = known.facts();
        if !facts.handles {
            let same = share(known)?;
            return Ok(same);
        }
        let ty = known.ty();
        if form_number(ty) == 0 {
            let new = self.written_with(alloc, ty)?;
            return Ok(new);
        }
        let parts = self.parts_with(alloc, ty, links, below)?;
        let new = self.remade(alloc, ty, parts.as_slice())?;
        Ok(new)
    }

    /// The type with other resources, found by its key.
    fn keyed_with(
        &mut self,
        alloc: Global,
        ty: &WitType,
        key: u64,
    ) -> Result<Rc<KnownValue>, NoMemory>
        ensures by { self.new.by ≡ self.old.by }
        ensures grew { IsSound self.old.types → Grew self.old.types self.new.types }
        ensures made { IfOk result (λ new. key ≡ key_of (plain ty.now) → Has self.old.types (plain ty.now) → (new.value ≡ value_with (partner_in self.old.by) (plain ty.now)) × Has self.new.types new.value) }
    {
        let place = self.table.place(ty, key);
        let below = self.table.len();
        let new = self.part_with(alloc, ty, place, below)?;
        Ok(new)
    }

    /// The value type with other resources: itself, where it has no handle.
    pub fn value_with(
        &mut self,
        alloc: Global,
        known: &Rc<KnownValue>,
    ) -> Result<Rc<KnownValue>, NoMemory>
        ensures by { self.new.by ≡ self.old.by }
        ensures grew { Has self.old.types known.now.value → Grew self.old.types self.new.types }
        ensures made { IfOk result (λ new. Has self.old.types known.now.value → (new.value ≡ value_with (partner_in self.old.by) known.now.value) × Has self.new.types new.value) }
    {
        let facts = known.facts();
        if !facts.handles {
            let same = share(known)?;
            return Ok(same);
        }
        let new = self.keyed_with(alloc, known.ty(), facts.key)?;
        Ok(new)
    }

    /// The parameters with other resources.
    fn params_with(
        &mut self,
        alloc: Global,
        params: &[Field],
        keys: &[u64],
    ) -> Result<(Vec<Field>, KnownParts), NoMemory>
        requires { keys.now ≡ keys_in (fields_of params.now) }
        ensures by { self.new.by ≡ self.old.by }
        ensures grew { IsSound self.old.types → Grew self.old.types self.new.types }
        ensures kept { IfOk result (λ made. AreKnownOf (fields_of made.0.items) made.1) }
        ensures made { IfOk result (λ made. IsSound self.old.types → HasParts self.old.types (fields_of params.now) → (fields_of made.0.items ≡ parts_with (partner_in self.old.by) (fields_of params.now)) × HasParts self.new.types (fields_of made.0.items)) }
    {
        let mut items = Vec::new(alloc);
        let mut known = KnownParts::none(alloc);
        for index in 0..params.len() {
            let param = &params[index];
            let new = self.keyed_with(alloc, &param.ty, keys[index])?;
            add_field(alloc, &mut items, &mut known, &param.name, &new)?;
        }
        Ok((items, known))
    }

    /// The type of an answer with other resources, if there is one.
    fn answer_with(
        &mut self,
        alloc: Global,
        ty: &Option<WitType>,
        facts: &Option<Facts>,
    ) -> Result<(Option<WitType>, Option<Facts>), NoMemory>
        requires { IsAnswerOf (plain_result ty.now) facts.now }
        ensures by { self.new.by ≡ self.old.by }
        ensures grew { IsSound self.old.types → Grew self.old.types self.new.types }
        ensures kept { IfOk result (λ made. IsAnswerOf (plain_result made.0) made.1) }
        ensures made { IfOk result (λ made. IsSound self.old.types → HasAnswer self.old.types (plain_result ty.now) → (plain_result made.0 ≡ answer_with (partner_in self.old.by) (plain_result ty.now)) × HasAnswer self.new.types (plain_result made.0)) }
    {
        match (ty, facts) {
            (None, None) => Ok((None, None)),
            (Some(ty), Some(facts)) => {
                let new = self.keyed_with(alloc, ty, facts.key)?;
                Ok((Some(copy_type(alloc, new.ty())?), Some(*new.facts())))
            }
            (None, Some(_)) => unreachable!(),
            (Some(_), None) => unreachable!(),
        }
    }

    /// The type of a function with other resources: itself, where it has no handle.
    pub fn func_with(
        &mut self,
        alloc: Global,
        known: &Rc<KnownFunc>,
    ) -> Result<Rc<KnownFunc>, NoMemory>
        ensures by { self.new.by ≡ self.old.by }
        ensures grew { HasFunc self.old.types known.now.value → Grew self.old.types self.new.types }
        ensures made { IfOk result (λ new. HasFunc self.old.types known.now.value → (new.value ≡ func_with (partner_in self.old.by) known.now.value) × HasFunc self.new.types new.value) }
    {
        let facts = known.facts();
        if !facts.has_handle() {
            let same = share_func(known)?;
            return Ok(same);
        }
        let ty = known.ty();
        let (items, params) = self.params_with(alloc, &ty.params.items, known.keys())?;
        let (result, answer) = self.answer_with(alloc, &ty.result, &facts.answer)?;
        let ty = FuncType {
            params: Fields { items },
            result,
        };
        let facts = FuncFacts {
            params: params.facts,
            answer,
        };
        Ok(Rc::new(alloc, KnownFunc::new(ty, facts, params.keys))?)
    }
}
