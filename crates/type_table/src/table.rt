//! The table: value types, each once and after its parts, with the places of these.

ghost use Rattle.std.specs.Prelude.{◌≡◌, ◌<◌, [], ◌∷◌, ◌++◌, length, option_map, slice_get, slice_index, Contains, Some, IfOk, IfSome, OnOk, OnErr};
ghost use Rattle.std.specs.Bool.{OnTrue};
ghost use Rattle.wit_types.specs.Plain.{Plain, plain};
ghost use Rattle.comp_facts.specs.Keys.{key_of};
ghost use Rattle.type_table.specs.Slots.{slots_of};
ghost use Rattle.std.specs.BTreeMap.{get};
ghost use Rattle.std.specs.Ordering.{nat_cmp};
ghost use Rattle.type_table.specs.Nodes.{types_in, type_at, count_types, IsKeyOf, IsAt, IsPlaceOf, IsThere, AreApart};
ghost use Rattle.type_table.specs.Tables.{trees, needs_place, Leads, AreLinks, IsSound, Has, HasOwnParts, HasAnswer, Grew};

use crate::slots::{form_number, slot_at, slot_count};
use comp_types::KnownValue;
use std::alloc::Global;
use std::collections::BTreeMap;
use std::marker::Model;
use std::rc::Rc;
use virt_base::{Items, NoMemory};
use wit_types::WitType;

/// A type of a table, and for each part of it in order the place of the part's type. Primitives and handles have no place.
#[derive(Debug, Drop)]
pub struct Node {
    pub known: Rc<KnownValue>,
    pub links: Items<Option<usize>>,
}

/// Value types in the order in which they came, each after its parts.
#[derive(Debug, Drop)]
pub struct TypeTable {
    nodes: Vec<Node>,
    /// Where the type of a key stands.
    places: BTreeMap<u64, usize>,
}

impl Model for TypeTable {
    ghost use Rattle.type_table.specs.Tables.{Types};
    ghost use Rattle.type_table.specs.Codes.{types_code};
    ghost use Rattle.type_table.specs.Nodes.{types_in, AreNodes};

    ghost Value = { Types };

    ghost coded = { types_code };

    ghost view = { λ t. types_in t.nodes.items };

    ghost invariant = { λ t. AreNodes (types_in t.nodes.items) t.places };
}

/// Whether a type stands in tables: all but primitives and handles do.
fn needs_place(ty: &WitType) -> bool
    ensures { result ≡ needs_place (plain ty.now) }
{
    match ty {
        WitType::Flags(_) => true,
        _ => form_number(ty) > 0,
    }
}

/// The type of the part at an index, if it has one.
pub fn part_type(ty: &WitType, index: usize) -> Option<&WitType>
    ensures { option_map (λ t. plain t.now) result ≡ type_at (slots_of (plain ty.now)) index }
{
    match slot_at(ty, index) {
        None => None,
        Some(slot) => slot.ty,
    }
}

/// The key at an index.
fn key_at(keys: &[u64], index: usize) -> u64
    ensures { result ≡ slice_index keys.now index }
{
    match keys.get(index) {
        None => 0,
        Some(key) => *key,
    }
}

/// How many types a part has: one or none.
fn count_types(part: Option<&WitType>) -> usize
    ensures { result ≡ count_types (option_map (λ t. plain t.now) part.entry) }
{
    match part {
        None => 0,
        Some(_) => 1,
    }
}

fn own_key(known: &KnownValue) -> u64
    ensures { result ≡ key_of known.now }
{
    known.facts().key
}

pub fn share(known: &Rc<KnownValue>) -> Result<Rc<KnownValue>, NoMemory>
    ensures { IfOk result (λ same. same.value ≡ known.now.value) }
{
    Ok(known.clone()?)
}

impl TypeTable {
    ghost use Rattle.type_table.specs.Nodes.{placed, IsBelow, AreBelow, IsLonger};

    /// No types, which takes no memory.
    pub fn none(alloc: Global) -> TypeTable
        ensures { result ≡ [] }
    {
        TypeTable {
            nodes: Vec::new(alloc),
            places: BTreeMap::new(alloc),
        }
    }

    /// How many types there are, each of which stands there once.
    pub fn len(&self) -> usize
        ensures length { result ≡ length self.now }
        ensures once { AreApart (trees self.now) }
    {
        self.nodes.len()
    }

    /// The type at a place.
    pub fn node(&self, at: usize) -> Option<&Node>
        ensures node { option_map (λ node. placed node.now) result ≡ slice_get self.now at }
        ensures below { IfSome result (λ node. AreBelow at node.now.links) }
    {
        self.nodes.get(at)
    }

    /// The place of the one type that has a key.
    fn place_of(&self, key: u64) -> Option<usize>
        ensures within { IfSome result (λ at. at < length self.now) }
        ensures one { (ty : Plain) → key ≡ key_of ty → Contains (trees self.now) ty → IsAt (trees self.now) ty result }
    {
        self.places.get(&key).copied()
    }

    /// The place of a type that stands in the table, found by its key: each has one but primitives and handles.
    pub fn place(&self, ty: &WitType, key: u64) -> Option<usize>
        ensures within { IfSome result (λ at. at < length self.now) }
        ensures one { key ≡ key_of (plain ty.now) → Has self.now (plain ty.now) → IsPlaceOf (trees self.now) (plain ty.now) result }
    {
        if needs_place(ty) {
            self.place_of(key)
        } else {
            None
        }
    }

    /// The place of a part's type, found by its key: none where the part has no type.
    fn link(&self, part: Option<&WitType>, key: u64) -> Option<usize>
        ensures below { IsBelow (length self.now) result }
        ensures leads { IsKeyOf (option_map (λ t. plain t.now) part.entry) key → HasAnswer self.now (option_map (λ t. plain t.now) part.entry) → Leads (trees self.now) result (option_map (λ t. plain t.now) part.entry) }
    {
        match part {
            None => None,
            Some(ty) => self.place(ty, key),
        }
    }

    /// For each part of a type the place of its type.
    fn links(&self, alloc: Global, known: &KnownValue) -> Result<Items<Option<usize>>, NoMemory>
        ensures below { IfOk result (λ links. AreBelow (length self.now) links) }
        ensures links { IfOk result (λ links. HasOwnParts self.now known.now → AreLinks (trees self.now) links (slots_of known.now)) }
    {
        let keys = known.keys();
        let mut links = Items::empty(alloc);
        let mut typed = 0;
        for index in 0..slot_count(known.ty()) {
            let part = part_type(known.ty(), index);
            links.push(self.link(part, key_at(keys, typed)))?;
            typed += count_types(part);
        }
        Ok(links)
    }

    /// The type at a place, where it is this one: `NoMemory` where it only has the same key, which seldom happens but on purpose.
    fn known_at(
        &self,
        alloc: Global,
        known: &KnownValue,
        links: &[Option<usize>],
        at: usize,
    ) -> Result<Rc<KnownValue>, NoMemory>
        ensures { IfOk result (λ same. IsSound self.now → AreLinks (trees self.now) links.now (slots_of known.now) → IsThere self.now known.now same.value) }
    {
        if !self.is_same(alloc, known.ty(), links, at)? {
            return Err(NoMemory);
        }
        match self.node(at) {
            None => Err(NoMemory),
            Some(node) => {
                let same = share(&node.known)?;
                Ok(same)
            }
        }
    }

    /// Adds a type after the others, and remembers its place.
    fn push(&mut self, known: Rc<KnownValue>, links: Items<Option<usize>>) -> Result<(), NoMemory>
        requires below { AreBelow (length self.old) links }
        requires new { (ty : Plain) → key_of known.value ≡ key_of ty → Contains (trees self.old) ty → ⊥ }
        ensures ok { OnOk result (self.new ≡ self.old ++ record { tree = known.value; links = links } ∷ []) }
        ensures err { OnErr result (self.new ≡ self.old) }
        ensures longer { OnOk result (IsLonger self.old self.new) }
    {
        let key = own_key(&known);
        self.nodes.reserve(1)?;
        self.places.insert(key, self.nodes.len())?;
        self.nodes.push_reserved(Node { known, links });
        Ok(())
    }

    /// Adds a type whose parts are there, and gives the one that stands in the table then, which is an equal one where it was there
    /// before. Where another type has its key, the answer is `NoMemory`.
    pub fn add(&mut self, alloc: Global, known: Rc<KnownValue>) -> Result<Rc<KnownValue>, NoMemory>
        ensures ok { OnOk result (HasOwnParts self.old known.value → Grew self.old self.new × Has self.new known.value) }
        ensures same { IfOk result (λ same. HasOwnParts self.old known.value → same.value ≡ known.value) }
        ensures err { OnErr result (self.new ≡ self.old) }
        ensures longer { IsLonger self.old self.new }
    {
        if !needs_place(known.ty()) {
            return Ok(known);
        }
        let links = self.links(alloc, &known)?;
        match self.place_of(own_key(&known)) {
            Some(at) => {
                let same = self.known_at(alloc, &known, links.as_slice(), at)?;
                Ok(same)
            }
            None => {
                self.push(share(&known)?, links)?;
                Ok(known)
            }
        }
    }
}
