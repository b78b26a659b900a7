//! The types of what components import and export: functions, instances and types, with what is kept of each (Component Model,
//! Explainer.md, "Type Definitions").

ghost use Rattle.std.specs.Prelude.{◌≡◌, min, option_map, IfOk, OnOk, OnErr};

use crate::known::{KnownFunc, KnownValue};
use crate::places::Places;
use std::alloc::Global;
use std::marker::Model;
use std::rc::Rc;
use virt_base::{Items, NoMemory, Text};

/// What a component imports or exports, or an instance holds, under a name (Component Model, Explainer.md, "Type
/// Definitions"). What it points to is shared, so that a type costs no more for being named often.
#[derive(Debug, Drop)]
#[cycle(items)]
pub enum ItemType {
    Func(Rc<KnownFunc>),
    Instance(Rc<InstanceType>),
    Kind(TypeItem),
}

/// An entry of sort type.
#[derive(Debug, Drop)]
#[cycle(items)]
pub enum TypeItem {
    Resource(u32),
    Value(Rc<KnownValue>),
    Func(Rc<KnownFunc>),
    Instance(Rc<DeclaredInstance>),
}

/// An instance type, and the numbers of the resources that it declares itself.
#[derive(Debug, Drop)]
#[cycle(items)]
pub struct DeclaredInstance {
    pub own: Items<u32>,
    pub instance: Rc<InstanceType>,
}

/// What an instance exports.
#[derive(Debug, Drop)]
#[cycle(items)]
pub struct InstanceType {
    pub entries: InstanceEntries,
}

/// A name, and what stands under it.
#[derive(Debug, Drop)]
#[cycle(items)]
pub struct InstanceEntry {
    pub name: Text,
    pub ty: ItemType,
}

/// Named entries in written order, with what is kept of them.
#[derive(Debug, Drop)]
#[cycle(items)]
pub struct InstanceEntries {
    items: Vec<InstanceEntry>,
    places: Places,
    /// 101 stands for more than 100.
    depth: u32,
    /// 1,000,001 stands for more than 1,000,000.
    parts: u32,
    has_resource: bool,
    /// How many entries and parameters they have when they are written out, how many of these a walk comes by that makes other
    /// resources of theirs, and how many instances stand in one another: no answer but `NoMemory` rests on these.
    listed: u32,
    walked: u32,
    levels: u32,
}

/// More entries than these, each made anew, would take more than two gigabytes.
const MOST_WALKED: u32 = 4_194_304;

/// In more instances in one another a walk would run out of stack.
const MOST_LEVELS: u32 = 4_096;

impl Model for InstanceEntries {
    ghost use Rattle.std.specs.Prelude.{◌≡◌, min};
    ghost use Rattle.comp_types.specs.Items.{Entries};
    ghost use Rattle.comp_types.specs.Codes.{entries_code};

    ghost Value = { Entries };

    ghost coded = { entries_code };

    ghost use Rattle.comp_types.specs.Views.{entries_of};
    ghost use Rattle.comp_types.specs.Kept.{IsKept};
    ghost use Rattle.comp_types.specs.Placed.{HasPlaces};
    ghost use Rattle.comp_types.specs.Sizes.{entries_size};

    ghost view = { λ a. entries_of a.items.items };

    ghost invariant = { λ a. HasPlaces (entries_of a.items.items) a.places × IsKept (entries_of a.items.items) a.depth a.parts a.has_resource };

    ghost size = { entries_size };

    ghost use Rattle.comp_types.specs.Falls.{entries_fall};

    ghost size_decreases = { λ a h. entries_fall a.items.items };
}

impl InstanceEntries {
    ghost use Rattle.comp_types.specs.Items.{End, and_entry, look_up};
    ghost use Rattle.comp_types.specs.Measures.{entries_depth, entries_parts};
    ghost use Rattle.comp_types.specs.Resources.{entries_have_resource};
    ghost use Rattle.comp_types.specs.Views.{item_of, entries_of};

    /// No entries, which takes no memory.
    pub fn empty(alloc: Global) -> InstanceEntries
        ensures { result ≡ End }
    {
        InstanceEntries {
            items: Vec::new(alloc),
            places: Places::none(alloc),
            depth: 0,
            parts: 0,
            has_resource: false,
            listed: 0,
            walked: 0,
            levels: 0,
        }
    }

    /// The entries in written order.
    pub fn as_slice(&self) -> &[InstanceEntry]
        ensures { entries_of result.now ≡ self.now }
    {
        self.items.as_slice()
    }

    /// How deep the deepest of them is; 101 stands for more than 100.
    pub fn depth(&self) -> u32
        ensures { result ≡ min (entries_depth self.now) 101 }
    {
        self.depth
    }

    /// How many parts all of them have when they are written out; 1,000,001 stands for more than 1,000,000.
    pub fn parts(&self) -> u32
        ensures { result ≡ min (entries_parts self.now) 1000001 }
    {
        self.parts
    }

    /// Whether one of them speaks of a resource.
    pub fn has_resource(&self) -> bool
        ensures { result ≡ entries_have_resource self.now }
    {
        self.has_resource
    }

    /// How many entries and parameters they have when they are written out; no clause speaks of it.
    pub fn listed(&self) -> u32 {
        self.listed
    }

    /// How many of them a walk comes by that makes other resources of theirs; no clause speaks of it.
    pub fn walked(&self) -> u32 {
        self.walked
    }

    /// Whether memory can't be thought to suffice for a walk that makes each entry with a resource anew, as often as it stands in
    /// them.
    pub fn is_too_large(&self) -> bool {
        self.walked > MOST_WALKED
    }

    /// The first entry of that name.
    pub fn look_up(&self, name: &Text) -> Option<&ItemType>
        ensures { option_map (λ ty. item_of ty.now) result ≡ look_up name.now self.now }
    {
        match self.places.get(name) {
            Some(place) => Some(&self.items[place].ty),
            None => None,
        }
    }

    /// One entry more, after the others. Where memory runs out, or the stack would for instances in one another, nothing changes.
    pub fn push(&mut self, name: Text, ty: ItemType) -> Result<(), NoMemory>
        ensures ok { OnOk result (self.new ≡ and_entry self.old name (item_of ty)) }
        ensures err { OnErr result (self.new ≡ self.old) }
    {
        let levels = u32::max(self.levels, ty.levels());
        if levels > MOST_LEVELS {
            return Err(NoMemory);
        }
        let listed = self.listed.saturating_add(ty.listed());
        let walked = self.walked.saturating_add(ty.walked());
        let depth = u32::max(self.depth, ty.depth());
        let parts = u32::min(self.parts + ty.parts(), 1_000_001);
        let has_resource = self.has_resource | ty.has_resource();
        let name = name.into_string();
        let key = name.clone()?;
        self.items.reserve(1)?;
        self.places.add(key, self.items.len())?;
        let name = Text::from_string(name);
        self.items.push_reserved(InstanceEntry { name, ty });
        self.depth = depth;
        self.parts = parts;
        self.has_resource = has_resource;
        self.listed = listed;
        self.walked = walked;
        self.levels = levels;
        Ok(())
    }
}

/// A function counts with its parameters.
fn func_listed(ty: &KnownFunc) -> u32 {
    u32::try_from(ty.keys().len())
        .unwrap_or(u32::MAX)
        .saturating_add(1)
}

impl DeclaredInstance {
    ghost use Rattle.comp_types.specs.Items.{InstanceKind};
    ghost use Rattle.comp_types.specs.Measures.{kind_depth, kind_parts};
    ghost use Rattle.comp_types.specs.Resources.{kind_has_resource};

    fn depth(&self) -> u32
        ensures { result ≡ min (kind_depth (InstanceKind self.now.own self.now.instance.value.entries)) 101 }
    {
        u32::min(self.instance.entries.depth() + 1, 101)
    }

    fn parts(&self) -> u32
        ensures { result ≡ min (kind_parts (InstanceKind self.now.own self.now.instance.value.entries)) 1000001 }
    {
        u32::min(self.instance.entries.parts() + 1, 1_000_001)
    }

    fn has_resource(&self) -> bool
        ensures { result ≡ kind_has_resource (InstanceKind self.now.own self.now.instance.value.entries) }
    {
        !self.own.is_empty() || self.instance.entries.has_resource()
    }
}

impl TypeItem {
    ghost use Rattle.comp_types.specs.Measures.{kind_depth, kind_parts};
    ghost use Rattle.comp_types.specs.Resources.{kind_has_resource};
    ghost use Rattle.comp_types.specs.Views.{kind_of};

    /// How deep it is; 101 stands for more than 100.
    pub fn depth(&self) -> u32
        ensures { result ≡ min (kind_depth (kind_of self.now)) 101 }
    {
        match self {
            TypeItem::Resource(_) => 1,
            TypeItem::Value(ty) => ty.facts().depth,
            TypeItem::Func(ty) => ty.facts().depth(),
            TypeItem::Instance(ty) => ty.depth(),
        }
    }

    /// How many parts it has when it is written out; 1,000,001 stands for more than 1,000,000.
    pub fn parts(&self) -> u32
        ensures { result ≡ min (kind_parts (kind_of self.now)) 1000001 }
    {
        match self {
            TypeItem::Resource(_) => 1,
            TypeItem::Value(ty) => ty.facts().parts,
            TypeItem::Func(ty) => ty.facts().parts(),
            TypeItem::Instance(ty) => ty.parts(),
        }
    }

    /// Whether it speaks of a resource.
    pub fn has_resource(&self) -> bool
        ensures { result ≡ kind_has_resource (kind_of self.now) }
    {
        match self {
            TypeItem::Resource(_) => true,
            TypeItem::Value(ty) => ty.facts().handles,
            TypeItem::Func(ty) => ty.facts().has_handle(),
            TypeItem::Instance(ty) => ty.has_resource(),
        }
    }

    /// How many entries and parameters it has when it is written out, itself among them; no clause speaks of it.
    pub fn listed(&self) -> u32 {
        match self {
            TypeItem::Resource(_) => 1,
            TypeItem::Value(_) => 1,
            TypeItem::Func(ty) => func_listed(ty),
            TypeItem::Instance(ty) => ty.instance.entries.listed.saturating_add(1),
        }
    }

    /// How many of them a walk comes by that looks for resources: what speaks of none is one step.
    pub fn walked(&self) -> u32 {
        if !self.has_resource() {
            return 1;
        }
        match self {
            TypeItem::Instance(ty) => ty.instance.entries.walked.saturating_add(1),
            _ => self.listed(),
        }
    }

    fn levels(&self) -> u32 {
        match self {
            TypeItem::Resource(_) => 0,
            TypeItem::Value(_) => 0,
            TypeItem::Func(_) => 0,
            TypeItem::Instance(ty) => ty.instance.entries.levels.saturating_add(1),
        }
    }

    /// An equal type, which shares what it points to, and fails only where one owner more can't be counted.
    pub fn copy(&self) -> Result<TypeItem, NoMemory>
        ensures { IfOk result (λ copy. kind_of copy ≡ kind_of self.now) }
    {
        match self {
            TypeItem::Resource(resource) => Ok(TypeItem::Resource(*resource)),
            TypeItem::Value(ty) => Ok(TypeItem::Value(ty.clone()?)),
            TypeItem::Func(ty) => Ok(TypeItem::Func(ty.clone()?)),
            TypeItem::Instance(ty) => Ok(TypeItem::Instance(ty.clone()?)),
        }
    }
}

impl ItemType {
    ghost use Rattle.comp_types.specs.Measures.{item_depth, item_parts};
    ghost use Rattle.comp_types.specs.Resources.{item_has_resource};
    ghost use Rattle.comp_types.specs.Views.{item_of};

    /// How deep it is; 101 stands for more than 100.
    pub fn depth(&self) -> u32
        ensures { result ≡ min (item_depth (item_of self.now)) 101 }
    {
        match self {
            ItemType::Func(ty) => ty.facts().depth(),
            ItemType::Instance(ty) => u32::min(ty.entries.depth() + 1, 101),
            ItemType::Kind(kind) => kind.depth(),
        }
    }

    /// How many parts it has when it is written out; 1,000,001 stands for more than 1,000,000.
    pub fn parts(&self) -> u32
        ensures { result ≡ min (item_parts (item_of self.now)) 1000001 }
    {
        match self {
            ItemType::Func(ty) => ty.facts().parts(),
            ItemType::Instance(ty) => u32::min(ty.entries.parts() + 1, 1_000_001),
            ItemType::Kind(kind) => kind.parts(),
        }
    }

    /// Whether it speaks of a resource.
    pub fn has_resource(&self) -> bool
        ensures { result ≡ item_has_resource (item_of self.now) }
    {
        match self {
            ItemType::Func(ty) => ty.facts().has_handle(),
            ItemType::Instance(ty) => ty.entries.has_resource(),
            ItemType::Kind(kind) => kind.has_resource(),
        }
    }

    fn listed(&self) -> u32 {
        match self {
            ItemType::Func(ty) => func_listed(ty),
            ItemType::Instance(ty) => ty.entries.listed.saturating_add(1),
            ItemType::Kind(kind) => kind.listed(),
        }
    }

    /// What speaks of no resource stays shared, and is one step.
    fn walked(&self) -> u32 {
        if !self.has_resource() {
            return 1;
        }
        match self {
            ItemType::Func(ty) => func_listed(ty),
            ItemType::Instance(ty) => ty.entries.walked.saturating_add(1),
            ItemType::Kind(kind) => kind.walked(),
        }
    }

    fn levels(&self) -> u32 {
        match self {
            ItemType::Func(_) => 0,
            ItemType::Instance(ty) => ty.entries.levels.saturating_add(1),
            ItemType::Kind(kind) => kind.levels(),
        }
    }

    /// An equal item, which shares what it points to, and fails only where one owner more can't be counted.
    pub fn copy(&self) -> Result<ItemType, NoMemory>
        ensures { IfOk result (λ copy. item_of copy ≡ item_of self.now) }
    {
        match self {
            ItemType::Func(ty) => Ok(ItemType::Func(ty.clone()?)),
            ItemType::Instance(ty) => Ok(ItemType::Instance(ty.clone()?)),
            ItemType::Kind(kind) => Ok(ItemType::Kind(kind.copy()?)),
        }
    }
}
