//! All index spaces of a component or an instance type, and what is kept besides: imports, exports, resources and depth.

ghost use Rattle.std.specs.Prelude.{◌≡◌, ℕ, IfOk, OnOk, option_map, slice_get};
ghost use Rattle.core_validate.specs.declared.item.ModuleType.{ModuleType};
ghost use Rattle.comp_types.specs.Items.{FuncItem, InstanceItem};
ghost use Rattle.comp_types.specs.Views.{item_of, kind_of};
ghost use Rattle.comp_types.specs.Added.{and_component, and_module};
ghost use Rattle.comp_types.specs.Rules.{lengths_of};
ghost use Rattle.comp_types.specs.Spaces.{NestedComponent, Space, TypeEntry, and_item, and_type, empty_space, item_at, kind_at};
ghost use Rattle.comp_scopes.specs.Found.{EachSome, IsKnownModule};
ghost use Rattle.comp_scopes.specs.Scopes.{IsCoreOf};

use crate::entries::{KnownComponent, KnownEntry};
use crate::named::NamedEntries;
use crate::numbers::Numbers;
use crate::{CoreScope, KnownModule, Shared};
use comp_types::{InstanceType, ItemType, KnownFunc, Lengths, TypeItem};
use std::alloc::Global;
use std::rc::Rc;
use virt_base::NoMemory;
use wasm_ast::Sort;

/// The index spaces of a component, or of an instance type, as the definitions so far have made them.
#[derive(Drop)]
pub struct Scope {
    pub is_component: bool,
    pub core: CoreScope,
    pub functions: Vec<Rc<KnownFunc>>,
    pub types: Vec<KnownEntry>,
    pub instances: Vec<Rc<InstanceType>>,
    pub components: Vec<Shared<KnownComponent>>,
    pub imports: NamedEntries,
    pub exports: NamedEntries,
    pub imported: Numbers,
    pub defined: Numbers,
    /// 101 stands for more than 100.
    pub deepest: u32,
    pub next: u32,
}

impl Scope {
    ghost use Rattle.comp_scopes.specs.Stands.{IsEntry, IsNested, Stands};

    /// Spaces without items.
    pub fn new(alloc: Global, is_component: bool, next: u32) -> Scope
        ensures { Stands (empty_space is_component next) result }
    {
        Scope {
            is_component,
            core: CoreScope::new(alloc),
            functions: Vec::new(alloc),
            types: Vec::new(alloc),
            instances: Vec::new(alloc),
            components: Vec::new(alloc),
            imports: NamedEntries::none(alloc),
            exports: NamedEntries::none(alloc),
            imported: Numbers::none(alloc),
            defined: Numbers::none(alloc),
            deepest: 0,
            next,
        }
    }

    /// Adds a function.
    pub fn add_func(&mut self, ty: Rc<KnownFunc>) -> Result<(), NoMemory>
        ensures { OnOk result ((s : Space) → Stands s self.old → Stands (and_item s (FuncItem ty.value)) self.new) }
    {
        self.functions.push(ty)?;
        Ok(())
    }

    /// Adds an instance.
    pub fn add_instance(&mut self, ty: Rc<InstanceType>) -> Result<(), NoMemory>
        ensures { OnOk result ((s : Space) → Stands s self.old → Stands (and_item s (InstanceItem ty.value.entries)) self.new) }
    {
        self.instances.push(ty)?;
        Ok(())
    }

    /// Adds a type.
    pub fn add_entry(&mut self, entry: KnownEntry) -> Result<(), NoMemory>
        ensures { OnOk result ((s : Space) → (e : TypeEntry) → Stands s self.old → IsEntry e entry → Stands (and_type s e) self.new) }
    {
        self.types.push(entry)?;
        Ok(())
    }

    /// Adds an item of its sort; a type as deep as it is.
    pub fn add_item(&mut self, item: ItemType) -> Result<(), NoMemory>
        ensures { OnOk result ((s : Space) → Stands s self.old → Stands (and_item s (item_of item)) self.new) }
    {
        match item {
            ItemType::Func(ty) => self.add_func(ty),
            ItemType::Instance(ty) => self.add_instance(ty),
            ItemType::Kind(kind) => {
                let depth = kind.depth();
                self.add_entry(KnownEntry { kind, depth })
            }
        }
    }

    /// Adds a module.
    pub fn add_module(&mut self, known: Shared<KnownModule>) -> Result<(), NoMemory>
        ensures { OnOk result ((s : Space) → (m : ModuleType) → Stands s self.old → IsKnownModule m known → Stands (and_module s m) self.new) }
    {
        self.core.add_module(known)
    }

    /// Adds a component.
    pub fn add_component(&mut self, known: Shared<KnownComponent>) -> Result<(), NoMemory>
        ensures { OnOk result ((s : Space) → (c : NestedComponent) → Stands s self.old → IsNested c known → Stands (and_component s c) self.new) }
    {
        self.components.push(known)?;
        Ok(())
    }

    /// The function at an index.
    pub fn func_at(&self, index: u32) -> Option<&Rc<KnownFunc>>
        ensures { (s : Space) → Stands s self.now → option_map (λ f. f.now.value) result ≡ slice_get s.functions index }
    {
        self.functions.get(index as usize)
    }

    /// The type at an index, and how deep its definition is.
    pub fn entry_at(&self, index: u32) -> Option<&KnownEntry>
        ensures { (s : Space) → Stands s self.now → EachSome IsEntry (slice_get s.types index) (option_map (λ e. e.now) result) }
    {
        self.types.get(index as usize)
    }

    /// The type at an index.
    pub fn kind_at(&self, index: u32) -> Option<&TypeItem>
        ensures { (s : Space) → Stands s self.now → option_map (λ k. kind_of k.now) result ≡ kind_at s index }
    {
        match self.entry_at(index) {
            None => None,
            Some(entry) => Some(&entry.kind),
        }
    }

    /// The instance at an index.
    pub fn instance_at(&self, index: u32) -> Option<&Rc<InstanceType>>
        ensures { (s : Space) → Stands s self.now → option_map (λ i. i.now.value.entries) result ≡ slice_get s.instances index }
    {
        self.instances.get(index as usize)
    }

    /// The component at an index.
    pub fn component_at(&self, index: u32) -> Option<&Shared<KnownComponent>>
        ensures { (s : Space) → Stands s self.now → EachSome IsNested (slice_get s.components index) (option_map (λ c. c.now) result) }
    {
        self.components.get(index as usize)
    }

    /// The item at an index.
    pub fn item_at(&self, sort: Sort, index: u32) -> Result<Option<ItemType>, NoMemory>
        ensures { IfOk result (λ item. (s : Space) → Stands s self.now → option_map item_of item ≡ item_at s sort index) }
    {
        match sort {
            Sort::Func => match self.func_at(index) {
                None => Ok(None),
                Some(ty) => Ok(Some(ItemType::Func(ty.clone()?))),
            },
            Sort::Type => match self.kind_at(index) {
                None => Ok(None),
                Some(kind) => Ok(Some(ItemType::Kind(kind.copy()?))),
            },
            Sort::Instance => match self.instance_at(index) {
                None => Ok(None),
                Some(ty) => Ok(Some(ItemType::Instance(ty.clone()?))),
            },
        }
    }

    /// How many items each index space holds.
    pub fn lengths(&self) -> Lengths
        ensures { (s : Space) → Stands s self.now → result ≡ lengths_of s }
    {
        let others = Lengths {
            core_functions: 0,
            core_tables: 0,
            core_memories: 0,
            core_globals: 0,
            core_modules: 0,
            core_instances: 0,
            functions: self.functions.len(),
            types: self.types.len(),
            instances: self.instances.len(),
            components: self.components.len(),
        };
        self.core.lengths(others)
    }
}
