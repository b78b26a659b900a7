//! The core index spaces of a component: functions, tables, memories, globals, modules and core instances.

ghost use Rattle.std.specs.Prelude.{◌≡◌, Bool, List, ℕ, OnOk, length, option_map, slice_get, option_and_then};
ghost use Rattle.core_validate.specs.declared.item.CoreExport.{CoreExport};
ghost use Rattle.core_validate.specs.declared.item.ModuleType.{ModuleType};
ghost use Rattle.comp_types.specs.Spaces.{Space, and_core_item, core_func_at, core_item_at, empty_space};
ghost use Rattle.comp_types.specs.Added.{and_core_instance, and_module};
ghost use Rattle.comp_types.specs.Rules.{lengths_of};
ghost use Rattle.comp_scopes.specs.Found.{EachSome, HasExports, IsKnownModule};

use crate::by_name::CoreMap;
use crate::items::SharedItem;
use crate::modules::KnownModule;
use comp_types::Lengths;
use core_validate::Shared;
use std::alloc::Global;
use virt_base::NoMemory;
use wasm_ast::{CoreFunc, CoreSort};

/// The core index spaces of a component.
#[derive(Drop)]
pub struct CoreScope {
    functions: Vec<SharedItem>,
    tables: Vec<SharedItem>,
    memories: Vec<SharedItem>,
    globals: Vec<SharedItem>,
    modules: Vec<Shared<KnownModule>>,
    instances: Vec<Shared<CoreMap>>,
}

impl CoreScope {
    ghost use Rattle.comp_scopes.specs.Scopes.{IsCoreOf, func_in};

    /// Spaces without items.
    pub fn new(alloc: Global) -> CoreScope
        ensures { (is_component : Bool) → (next : ℕ) → IsCoreOf (empty_space is_component next) result }
    {
        CoreScope {
            functions: Vec::new(alloc),
            tables: Vec::new(alloc),
            memories: Vec::new(alloc),
            globals: Vec::new(alloc),
            modules: Vec::new(alloc),
            instances: Vec::new(alloc),
        }
    }

    /// Adds an item of its sort.
    pub fn add_item(&mut self, item: SharedItem) -> Result<(), NoMemory>
        ensures { OnOk result ((s : Space) → IsCoreOf s self.old → IsCoreOf (and_core_item s item) self.new) }
    {
        match item.sort() {
            CoreSort::Func => self.functions.push(item)?,
            CoreSort::Table => self.tables.push(item)?,
            CoreSort::Memory => self.memories.push(item)?,
            CoreSort::Global => self.globals.push(item)?,
        }
        Ok(())
    }

    /// Adds a module.
    pub fn add_module(&mut self, known: Shared<KnownModule>) -> Result<(), NoMemory>
        ensures { OnOk result ((s : Space) → (m : ModuleType) → IsCoreOf s self.old → IsKnownModule m known → IsCoreOf (and_module s m) self.new) }
    {
        self.modules.push(known)?;
        Ok(())
    }

    /// Adds an instance.
    pub fn add_instance(&mut self, instance: Shared<CoreMap>) -> Result<(), NoMemory>
        ensures { OnOk result ((s : Space) → (exports : List CoreExport) → IsCoreOf s self.old → HasExports exports instance → IsCoreOf (and_core_instance s exports) self.new) }
    {
        self.instances.push(instance)?;
        Ok(())
    }

    /// The item at an index.
    pub fn item_at(&self, sort: CoreSort, index: u32) -> Option<&SharedItem>
        ensures { (s : Space) → IsCoreOf s self.now → option_map (λ i. i.now) result ≡ core_item_at s sort index }
    {
        let items = match sort {
            CoreSort::Func => &self.functions,
            CoreSort::Table => &self.tables,
            CoreSort::Memory => &self.memories,
            CoreSort::Global => &self.globals,
        };
        items.get(index as usize)
    }

    /// The type of the function at an index.
    pub fn func_at(&self, index: u32) -> Option<&CoreFunc>
        ensures own { option_map (λ f. f.now) result ≡ func_in self.now index }
        ensures at { (s : Space) → IsCoreOf s self.now → option_map (λ f. f.now) result ≡ core_func_at s index }
    {
        match self.functions.get(index as usize) {
            None => None,
            Some(item) => item.func_type(),
        }
    }

    /// The module at an index.
    pub fn module_at(&self, index: u32) -> Option<&Shared<KnownModule>>
        ensures { (s : Space) → IsCoreOf s self.now → EachSome IsKnownModule (slice_get s.core_modules index) (option_map (λ m. m.now) result) }
    {
        self.modules.get(index as usize)
    }

    /// The instance at an index.
    pub fn instance_at(&self, index: u32) -> Option<&Shared<CoreMap>>
        ensures { (s : Space) → IsCoreOf s self.now → EachSome HasExports (slice_get s.core_instances index) (option_map (λ i. i.now) result) }
    {
        self.instances.get(index as usize)
    }

    /// The lengths of the core index spaces, beside those of the others.
    pub fn lengths(&self, others: Lengths) -> Lengths
        ensures { (s : Space) → IsCoreOf s self.now → result ≡ record others {
          core_functions = length s.core_functions;
          core_tables = length s.core_tables;
          core_memories = length s.core_memories;
          core_globals = length s.core_globals;
          core_modules = length s.core_modules;
          core_instances = length s.core_instances;
        } }
    {
        Lengths {
            core_functions: self.functions.len(),
            core_tables: self.tables.len(),
            core_memories: self.memories.len(),
            core_globals: self.globals.len(),
            core_modules: self.modules.len(),
            core_instances: self.instances.len(),
            functions: others.functions,
            types: others.types,
            instances: others.instances,
            components: others.components,
        }
    }
}
