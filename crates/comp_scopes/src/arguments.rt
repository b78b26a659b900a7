//! The arguments by which a core module is instantiated, by name, and whether they meet its imports.

ghost use Rattle.std.specs.Prelude.{◌≡◌, if◌then◌else◌, List, ℕ, None, Some, OnOk, IfOk};
ghost use Rattle.std.specs.List.{list_all};
ghost use Rattle.wasm_ast.specs.declared.component.CoreArg.{CoreArg};
ghost use Rattle.comp_types.specs.CoreMatching.{same_text};
ghost use Rattle.comp_types.specs.Rules.{core_import_given, core_import_met};
ghost use Rattle.comp_types.specs.Spaces.{Space};
ghost use Rattle.comp_scopes.specs.Arguments.{HasArguments};
ghost use Rattle.comp_scopes.specs.Scopes.{IsCoreOf};

use crate::core_scope::CoreScope;
use core_validate::CoreImport;
use std::alloc::Global;
use std::collections::BTreeMap;
use virt_base::{NoMemory, Text};
use wasm_ast::CoreArg;

/// The arguments of an instantiation: instances by name.
#[derive(Drop)]
pub struct Arguments<'a> {
    instances: BTreeMap<&'a str, u32>,
}

impl<'a> Arguments<'a> {
    ghost use Rattle.comp_scopes.specs.Arguments.{given};

    fn none(alloc: Global) -> Arguments<'a>
        ensures { (q : List ℕ) → given result q ≡ None }
    {
        Arguments {
            instances: BTreeMap::new(alloc),
        }
    }

    fn put(&mut self, name: &'a str, instance: u32) -> Result<(), NoMemory>
        ensures { OnOk result ((q : List ℕ) → given self.new q ≡ (if same_text name.now q then Some instance else given self.old q)) }
    {
        self.instances.insert(name, instance)?;
        Ok(())
    }

    /// The arguments by name; of those with one name the first.
    pub fn new(alloc: Global, args: &'a [CoreArg]) -> Result<Arguments<'a>, NoMemory>
        ensures { IfOk result (HasArguments args.now) }
    {
        let mut arguments = Arguments::none(alloc);
        let mut rest = args;
        while let Some((arg, more)) = rest.split_last() {
            arguments.put(arg.name.as_str(), arg.instance)?;
            rest = more;
        }
        Ok(arguments)
    }

    fn get(&self, name: &Text) -> Option<u32>
        ensures { result ≡ given self.now name.now }
    {
        self.instances.get(name.as_str()).copied()
    }

    fn gives(&self, scope: &CoreScope, import: &CoreImport) -> bool
        ensures { (s : Space) → (args : List CoreArg) → IsCoreOf s scope.now → HasArguments args self.now → result ≡ core_import_given s args import.now }
    {
        let Some(index) = self.get(&import.module) else {
            return false;
        };
        match scope.instance_at(index) {
            None => true,
            Some(exports) => exports.get().get(&import.name).is_some(),
        }
    }

    fn meets(&self, scope: &CoreScope, import: &CoreImport) -> bool
        ensures { (s : Space) → (args : List CoreArg) → IsCoreOf s scope.now → HasArguments args self.now → result ≡ core_import_met s args import.now }
    {
        let Some(index) = self.get(&import.module) else {
            return true;
        };
        let Some(exports) = scope.instance_at(index) else {
            return true;
        };
        match exports.get().get(&import.name) {
            None => true,
            Some(item) => item.meets(&import.item),
        }
    }

    /// Whether each import has an item.
    pub fn gives_each(&self, scope: &CoreScope, imports: &[CoreImport]) -> bool
        ensures { (s : Space) → (args : List CoreArg) → IsCoreOf s scope.now → HasArguments args self.now → result ≡ list_all (core_import_given s args) imports.now }
    {
        let mut rest = imports;
        while let Some((import, more)) = rest.split_first() {
            if !self.gives(scope, import) {
                return false;
            }
            rest = more;
        }
        true
    }

    /// Whether each item that is there is of the type that the module imports.
    pub fn meets_each(&self, scope: &CoreScope, imports: &[CoreImport]) -> bool
        ensures { (s : Space) → (args : List CoreArg) → IsCoreOf s scope.now → HasArguments args self.now → result ≡ list_all (core_import_met s args) imports.now }
    {
        let mut rest = imports;
        while let Some((import, more)) = rest.split_first() {
            if !self.meets(scope, import) {
                return false;
            }
            rest = more;
        }
        true
    }
}
