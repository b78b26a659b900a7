//! The store: the lists of its items, and how many calls are in progress (core WebAssembly, "Execution", "Store").

ghost use Rattle.std.specs.Prelude.{◌≡◌, ◌+◌, ◌-◌, ◌≤◌, ◌<◌, Some, length, slice_get};

use crate::table::Table;
use crate::value::{CoreRefs, CoreSpaces, CoreValue, StoreFunc, TooDeep};
use core_memory::Memory;
use std::alloc::Global;
use std::marker::Model;
use virt_base::Bytes;
use wasm_ast::Shared;

/// The greatest number of calls in progress.
const DEEPEST: u32 = 65536;

/// The store of core modules, which keeps the allocator and the number of calls in progress.
#[derive(Drop)]
pub struct Store {
    pub(crate) alloc: Global,
    pub(crate) functions: Vec<StoreFunc>,
    pub(crate) tables: Vec<Table>,
    pub(crate) memories: Vec<Memory>,
    pub(crate) globals: Vec<CoreValue>,
    pub(crate) segments: Vec<Bytes>,
    pub(crate) elements: Vec<CoreRefs>,
    pub(crate) instances: Vec<Shared<CoreSpaces>>,
    pub(crate) nesting: u32,
}

impl Model for Store {
    ghost use Rattle.core_store.specs.State.{State};

    ghost Value = { State };

    ghost use Rattle.core_store.specs.View.{state_of, IsKept};

    ghost view = { state_of };

    ghost invariant = { IsKept };
}

impl Store {
    ghost use Rattle.core_store.specs.State.{empty, made_at, Enters};

    /// An empty store.
    pub fn new(alloc: Global) -> Store
        ensures { result ≡ empty }
    {
        Store {
            alloc,
            functions: Vec::new(alloc),
            tables: Vec::new(alloc),
            memories: Vec::new(alloc),
            globals: Vec::new(alloc),
            segments: Vec::new(alloc),
            elements: Vec::new(alloc),
            instances: Vec::new(alloc),
            nesting: 0,
        }
    }

    /// A call more is in progress. `TooDeep` comes exactly where there are as many as the store allows, which are 65,536.
    pub fn enter(&mut self) -> Result<(), TooDeep>
        ensures { Enters self.old self.new result }
    {
        if self.nesting == DEEPEST {
            return Err(TooDeep);
        }
        self.nesting += 1;
        Ok(())
    }

    /// A call less is in progress.
    pub fn leave(&mut self)
        requires { 0 < self.old.nesting }
        ensures { self.new ≡ record self.old { nesting = self.old.nesting - 1 } }
    {
        self.nesting -= 1;
    }

    /// The number of calls in progress.
    pub fn nesting(&self) -> u32
        ensures value { result ≡ self.now.nesting }
        ensures most { result ≤ 65536 }
        ensures deepest { self.now.deepest ≡ Some 65536 }
    {
        self.nesting
    }

    /// Takes over the number of calls in progress, as from another store of one run.
    pub fn set_nesting(&mut self, nesting: u32)
        requires { nesting ≤ 65536 }
        ensures { self.new ≡ record self.old { nesting = nesting } }
    {
        self.nesting = nesting;
    }

    /// How many pages of a memory are made. Each page of 65,536 bytes is made at the first write that touches it.
    pub fn made(&self, memory: u32) -> u32
        requires { memory < length self.now.memories }
        ensures { result ≡ made_at self.now memory }
    {
        self.memories[memory as usize].made()
    }
}

/// The number of core instances, which is the next one's place.
pub fn instances(store: &Store) -> u32
    ensures { result ≡ length store.now.instances }
{
    store.instances.len() as u32
}

/// The number of functions, which is the next one's place.
pub fn functions(store: &Store) -> u32
    ensures { result ≡ length store.now.functions }
{
    store.functions.len() as u32
}

/// The function at a place.
pub fn function(store: &Store, at: u32) -> &StoreFunc
    requires { at < length store.now.functions }
    ensures { slice_get store.now.functions at ≡ Some result.now }
{
    &store.functions[at as usize]
}

/// The index spaces of the instance at a place, which the store shares.
pub fn spaces(store: &Store, instance: u32) -> &Shared<CoreSpaces>
    requires { instance < length store.now.instances }
    ensures { slice_get store.now.instances instance ≡ Some result.now }
{
    &store.instances[instance as usize]
}
