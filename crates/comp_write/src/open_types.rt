//! Which instance types are open at a place in a section of types. An item of the flat list is written as a declaration where one is
//! open.

ghost use Rattle.std.specs.Prelude.{◌≡◌, OnOk, []};
ghost use Rattle.comp_grammar.specs.Types.{declarations_in};
ghost use Rattle.comp_grammar.specs.TypeSections.{is_none_open, declared, opened, declarations_of, open_after};

use std::alloc::Global;
use std::marker::Model;
use virt_base::NoMemory;
use wasm_ast::{KeptType, TypeItem};

/// The instance types that are open at a place in a section of types: how many declarations each still has, the innermost first.
#[derive(Drop)]
pub struct OpenTypes {
    innermost: Option<u32>,
    /// Those around the innermost one, from the outside in.
    outer: Vec<u32>,
}

impl Model for OpenTypes {
    ghost use Rattle.std.specs.Prelude.{List, ℕ};
    ghost use Rattle.comp_write.specs.Views.{open_of};

    ghost Value = { List ℕ };

    ghost view = { λ o. open_of o.innermost o.outer.items };
}

impl OpenTypes {
    pub fn none(alloc: Global) -> OpenTypes
        ensures { result ≡ [] }
    {
        OpenTypes {
            innermost: None,
            outer: Vec::new(alloc),
        }
    }

    pub fn is_none(&self) -> bool
        ensures { result ≡ is_none_open self.now }
    {
        self.innermost.is_none()
    }

    /// One declaration less of the innermost one.
    fn take_one(&mut self)
        ensures { self.new ≡ declared self.old }
    {
        match self.innermost {
            None => {}
            Some(1) => self.innermost = self.outer.pop(),
            Some(count) => self.innermost = Some(count.saturating_sub(1)),
        }
    }

    /// An instance type of that many declarations is met.
    fn open(&mut self, declarations: u32) -> Result<(), NoMemory>
        ensures { OnOk result (self.new ≡ opened declarations self.old) }
    {
        if declarations == 0 {
            return Ok(());
        }
        match self.innermost {
            None => self.outer.clear(),
            Some(count) => self.outer.push(count)?,
        }
        self.innermost = Some(declarations);
        Ok(())
    }

    /// Goes on after an item. After `NoMemory` nothing is said of the state.
    pub fn pass(&mut self, item: &TypeItem) -> Result<(), NoMemory>
        ensures { OnOk result (self.new ≡ open_after self.old item.now) }
    {
        self.take_one();
        self.open(declarations_of(item))
    }
}

/// The number of declarations of an instance type; 0 of every other type.
#[tactic(auto, using(comp_grammar::proofs::Counted::declarations_counted))]
fn declarations_in(def: &KeptType) -> u32
    ensures { result ≡ declarations_in def.now }
{
    def.declarations().unwrap_or(0)
}

/// The number of declarations that an item opens.
fn declarations_of(item: &TypeItem) -> u32
    ensures { result ≡ declarations_of item.now }
{
    match item {
        TypeItem::Define(def) => declarations_in(def),
        TypeItem::Alias(_) | TypeItem::Export { .. } => 0,
    }
}
