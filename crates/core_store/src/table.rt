//! One table: what its instructions do (core WebAssembly, "Execution", "Table Instructions").

ghost use Rattle.std.specs.Prelude.{◌≡◌, ◌+◌, ◌-◌, ◌≤◌, ◌++◌, length, min, unwrap_or, IfOk, OnOk, OnErr};
ghost use Rattle.core_memory.specs.Replaced.{replaced, repeated};
ghost use Rattle.core_store.specs.Table.{got, nulls, Sets, Fills, Moves, Grows};

use crate::value::CoreRef;
use std::alloc::{AllocError, Global};
use std::marker::Model;
use virt_base::{NoMemory, Trap};

/// The greatest number of elements to which a table grows.
const MOST: u32 = 1_048_576;

/// A table of references.
#[derive(Drop)]
pub struct Table {
    refs: Vec<CoreRef>,
    max: Option<u32>,
}

impl Model for Table {
    ghost use Rattle.std.specs.Prelude.{◌<◌, length};
    ghost use Rattle.core_store.specs.Table.{Entries};

    ghost Value = { Entries };

    ghost view = { λ t. record { refs = t.refs.items; max = t.max } };

    ghost invariant = { λ t. length t.refs.items < 4294967296 };
}

impl Table {
    /// A table of null references.
    pub fn new(alloc: Global, min: u32, max: Option<u32>) -> Result<Table, NoMemory>
        ensures { IfOk result (λ t. t ≡ nulls min max) }
    {
        let mut refs = Vec::new(alloc);
        add_refs(&mut refs, min, CoreRef::Null)?;
        Ok(Table { refs, max })
    }

    /// A table without elements, which takes no memory.
    #[tactic(auto, using(crate::proofs::References::no_entries))]
    pub fn empty(alloc: Global) -> Table
        ensures { result ≡ nulls 0 None }
    {
        Table {
            refs: Vec::new(alloc),
            max: None,
        }
    }

    pub fn size(&self) -> u32
        ensures { result ≡ length self.now.refs }
    {
        self.refs.len() as u32
    }

    /// The references.
    pub fn refs(&self) -> &[CoreRef]
        ensures { result.now ≡ self.now.refs }
    {
        &self.refs
    }

    /// The reference at a place.
    pub fn get(&self, at: u32) -> Result<CoreRef, Trap>
        ensures { result ≡ got self.now at }
    {
        if at as usize >= self.refs.len() {
            return Err(Trap);
        }
        Ok(self.refs[at as usize])
    }

    pub fn set(&mut self, at: u32, value: CoreRef) -> Result<(), Trap>
        ensures { Sets self.old self.new at value result }
    {
        if at as usize >= self.refs.len() {
            return Err(Trap);
        }
        self.refs[at as usize] = value;
        Ok(())
    }

    /// Sets `len` references to one value.
    pub fn fill(&mut self, at: u32, value: CoreRef, len: u32) -> Result<(), Trap>
        ensures { Fills self.old self.new at value len result }
    {
        let start = at as usize;
        let end = start + len as usize;
        if end > self.refs.len() {
            return Err(Trap);
        }
        fill_refs(&mut self.refs, start, end, value);
        Ok(())
    }

    /// Copies references of another list.
    pub fn init(&mut self, to: u32, source: &[CoreRef], from: u32, len: u32) -> Result<(), Trap>
        ensures { Moves source.now self.old self.new to from len result }
    {
        let count = len as usize;
        let first = from as usize;
        let start = to as usize;
        if first + count > source.len() || start + count > self.refs.len() {
            return Err(Trap);
        }
        self.refs[start..start + count].copy_from_slice(&source[first..first + count]);
        Ok(())
    }

    /// Copies references within the table, as if by way of another list.
    pub fn copy(&mut self, to: u32, from: u32, len: u32) -> Result<(), Trap>
        ensures { Moves self.old.refs self.old self.new to from len result }
    {
        let count = len as usize;
        let first = from as usize;
        let start = to as usize;
        if first + count > self.refs.len() || start + count > self.refs.len() {
            return Err(Trap);
        }
        self.refs.copy_within(first..first + count, start);
        Ok(())
    }

    /// Adds references: the old size, or -1 exactly where the maximum or 1,048,576 elements would be passed.
    pub fn grow(&mut self, by: u32, value: CoreRef) -> Result<i32, NoMemory>
        ensures { Grows self.old self.new by value result }
    {
        let old = self.refs.len();
        if old + by as usize > most_refs(self.max) as usize {
            return Ok(-1);
        }
        add_refs(&mut self.refs, by, value)?;
        Ok(old as i32)
    }
}

// The number of elements that neither the maximum nor 1,048,576 passes.
fn most_refs(max: Option<u32>) -> u32
    ensures { result ≡ min (unwrap_or max 1048576) 1048576 }
{
    match max {
        Some(max) => max.min(MOST),
        None => MOST,
    }
}

// Adds `count` references at the end.
#[tactic(auto, using(crate::proofs::References::add_none, crate::proofs::References::add_more))]
fn add_refs(refs: &mut Vec<CoreRef>, count: u32, value: CoreRef) -> Result<(), AllocError>
    ensures ok { OnOk result (refs.new.items ≡ refs.old.items ++ repeated count value) }
    ensures err { OnErr result (refs.new.items ≡ refs.old.items) }
{
    refs.reserve(count as usize)?;
    for _added in 0..count {
        refs.push_reserved(value);
    }
    Ok(())
}

// Sets the references of a range to one value.
fn fill_refs(refs: &mut Vec<CoreRef>, start: usize, end: usize, value: CoreRef)
    requires order { start ≤ end }
    requires within { end ≤ length refs.old.items }
    ensures items { refs.new.items ≡ replaced refs.old.items start (repeated (end - start) value) }
    ensures len { length refs.new.items ≡ length refs.old.items }
{
    for index in start..end {
        refs[index] = value;
    }
}
