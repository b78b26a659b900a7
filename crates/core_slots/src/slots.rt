//! The stack of the machine: the locals and operands of the calls in progress, in one list of words (core WebAssembly, "Stack").

ghost use Rattle.std.specs.Prelude.{◌≡◌, ◌<◌, ◌≤◌, ◌+◌, [], ◌∷◌, List, ℕ, length, slice_get, Some, OnOk, IfOk, reverse, replicate, take, drop, ◌++◌, ◌-◌};
ghost use Rattle.core_slots.specs.Stacked.{Held, Stacked, with_operands, with_local, opened, closed};
ghost use Rattle.core_store.specs.Words.{words};
ghost use Rattle.core_store.specs.Config.{kept};

use crate::words::word;
use core_store::CoreValue;
use std::alloc::Global;
use std::marker::Model;
use virt_base::NoMemory;

/// Where a call's locals and operands begin.
#[derive(Clone, Copy)]
pub struct Base {
    pub locals: usize,
    pub operands: usize,
}

/// The locals and operands of each call in progress.
#[derive(Drop)]
pub struct Slots {
    words: Vec<u64>,
    locals: usize,
    operands: usize,
    callers: Vec<Base>,
}

impl Model for Slots {
    ghost use Rattle.core_slots.specs.Stacked.{Stacked};

    ghost Value = { Stacked };

    ghost use Rattle.core_slots.specs.Layout.{view_of, IsLaidOut};

    ghost view = { view_of };

    ghost invariant = { IsLaidOut };
}

impl Slots {
    pub fn new(alloc: Global) -> Slots
        ensures { result ≡ record { operands = []; locals = []; callers = [] } }
    {
        Slots {
            words: Vec::new(alloc),
            locals: 0,
            operands: 0,
            callers: Vec::new(alloc),
        }
    }

    /// The number of operands of the innermost call.
    pub fn height(&self) -> usize
        ensures { result ≡ length self.now.operands }
    {
        self.words.len() - self.operands
    }

    pub fn push(&mut self, value: u64) -> Result<(), NoMemory>
        ensures { OnOk result (self.new ≡ with_operands self.old (value ∷ self.old.operands)) }
    {
        self.words.push(value)?;
        Ok(())
    }

    pub fn pop(&mut self) -> u64
        requires { 0 < length self.old.operands }
        ensures { self.old ≡ with_operands self.new (result ∷ self.new.operands) }
    {
        self.words.take_last()
    }

    /// The topmost operand.
    #[inline]
    pub fn top(&self) -> u64
        requires { 0 < length self.now.operands }
        ensures { self.now ≡ with_operands self.now (result ∷ drop 1 self.now.operands) }
    {
        self.words[self.words.len() - 1]
    }

    /// Writes another word over the topmost operand.
    #[inline]
    pub fn set_top(&mut self, value: u64)
        requires { 0 < length self.old.operands }
        ensures { self.new ≡ with_operands self.old (value ∷ drop 1 self.old.operands) }
    {
        let last = self.words.len() - 1;
        self.words[last] = value;
    }

    pub fn local(&self, at: u32) -> u64
        requires { at < length self.now.locals }
        ensures { slice_get self.now.locals at ≡ Some result }
    {
        self.words[self.locals + at as usize]
    }

    pub fn set_local(&mut self, at: u32, value: u64)
        requires { at < length self.old.locals }
        ensures { self.new ≡ with_local self.old at value }
    {
        self.words[self.locals + at as usize] = value;
    }

    /// Keeps the topmost `arity` operands and the lowest `height`.
    pub fn keep(&mut self, arity: usize, height: usize)
        requires { arity + height ≤ length self.old.operands }
        ensures { self.new ≡ with_operands self.old (kept arity height self.old.operands) }
    {
        lower(&mut self.words, self.operands + height, arity);
    }

    /// The operands of the innermost call, the topmost last.
    pub fn operands(&self) -> &[u64]
        ensures { result.now ≡ reverse self.now.operands }
    {
        &self.words[self.operands..]
    }

    /// Drops the topmost operands.
    pub fn drop_top(&mut self, count: usize)
        requires { count ≤ length self.old.operands }
        ensures { self.new ≡ with_operands self.old (drop count self.old.operands) }
    {
        self.words.truncate(self.words.len() - count);
    }

    /// Adds the words of values, the last one topmost.
    pub fn push_values(&mut self, values: &[CoreValue]) -> Result<(), NoMemory>
        ensures { OnOk result (self.new ≡ with_operands self.old (reverse (words values.now) ++ self.old.operands)) }
    {
        add_words(&mut self.words, values)?;
        Ok(())
    }

    /// Writes the words of values over the topmost operands, the last one topmost.
    pub fn put_values(&mut self, values: &[CoreValue])
        requires { length values.now ≤ length self.old.operands }
        ensures { self.new ≡ with_operands self.old (reverse (words values.now) ++ drop (length values.now) self.old.operands) }
    {
        let from = self.words.len() - values.len();
        put_words(&mut self.words, from, values);
    }

    /// Begins a call: the topmost operands become its first locals.
    pub fn open(&mut self, params: usize, locals: usize) -> Result<(), NoMemory>
        requires { params ≤ length self.old.operands }
        ensures { OnOk result (self.new ≡ opened params locals self.old) }
    {
        let first = self.words.len() - params;
        add_zeros(&mut self.words, locals)?;
        self.callers.push(Base {
            locals: self.locals,
            operands: self.operands,
        })?;
        self.locals = first;
        self.operands = self.words.len();
        Ok(())
    }

    /// Ends a call: its topmost operands become its caller's.
    pub fn close(&mut self, results: usize)
        requires results { results ≤ length self.old.operands }
        requires caller { 0 < length self.old.callers }
        ensures { (c : Held) (cs : List Held) → self.old.callers ≡ c ∷ cs → self.new ≡ closed results self.old c cs }
    {
        lower(&mut self.words, self.locals, results);
        match self.callers.pop() {
            Some(base) => {
                self.locals = base.locals;
                self.operands = base.operands;
            }
            None => unreachable!(),
        }
    }
}

// Moves the last `count` words down to `to`, and drops what stood between.
fn lower(words: &mut Vec<u64>, to: usize, count: usize)
    requires { to + count ≤ length words.old.items }
    ensures { words.new.items ≡ take to words.old.items ++ drop (length words.old.items - count) words.old.items }
{
    let from = words.len() - count;
    if to < from {
        for i in 0..count {
            words[to + i] = words[from + i];
        }
        words.truncate(to + count);
    }
}

// Adds zeros.
fn add_zeros(words: &mut Vec<u64>, count: usize) -> Result<(), NoMemory>
    ensures added { OnOk result (words.new.items ≡ words.old.items ++ replicate count 0) }
    ensures grows { length words.old.items ≤ length words.new.items }
{
    for _ in 0..count {
        words.push(0)?;
    }
    Ok(())
}

// Adds the words of values.
#[tactic(auto, using(crate::proofs::WordLaws::words_none, crate::proofs::WordLaws::words_more, crate::proofs::WordLaws::words_all))]
fn add_words(list: &mut Vec<u64>, values: &[CoreValue]) -> Result<(), NoMemory>
    ensures added { OnOk result (list.new.items ≡ list.old.items ++ words values.now) }
    ensures grows { length list.old.items ≤ length list.new.items }
{
    for value in values {
        list.push(word(*value))?;
    }
    Ok(())
}

// Writes the words of values over the last ones.
fn put_words(list: &mut Vec<u64>, from: usize, values: &[CoreValue])
    requires { from + length values.now ≡ length list.old.items }
    ensures { list.new.items ≡ take from list.old.items ++ words values.now }
{
    for i in 0..values.len() {
        list[from + i] = word(values[i]);
    }
}
