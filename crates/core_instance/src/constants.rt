//! The values of constant expressions (WebAssembly Core 2.0, section 3.3.10).

ghost use Rattle.std.specs.Prelude.{◌≡◌, ◌∷◌, map, IfOk, OnOk, slice_get};
ghost use Rattle.core_instance.specs.Constants.{global_or, ref_or, op_value, instr_value, constant, offset_in, ref_in, refs_to, refs_from, refs_of};

use core_store::{CoreRef, CoreRefs, CoreValue};
use std::alloc::Global;
use virt_base::{Items, NoMemory};
use wasm_ast::{ConstExpr, Elements, Exprs, Indexes, Instr, Op};

/// What a constant expression may name: the values of imported globals, and the places of functions.
#[derive(Drop)]
pub struct Names {
    pub globals: Items<CoreValue>,
    pub functions: Indexes,
}

fn global_or(value: Option<CoreValue>) -> CoreValue
    ensures { result ≡ global_or value }
{
    match value {
        Some(value) => value,
        None => CoreValue::I32(0),
    }
}

fn ref_or(place: Option<u32>) -> CoreRef
    ensures { result ≡ ref_or place }
{
    match place {
        Some(place) => CoreRef::Func(place),
        None => CoreRef::Null,
    }
}

fn ref_in(value: CoreValue) -> CoreRef
    ensures { result ≡ ref_in value }
{
    match value {
        CoreValue::Ref(r) => r,
        CoreValue::I32(_) | CoreValue::I64(_) => CoreRef::Null,
    }
}

impl Names {
    fn function(&self, index: u32) -> CoreRef
        ensures { result ≡ ref_or (slice_get self.now.functions index) }
    {
        ref_or(self.functions.as_slice().get(index as usize).copied())
    }

    fn op_value(&self, op: Op) -> CoreValue
        ensures { result ≡ op_value self.now op }
    {
        match op {
            Op::I32Const(n) => CoreValue::I32(n.cast_unsigned()),
            Op::GlobalGet(index) => {
                global_or(self.globals.as_slice().get(index as usize).copied())
            }
            Op::RefFunc(index) => CoreValue::Ref(self.function(index)),
            Op::RefNull(_) => CoreValue::Ref(CoreRef::Null),
            _ => CoreValue::I32(0),
        }
    }

    /// The value of a constant expression.
    pub fn constant(&self, code: &ConstExpr) -> CoreValue
        ensures { result ≡ constant self.now code.now }
    {
        let instrs = code.code();
        match instrs.as_slice().first() {
            Some(Instr::Plain(op)) => self.op_value(*op),
            Some(Instr::I64Const(n)) => CoreValue::I64(n.cast_unsigned()),
            _ => CoreValue::I32(0),
        }
    }

    /// Where an active segment begins.
    pub fn offset(&self, code: &ConstExpr) -> u32
        ensures { result ≡ offset_in (constant self.now code.now) }
    {
        match self.constant(code) {
            CoreValue::I32(n) => n,
            CoreValue::I64(_) | CoreValue::Ref(_) => 0,
        }
    }

    fn refs_to(&self, alloc: Global, funcs: &Indexes) -> Result<CoreRefs, NoMemory>
        ensures { IfOk result (λ refs. refs ≡ refs_to self.now funcs.now) }
    {
        let mut list = Vec::with_capacity(alloc, funcs.len())?;
        for index in funcs.as_slice() {
            list.push(self.function(*index))?;
        }
        Ok(Items::new(list))
    }

    fn refs_from(&self, alloc: Global, exprs: &Exprs) -> Result<CoreRefs, NoMemory>
        ensures { IfOk result (λ refs. refs ≡ refs_from self.now exprs.now) }
    {
        let mut list = Vec::with_capacity(alloc, exprs.len())?;
        for code in exprs.as_slice() {
            list.push(ref_in(self.constant(code)))?;
        }
        Ok(Items::new(list))
    }

    /// The references of an element segment.
    pub fn refs_of(&self, alloc: Global, segment: &Elements) -> Result<CoreRefs, NoMemory>
        ensures { IfOk result (λ refs. refs ≡ refs_of self.now segment.now) }
    {
        match segment {
            Elements::ActiveFuncs { funcs, .. }
            | Elements::PassiveFuncs { funcs }
            | Elements::ActiveFuncsAt { funcs, .. }
            | Elements::DeclaredFuncs { funcs } => self.refs_to(alloc, funcs),
            Elements::ActiveExprs { exprs, .. }
            | Elements::PassiveExprs { exprs, .. }
            | Elements::ActiveExprsAt { exprs, .. }
            | Elements::DeclaredExprs { exprs, .. } => self.refs_from(alloc, exprs),
        }
    }
}
