//! Calls.

ghost use Rattle.std.specs.Prelude.{◌≡◌, ◌+◌, ◌≤◌, IfOk, length};
ghost use Rattle.core_store.specs.Scene.{scene_of, spaces_at};
ghost use Rattle.core_store.specs.Fine.{IsFine};
ghost use Rattle.core_interp.specs.Run.{IsBefore, Leads, Remains, Enters, entry, steps};
ghost use Rattle.core_store.specs.Eval.{same_type as are_same, same_types as all_same, same_func as is_same, type_of as type_of_function};

use crate::control::{Control, Flow};
use crate::fetch::{function_place, table_place, type_at};
use crate::operands::low;
use crate::running::Running;
use core_store::{CoreRef, CoreSpaces, Store, StoreFunc, function, table_get};
use virt_base::{CoreType, NoMemory};
use wasm_ast::{CoreFunc, Instr};

impl Running {
    /// A call of the function at a place of the store.
    pub fn enter(&mut self, store: &mut Store, callee: u32) -> Result<Flow, NoMemory>
        requires enters { Enters self.old store.old callee }
        requires fine { IsFine (scene_of store.old) }
        ensures leads { IfOk result (λ flow. Leads (entry self.old store.old callee) flow self.new store.new) }
        ensures entry { IfOk result (λ flow. Remains flow self.old self.new) }
        ensures scene { IfOk result (λ _. scene_of store.old ≡ scene_of store.new) }
        ensures grows { IfOk result (λ _. length self.new.controls.items ≤ length self.old.controls.items + 1) }
    {
        match function(store, callee) {
            StoreFunc::Inside {
                ty,
                instance: _,
                locals,
                body: _,
            } => {
                let ty = ty.get();
                let params = ty.params.len();
                let results = ty.results.len();
                let count = locals.len();
                match store.enter() {
                    Ok(()) => {
                        self.slots.open(params, count)?;
                        let to = self.at + 1;
                        self.controls.push(Control::Called {
                            function: self.function,
                            to,
                            results,
                        })?;
                        self.function = callee;
                        self.at = 0;
                        Ok(Flow::On)
                    }
                    Err(_) => Ok(Flow::Deep),
                }
            }
            StoreFunc::Outside { ty: _, number: _ } => {
                self.at += 1;
                Ok(Flow::Asking(callee))
            }
        }
    }

    /// A call of the function at an index.
    pub fn call(
        &mut self,
        spaces: &CoreSpaces,
        store: &mut Store,
        index: u32,
    ) -> Result<Flow, NoMemory>
        requires before { IsBefore (Instr.Call index) self.old store.old }
        requires spaces { spaces.now ≡ spaces_at (scene_of store.old) self.old.function }
        requires fine { IsFine (scene_of store.old) }
        ensures leads { IfOk result (λ flow. Leads (steps self.old store.old) flow self.new store.new) }
        ensures entry { IfOk result (λ flow. Remains flow self.old self.new) }
        ensures scene { IfOk result (λ _. scene_of store.old ≡ scene_of store.new) }
        ensures grows { IfOk result (λ _. length self.new.controls.items ≤ length self.old.controls.items + 1) }
    {
        let callee = function_place(store, spaces, index);
        let flow = self.enter(store, callee)?;
        Ok(flow)
    }

    /// A call of a function that a table holds, which traps past the table's end, at a null and at another type.
    pub fn call_indirect(
        &mut self,
        spaces: &CoreSpaces,
        store: &mut Store,
        ty: u32,
        table: u32,
    ) -> Result<Flow, NoMemory>
        requires before { IsBefore (Instr.CallIndirect ty table) self.old store.old }
        requires spaces { spaces.now ≡ spaces_at (scene_of store.old) self.old.function }
        requires fine { IsFine (scene_of store.old) }
        ensures leads { IfOk result (λ flow. Leads (steps self.old store.old) flow self.new store.new) }
        ensures entry { IfOk result (λ flow. Remains flow self.old self.new) }
        ensures scene { IfOk result (λ _. scene_of store.old ≡ scene_of store.new) }
        ensures grows { IfOk result (λ _. length self.new.controls.items ≤ length self.old.controls.items + 1) }
    {
        let table = table_place(store, spaces, table);
        let at = low(self.slots.pop());
        match table_get(store, table, at) {
            Ok(CoreRef::Func(callee)) => {
                let due = type_at(spaces, ty);
                if !same_func(due, type_of(function(store, callee))) {
                    return Ok(Flow::Failed);
                }
                let flow = self.enter(store, callee)?;
                Ok(flow)
            }
            Ok(CoreRef::Null) => Ok(Flow::Failed),
            Err(_) => Ok(Flow::Failed),
        }
    }
}

// The type of a function.
pub fn type_of(function: &StoreFunc) -> &CoreFunc
    ensures { result.now ≡ type_of_function function.now }
{
    match function {
        StoreFunc::Inside {
            ty,
            instance: _,
            locals: _,
            body: _,
        } => ty.get(),
        StoreFunc::Outside { ty, number: _ } => ty.get(),
    }
}

fn same_type(a: CoreType, b: CoreType) -> bool
    ensures { result ≡ are_same a b }
{
    matches!(
        (a, b),
        (CoreType::I32, CoreType::I32)
            | (CoreType::I64, CoreType::I64)
            | (CoreType::Funcref, CoreType::Funcref)
            | (CoreType::Externref, CoreType::Externref)
    )
}

// Whether two lists of types are equal.
#[tactic(auto, using(crate::proofs::Alike::unlike, crate::proofs::Alike::alike_next, crate::proofs::Alike::alike_no, crate::proofs::Alike::alike_end))]
fn same_types(a: &[CoreType], b: &[CoreType]) -> bool
    ensures { result ≡ all_same a.now b.now }
{
    if a.len() != b.len() {
        return false;
    }
    for i in 0..a.len() {
        if !same_type(a[i], b[i]) {
            return false;
        }
    }
    true
}

fn same_func(a: &CoreFunc, b: &CoreFunc) -> bool
    ensures { result ≡ is_same a.now b.now }
{
    same_types(a.params.as_slice(), b.params.as_slice())
        && same_types(a.results.as_slice(), b.results.as_slice())
}
