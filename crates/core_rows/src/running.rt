//! A call of a module's function, from the module's bytes to the call's pauses.

ghost use Rattle.std.specs.Prelude.{◌<◌, IsTrue, IfOk, length, slice_get};
ghost use Rattle.std.specs.List.{All};
ghost use Rattle.core_store.specs.Scene.{scene_of};
ghost use Rattle.core_store.specs.Fine.{IsFine};
ghost use Rattle.core_instance.specs.Spaces.{IsThere};
ghost use Rattle.core_interp.specs.Session.{IsCallable};

use crate::pieces::module_of;
use crate::rows::{numbers_of, shown};
use core_instance::{CoreInstance, Extern, Externs, NamedExtern, imports_match, instantiate};
use core_interp::{CoreValues, Machine, Pause};
use core_slots::values;
use core_store::{
    Shared, Store, StoreFault, StoreFunc, add_function, add_table, function, functions,
};
use core_validate::validate;
use std::alloc::Global;
use std::test::Fail;
use virt_base::{CoreType, Items, NoMemory};
use wasm_ast::CoreFunc;

/// Whether there is a function of that many parameters at a place of the store.
fn is_callable(store: &Store, at: u32, count: usize) -> bool
    ensures { IsTrue result → IsCallable (slice_get store.now.functions at) count }
{
    if at >= functions(store) {
        return false;
    }
    match function(store, at) {
        StoreFunc::Inside { ty, .. } => ty.get().params.len() == count,
        StoreFunc::Outside { ty, .. } => ty.get().params.len() == count,
    }
}

/// An instance of the module that words spell, or why there is none.
pub fn instance(
    alloc: Global,
    store: &mut Store,
    words: &str,
    imports: &Externs,
) -> Result<Result<CoreInstance, StoreFault>, Fail>
    requires imports { All (IsThere store.old) imports.now }
    requires fine { IsFine (scene_of store.old) }
    ensures { IfOk result (λ made. IfOk made (λ _. IsFine (scene_of store.new))) }
{
    let module = module_of(alloc, words)?;
    if validate(alloc, &module).is_err() || !imports_match(store, &module, imports) {
        return Err(Fail::from("no valid module, or imports that do not match"));
    }
    Ok(instantiate(alloc, store, &module, imports))
}

/// The type of a function from these parameters to these results.
fn func_type(
    alloc: Global,
    params: &[CoreType],
    results: &[CoreType],
) -> Result<Shared<CoreFunc>, NoMemory> {
    let params = Items::new(Vec::from_slice(alloc, params)?);
    let results = Items::new(Vec::from_slice(alloc, results)?);
    Shared::new(alloc, CoreFunc { params, results })
}

/// A store with the embedder's functions 9, from an i64 to an i32, and 8, which takes and gives nothing, and with a table.
pub fn embedders(alloc: Global) -> Result<Store, NoMemory>
    ensures there { IfOk result (λ s. 0 < length s.functions) }
    ensures fine { IfOk result (λ s. IsFine (scene_of s)) }
{
    let ty = func_type(alloc, &[CoreType::I64], &[CoreType::I32])?;
    let other = func_type(alloc, &[], &[])?;
    let mut store = Store::new(alloc);
    let _ = add_function(alloc, &mut store, StoreFunc::Outside { ty, number: 9 })?;
    let _ = add_function(
        alloc,
        &mut store,
        StoreFunc::Outside {
            ty: other,
            number: 8,
        },
    )?;
    let _ = add_table(alloc, &mut store, 1, None)?;
    Ok(store)
}

/// The values of words at the types of a function's parameters; and of the words after them each as an i32.
fn typed(
    alloc: Global,
    store: &Store,
    at: u32,
    words: &[u64],
) -> Result<(CoreValues, CoreValues), Fail> {
    if at >= functions(store) {
        return Err(Fail::from("no function"));
    }
    let ty = match function(store, at) {
        StoreFunc::Inside { ty, .. } => ty.get(),
        StoreFunc::Outside { ty, .. } => ty.get(),
    };
    let params = ty.params.as_slice();
    let args = values(alloc, 0, params, words)?;
    let rest = words.get(params.len()..).unwrap_or(&[]);
    Ok((args, values(alloc, 0, &[CoreType::I32], rest)?))
}

/// Calls a function: the numbers are how many steps it has, its arguments, and what the embedder answers where it is asked; it has as
/// many steps then. How the call ends and what is left, or the question, how the call goes on, and how many calls are then in
/// progress.
fn call(alloc: Global, store: &mut Store, at: u32, numbers: &[u64]) -> Result<String, Fail>
    requires { IsFine (scene_of store.old) }
{
    let [budget, words @ ..] = numbers else {
        return Err(Fail::from("no steps"));
    };
    let (args, results) = typed(alloc, store, at, words)?;
    if !is_callable(store, at, args.len()) {
        return Err(Fail::from("no function of these arguments"));
    }
    let mut left = *budget;
    let mut machine = Machine::start(alloc, at, &args)?;
    let pause = machine.run(alloc, store, &mut left)?;
    match pause {
        Pause::AtHost(number, args) => {
            if results.len() != machine.awaits() {
                return Err(Fail::from("another number of results is due"));
            }
            machine.resume(&results);
            let mut more = *budget;
            let end = machine.run(alloc, store, &mut more)?;
            let question = (number, args, left);
            shown(alloc, &(question, (end, more), store.nesting()))
        }
        end => shown(alloc, &(end, left)),
    }
}

/// Makes an instance of a module, and calls the function that is its first export: the module's words, a blank, and numbers.
pub fn run(alloc: Global, store: &mut Store, row: &str, imports: &Externs) -> Result<String, Fail>
    requires imports { All (IsThere store.old) imports.now }
    requires fine { IsFine (scene_of store.old) }
{
    let Some((module, numbers)) = row.split_once(' ') else {
        return Err(Fail::from("no module"));
    };
    let numbers = numbers_of(alloc, numbers)?;
    let Ok(made) = instance(alloc, store, module, imports)? else {
        return Err(Fail::from("a segment traps"));
    };
    match made.exports.as_slice() {
        [
            NamedExtern {
                item: Extern::Func(at),
                ..
            },
            ..
        ] => { call(alloc, store, *at, numbers.as_slice()) }
        _ => Err(Fail::from("the first export is no function")),
    }
}
