//! Stubs that a text spells: `PARAMETERS > RESULTS | BEFORE | AFTER`. Parameters and results are written as locals, of which the
//! widths count. The routine after may be left out. In front of a line stands `asks` where the stub asks the host's function,
//! which takes two numbers of 32 bits and gives one.
//!
//! The locals are the parameters, the flag, the two that go to the host, if it is asked, the result, and further ones of 32 and of
//! 64 bits in turn.

ghost use Rattle.std.specs.Prelude.{◌≡◌, IsTrue, IfOk, replicate};
ghost use Rattle.std.specs.List.{All};
ghost use Rattle.virt_base.specs.declared.core_type.CoreType.TheVariants.{I32};
ghost use Rattle.adapter_code.specs.Code.{code_of};
ghost use Rattle.adapter_stubs.specs.Widths.{IsFlat};
ghost use Rattle.adapter_stubs.specs.Bodies.{HostFits, IsStub};
ghost use Rattle.adapter_stubs.specs.Stubs.{AreStubs};
ghost use Rattle.routine_rows.specs.Fitting.{Fits};

use crate::reading::{halves, local};
use crate::routines::routine;
use adapter_code::{Local, Statements, Width, is_well_formed};
use adapter_compile::{is_shallow, nesting_of};
use adapter_stubs::{HostFunc, Stub, stub_widths};
use std::alloc::Global;
use std::test::Fail;
use virt_base::{CoreType, Items, NoMemory};
use wasm_ast::CoreFunc;

/// The type of a function of numbers of 32 bits.
pub fn narrow(alloc: Global, params: usize, results: usize) -> Result<CoreFunc, NoMemory>
    ensures { IfOk result (λ f. f ≡ record { params = replicate params I32; results = replicate results I32 }) }
{
    Ok(CoreFunc {
        params: Items::new(vec![in alloc; CoreType::I32; params]?),
        results: Items::new(vec![in alloc; CoreType::I32; results]?),
    })
}

fn core_type(local: Local) -> CoreType
    ensures { IsFlat result }
{
    match local {
        Local::Small(_) => CoreType::I32,
        Local::Wide(_) => CoreType::I64,
    }
}

fn types(alloc: Global, words: &str) -> Result<Items<CoreType>, Fail>
    ensures { IfOk result (λ types. All IsFlat types) }
{
    let mut types = Items::empty(alloc);
    for word in words.split_whitespace() {
        types.push(core_type(local(word)?))?;
    }
    Ok(types)
}

/// The host's function, if it is asked.
fn host(alloc: Global, asks: bool, results: &[CoreType]) -> Result<Option<HostFunc>, Fail>
    ensures { IfOk result (λ h. HostFits results.now h) }
{
    if !asks {
        return Ok(None);
    }
    match results {
        [CoreType::I32] => Ok(Some(HostFunc {
            function: 7,
            flat: narrow(alloc, 2, 1)?,
        })),
        _ => Err(Fail::from("the host gives one number of 32 bits")),
    }
}

/// Whether a routine may stand in a stub with locals of these widths.
#[tactic(auto, using(adapter_compile::proofs::Lists::nesting_within))]
fn fits(alloc: Global, widths: &[Width], routine: &Statements) -> Result<bool, Fail>
    ensures { IfOk result (λ yes. IsTrue yes → Fits widths.now (code_of routine.now.items)) }
{
    if !is_well_formed(alloc, widths, routine)? || !is_shallow(widths, routine) {
        return Ok(false);
    }
    Ok(widths.len() + nesting_of(routine) as usize <= 40000)
}

/// A stub that has at most one result, and whose routines fit it.
fn tried(alloc: Global, stub: Box<Stub>) -> Result<Box<Stub>, Fail>
    requires params { All IsFlat stub.value.flat.params }
    requires results { All IsFlat stub.value.flat.results }
    requires host { HostFits stub.value.flat.results stub.value.host }
    ensures { IfOk result (λ s. IsStub s.value) }
{
    let widths = stub_widths(alloc, &stub)?;
    let good = stub.flat.results.len() <= 1
        && fits(alloc, &widths, &stub.before)?
        && fits(alloc, &widths, &stub.after)?;
    if !good {
        return Err(Fail::from("no stub"));
    }
    Ok(stub)
}

fn stub_of(alloc: Global, line: &str) -> Result<Box<Stub>, Fail>
    ensures { IfOk result (λ s. IsStub s.value) }
{
    let (asks, line) = match line.strip_prefix("asks ") {
        Some(rest) => (true, rest),
        None => (false, line),
    };
    let (head, routines) = halves(line, "|");
    let (params, results) = halves(head, ">");
    let (before, after) = halves(routines, "|");
    let flat = CoreFunc {
        params: types(alloc, params)?,
        results: types(alloc, results)?,
    };
    let host = host(alloc, asks, flat.results.as_slice())?;
    let before = routine(alloc, before)?;
    let after = routine(alloc, after)?;
    let stub = Stub {
        flat,
        before,
        host,
        after,
    };
    tried(alloc, Box::new(alloc, stub)?)
}

/// The stubs of these lines.
pub fn stubs(alloc: Global, lines: &str) -> Result<Vec<Stub>, Fail>
    ensures { IfOk result (λ list. AreStubs list.items) }
{
    let mut all = Vec::new(alloc);
    for line in lines.lines() {
        all.push(Box::into_inner(stub_of(alloc, line)?))?;
    }
    if all.len() > 100 {
        return Err(Fail::from("too many stubs"));
    }
    Ok(all)
}
