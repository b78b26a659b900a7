//! A routine as the body of a core function, with parameters, further locals, and counters for its repeats.

ghost use Rattle.std.specs.Prelude.{◌≡◌, ◌+◌, ◌<◌, ◌≤◌, ◌^◌, [], IfOk, length};
ghost use Rattle.adapter_code.specs.Code.{code_of};
ghost use Rattle.adapter_code.specs.WellFormed.{IsWellFormed};
ghost use Rattle.adapter_compile.specs.Bounds.{brackets};
ghost use Rattle.adapter_compile.specs.Does.{Compiles, body_of, declared_of, core_type as type_of};

use crate::bounds::nesting_of;
use crate::calls::HandleCalls;
use crate::code::put_routine;
use adapter_code::{Statement, Width};
use std::alloc::Global;
use virt_base::{CoreType, Items, NoMemory};
use wasm_ast::{Body, Instr, LocalRun};

/// The body of a function that does what a routine does. The first `params` of the routine's locals are its parameters, the others begin
/// as 0, and it has no result.
///
/// A call ends after at least one and at most 32 steps for each statement that the routine runs and 32 more, with the
/// routine's end, memory, handles and effects.
pub fn compile(
    alloc: Global,
    params: usize,
    widths: &[Width],
    calls: &HandleCalls,
    routine: &[Statement],
) -> Result<Body, NoMemory>
    requires fine { IsWellFormed widths.now [] (code_of routine.now) }
    requires shallow { length widths.now + brackets (code_of routine.now) < 2 ^ 32 }
    requires params { params ≤ length widths.now }
    ensures code { IfOk result (λ body. body ≡ body_of params widths.now calls.now (code_of routine.now)) }
    ensures does { IfOk result (λ body. Compiles params widths.now calls.now (code_of routine.now) body) }
{
    let mut code = Vec::new(alloc);
    put_routine(alloc, &mut code, widths, calls, routine)?;
    code.push(Instr::End)?;
    let locals = declared(alloc, &widths[params..], nesting_of(routine))?;
    let code = Items::new(code);
    Ok(Body { locals, code })
}

/// The declaration of locals of these widths, and of that many counters after them.
pub fn declared(alloc: Global, widths: &[Width], counters: u32) -> Result<Items<LocalRun>, NoMemory>
    ensures { IfOk result (λ runs. runs ≡ declared_of widths.now counters) }
{
    let mut runs = Vec::new(alloc);
    for width in widths {
        let ty = core_type(*width);
        runs.push(LocalRun { count: 1, ty })?;
    }
    if counters > 0 {
        let ty = CoreType::I32;
        let count = counters;
        runs.push(LocalRun { count, ty })?;
    }
    Ok(Items::new(runs))
}

fn core_type(width: Width) -> CoreType
    ensures { result ≡ type_of width }
{
    match width {
        Width::Narrow => CoreType::I32,
        Width::Broad => CoreType::I64,
    }
}
