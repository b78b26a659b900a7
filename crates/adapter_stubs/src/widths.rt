//! The widths of a stub's locals: of its parameters, the flag, what goes to the host and the result, and then of those that its routines
//! name.

ghost use Rattle.std.specs.Prelude.{◌≡◌, ◌+◌, ◌-◌, ◌++◌, IfOk, OnOk, max};
ghost use Rattle.adapter_code.specs.Code.{code_of};
ghost use Rattle.adapter_stubs.specs.Named.{span};
ghost use Rattle.adapter_stubs.specs.Widths.{width_of as width_from, widths_of, width_at as width_in_turn, further, result_width as result_from, host_params, stub_widths as stub_widths_of};

use crate::locals_named;
use crate::stub::{HostFunc, Stub};
use adapter_code::Width;
use std::alloc::Global;
use virt_base::{CoreType, NoMemory};

/// The widths of a stub's locals.
pub fn stub_widths(alloc: Global, stub: &Stub) -> Result<Vec<Width>, NoMemory>
    ensures { IfOk result (λ widths. widths.items ≡ stub_widths_of stub.now) }
{
    let mut widths = Vec::new(alloc);
    put_widths(&mut widths, stub.flat.params.as_slice())?;
    widths.push(Width::Narrow)?;
    put_host(&mut widths, &stub.host)?;
    widths.push(result_width(stub.flat.results.as_slice()))?;
    let first = widths.len() as u64;
    put_further(&mut widths, named_behind(stub, first))?;
    Ok(widths)
}

fn put_widths(widths: &mut Vec<Width>, types: &[CoreType]) -> Result<(), NoMemory>
    ensures { OnOk result (widths.new.items ≡ widths.old.items ++ widths_of types.now) }
{
    for ty in types {
        widths.push(width_of(*ty))?;
    }
    Ok(())
}

fn put_host(widths: &mut Vec<Width>, host: &Option<HostFunc>) -> Result<(), NoMemory>
    ensures { OnOk result (widths.new.items ≡ widths.old.items ++ widths_of (host_params host.now)) }
{
    match host {
        Some(host) => put_widths(widths, host.flat.params.as_slice()),
        None => Ok(()),
    }
}

// How many locals the routines name after the first ones.
fn named_behind(stub: &Stub, first: u64) -> u64
    ensures { result ≡ max (span (code_of stub.now.before.items)) (span (code_of stub.now.after.items)) - first }
{
    let before = locals_named(&stub.before);
    let after = locals_named(&stub.after);
    let most = if before < after { after } else { before };
    most.saturating_sub(first)
}

fn put_further(widths: &mut Vec<Width>, count: u64) -> Result<(), NoMemory>
    ensures { OnOk result (widths.new.items ≡ widths.old.items ++ further 0 count) }
{
    for i in 0..count {
        widths.push(width_at(i))?;
    }
    Ok(())
}

fn width_at(i: u64) -> Width
    ensures { result ≡ width_in_turn i }
{
    if i % 2 == 0 {
        Width::Narrow
    } else {
        Width::Broad
    }
}

fn width_of(ty: CoreType) -> Width
    ensures { result ≡ width_from ty }
{
    match ty {
        CoreType::I64 => Width::Broad,
        CoreType::I32 | CoreType::Funcref | CoreType::Externref => Width::Narrow,
    }
}

fn result_width(results: &[CoreType]) -> Width
    ensures { result ≡ result_from results.now }
{
    match results {
        [first, ..] => width_of(*first),
        [] => Width::Narrow,
    }
}
