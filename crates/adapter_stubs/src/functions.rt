//! The functions that the stubs module defines and exports, one for each stub.

ghost use Rattle.std.specs.Prelude.{◌≡◌, ◌+◌, ◌<◌, ◌^◌, length, IfOk};
ghost use Rattle.adapter_stubs.specs.Stubs.{stub_function, stub_functions, AreStubs};
ghost use Rattle.adapter_stubs.specs.Bodies.{IsStub};

use crate::bodies::stub_body;
use crate::imports::asks;
use crate::stub::Stub;
use adapter_compile::HandleCalls;
use adapter_transfer::Defined;
use std::alloc::Global;
use virt_base::{NoMemory, Text};

/// A function for each stub; the first that is asked has the index `asked`, and the first type the index `types`.
pub fn functions(
    alloc: Global,
    calls: &HandleCalls,
    asked: u32,
    types: u32,
    stubs: &[Stub],
) -> Result<Vec<Defined>, NoMemory>
    requires stubs { AreStubs stubs.now }
    requires asked { asked < 2 ^ 30 }
    requires types { types < 2 ^ 31 }
    ensures { IfOk result (λ list. list.items ≡ stub_functions calls.now 0 asked types stubs.now) }
{
    let mut list = Vec::new(alloc);
    let mut place = 0;
    let mut at = asked;
    let mut ty = types;
    for stub in stubs {
        list.push(function(alloc, calls, place, at, ty, stub)?)?;
        place += 1;
        at += asks(&stub.host);
        ty += 1;
    }
    Ok(list)
}

fn function(
    alloc: Global,
    calls: &HandleCalls,
    place: u32,
    at: u32,
    ty: u32,
    stub: &Stub,
) -> Result<Defined, NoMemory>
    requires { IsStub stub.now }
    ensures { IfOk result (λ d. d ≡ stub_function calls.now place at ty stub.now) }
{
    let name = Text::from_string(format!(in alloc; "{place}")?);
    let body = stub_body(alloc, calls, at, stub)?;
    Ok(Defined { name, ty, body })
}
