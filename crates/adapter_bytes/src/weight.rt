//! How much code stubs have.

ghost use Rattle.std.specs.Prelude.{◌≡◌, ◌↔◌, true, ◌+◌, ◌<◌, ◌≤◌, ◌^◌, IfOk, IfSome, IfNone, length};
ghost use Rattle.adapter_stubs.specs.Widths.{stub_widths as widths_of};
ghost use Rattle.adapter_stubs.specs.Bodies.{IsStub};
ghost use Rattle.adapter_stubs.specs.Stubs.{AreStubs};
ghost use Rattle.adapter_bytes.specs.Weight.{weight_of, weight_in, most_weight, IsNumberedHost, IsNumberedStub, AreNumberedStubs};

use crate::statements::weigh;
use adapter_stubs::{HostFunc, Stub, stub_widths};
use std::alloc::Global;
use virt_base::NoMemory;

/// What the statements and locals of all stubs may be together.
pub const MOST_WEIGHT: u32 = 33_554_432;

/// Whether the statements and locals of all stubs are together at most `MOST_WEIGHT`.
pub fn is_light(alloc: Global, stubs: &[Stub]) -> Result<bool, NoMemory>
    requires { AreStubs stubs.now }
    ensures light { IfOk result (λ light. light ≡ true ↔ weight_in stubs.now ≤ most_weight) }
    ensures numbered { IfOk result (λ light. light ≡ true → AreNumberedStubs stubs.now) }
{
    let mut left = MOST_WEIGHT;
    for stub in stubs {
        match weigh_stub(alloc, stub, left)? {
            Some(rest) => left = rest,
            None => return Ok(false),
        }
    }
    Ok(true)
}

fn weigh_stub(alloc: Global, stub: &Stub, left: u32) -> Result<Option<u32>, NoMemory>
    requires { IsStub stub.now }
    ensures some { IfOk result (λ o. IfSome o (λ rest. rest + weight_of stub.now ≡ left)) }
    ensures none { IfOk result (λ o. IfNone o (left < weight_of stub.now)) }
    ensures numbered { IfOk result (λ o. IfSome o (λ rest. IsNumberedStub stub.now)) }
{
    let widths = stub_widths(alloc, stub)?;
    let locals = widths.len() as u32;
    Ok(weigh_behind(stub, locals, left))
}

// The routines of a stub with that many locals.
fn weigh_behind(stub: &Stub, locals: u32, left: u32) -> Option<u32>
    requires { locals ≡ length (widths_of stub.now) }
    ensures some { IfSome result (λ rest. rest + weight_of stub.now ≡ left) }
    ensures none { IfNone result (left < weight_of stub.now) }
    ensures numbered { IfSome result (λ rest. IsNumberedStub stub.now) }
{
    number_host(&stub.host);
    let rest = spend(locals, left)?;
    let rest = weigh(&stub.before, rest)?;
    weigh(&stub.after, rest)
}

// The number of a function of the host has 32 bits.
fn number_host(host: &Option<HostFunc>)
    ensures { IsNumberedHost host.now }
{
    if let Some(host) = host {
        number(host.function);
    }
}

fn number(function: u32)
    ensures { function < 2 ^ 32 }
{
    let _function = function;
}

fn spend(locals: u32, left: u32) -> Option<u32>
    ensures some { IfSome result (λ rest. rest + locals ≡ left) }
    ensures none { IfNone result (left < locals) }
{
    if left < locals {
        return None;
    }
    Some(left - locals)
}
