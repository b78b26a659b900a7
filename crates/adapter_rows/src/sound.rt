//! Whether rows may be put into the adapter's modules.

ghost use Rattle.std.specs.Prelude.{◌≡◌, ◌↔◌, ◌⊎◌, ◌<◌, ◌+◌, ◌^◌, [], true, length, max, IfOk, IsTrue};
ghost use Rattle.std.specs.List.{All};
ghost use Rattle.adapter_code.specs.Code.{code_of};
ghost use Rattle.adapter_code.specs.WellFormed.{IsWellFormed};
ghost use Rattle.adapter_compile.specs.Bounds.{nesting, brackets};
ghost use Rattle.adapter_stubs.specs.Widths.{IsFlat, stub_widths as widths_of};
ghost use Rattle.adapter_stubs.specs.Bodies.{HostFits, IsStub};
ghost use Rattle.adapter_stubs.specs.Stubs.{AreStubs};
ghost use Rattle.adapter_bytes.specs.Emit.{AreRoutines};

use adapter_bytes::Routines;
use adapter_code::{Statement, Width, is_well_formed};
use adapter_compile::{is_shallow, nesting_of};
use adapter_stubs::{HostFunc, Stub, stub_widths};
use std::alloc::Global;
use virt_base::{CoreType, NoMemory};

/// A function has at most that many locals, those that count turns among them.
const MOST_LOCALS: usize = 40_000;

const MOST_STUBS: usize = 1_073_741_823;

fn is_flat(ty: CoreType) -> bool
    ensures { result ≡ true → IsFlat ty }
{
    match ty {
        CoreType::I32 => true,
        CoreType::I64 => true,
        CoreType::Funcref => false,
        CoreType::Externref => false,
    }
}

fn are_flat(types: &[CoreType]) -> bool
    ensures { result ≡ true → All IsFlat types.now }
{
    for ty in types {
        if !is_flat(*ty) {
            return false;
        }
    }
    true
}

fn same_types(a: &[CoreType], b: &[CoreType]) -> bool
    ensures { IsTrue result ↔ (a.now ≡ b.now) }
{
    *a == *b
}

// Whether the host's function gives nothing, or what the stub gives.
fn gives_alike(given: &[CoreType], results: &[CoreType]) -> bool
    ensures { result ≡ true → (given.now ≡ []) ⊎ (given.now ≡ results.now) }
{
    match given {
        [] => true,
        _ => same_types(given, results),
    }
}

fn host_fits(results: &[CoreType], host: &Option<HostFunc>) -> bool
    ensures { result ≡ true → HostFits results.now host.now }
{
    match host {
        Some(host) => {
            if !are_flat(host.flat.params.as_slice()) {
                return false;
            }
            gives_alike(host.flat.results.as_slice(), results)
        }
        None => true,
    }
}

/// Whether a routine is well formed and shallow over locals of these widths.
fn is_fine(alloc: Global, widths: &[Width], routine: &[Statement]) -> Result<bool, NoMemory>
    ensures formed { IfOk result (λ fine. fine ≡ true → IsWellFormed widths.now [] (code_of routine.now)) }
    ensures shallow { IfOk result (λ fine. fine ≡ true → length widths.now + brackets (code_of routine.now) < 2 ^ 32) }
{
    if !is_shallow(widths, routine) {
        return Ok(false);
    }
    is_well_formed(alloc, widths, routine)
}

// How many locals count turns.
fn counters(stub: &Stub) -> u32
    requires before { nesting (code_of stub.now.before.items) < 2 ^ 32 }
    requires after { nesting (code_of stub.now.after.items) < 2 ^ 32 }
    ensures { result ≡ max (nesting (code_of stub.now.before.items)) (nesting (code_of stub.now.after.items)) }
{
    let before = nesting_of(&stub.before);
    let after = nesting_of(&stub.after);
    if before < after { after } else { before }
}

/// Whether a stub may be put into the module.
#[tactic(auto, using(adapter_compile::proofs::Lists::nesting_within))]
fn is_stub(alloc: Global, stub: &Stub) -> Result<bool, NoMemory>
    ensures { IfOk result (λ fine. fine ≡ true → IsStub stub.now) }
{
    let results = stub.flat.results.as_slice();
    if !are_flat(stub.flat.params.as_slice()) || !are_flat(results) || results.len() > 1 {
        return Ok(false);
    }
    if !host_fits(results, &stub.host) {
        return Ok(false);
    }
    let widths = stub_widths(alloc, stub)?;
    if !is_fine(alloc, &widths, &stub.before)? {
        return Ok(false);
    }
    if !is_fine(alloc, &widths, &stub.after)? {
        return Ok(false);
    }
    let most = MOST_LOCALS.saturating_sub(counters(stub) as usize);
    Ok(widths.len() <= most && counters(stub) <= 40_000)
}

fn are_stubs(alloc: Global, stubs: &[Stub]) -> Result<bool, NoMemory>
    ensures { IfOk result (λ fine. fine ≡ true → All IsStub stubs.now) }
{
    for stub in stubs {
        if !is_stub(alloc, stub)? {
            return Ok(false);
        }
    }
    Ok(true)
}

/// Whether the adapter's modules can be made of these rows: the memory holds its parts, the static data is as long as the layout
/// says, and each routine is well formed over the locals of its function. An answer of true is exact.
pub fn is_sound(alloc: Global, routines: &Routines) -> Result<bool, NoMemory>
    ensures { IfOk result (λ sound. sound ≡ true → AreRoutines routines.now) }
{
    if routines.kinds.len() > 14 || !routines.layout.fits() {
        return Ok(false);
    }
    if routines.image.len() != routines.layout.image_len as usize {
        return Ok(false);
    }
    if routines.stubs.len() > MOST_STUBS {
        return Ok(false);
    }
    are_stubs(alloc, &routines.stubs)
}
