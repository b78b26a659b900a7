//! The destructors of the adapter's resources (Component Model, CanonicalABI.md, `canon resource.drop`): the place of a handle is freed,
//! and the host's handle in it is dropped.

ghost use Rattle.std.specs.Prelude.{◌≡◌, ◌<◌, IfOk, IfSome};
ghost use Rattle.adapter_code.specs.Code.{code_of};
ghost use Rattle.adapter_compile.specs.Does.{body_of};
ghost use Rattle.adapter_state.specs.Destructor.{release_code, destroy_code, routine_of, destroy_widths, IsDestructor};

use adapter_code::{Statements, Width, append, constant, load};
use adapter_compile::{HandleCalls, compile};
use std::alloc::Global;
use table_bytes::{OWN, TAG, WORD, drop_handle, equal, own_free, placed_at, to_place, when};
use virt_base::NoMemory;
use wasm_ast::Body;

/// Where the locals of the routines on slot tables stand: the place is the parameter.
const PLACES: [u32; 8] = [1, 0, 2, 3, 4, 5, 6, 7];

/// The body of the destructor of a kind whose slot table begins at `base`: a function of a place. A kind that the host has is
/// given.
///
/// It frees the place, asks for the drop of the host's handle where the place holds one, and does nothing else, in at most
/// 800 steps.
pub fn destructor(
    alloc: Global,
    base: u32,
    host: Option<u8>,
    calls: &HandleCalls,
) -> Result<Body, NoMemory>
    requires { IfSome host (λ kind. kind < 14) }
    ensures code { IfOk result (λ body. body ≡ body_of 1 destroy_widths calls.now (routine_of host base)) }
    ensures does { IfOk result (λ body. IsDestructor host base calls.now body) }
{
    let widths = [
        Width::Narrow,
        Width::Narrow,
        Width::Narrow,
        Width::Narrow,
        Width::Narrow,
        Width::Narrow,
        Width::Narrow,
        Width::Broad,
    ];
    let routine = destroy(alloc, base, host)?;
    compile(alloc, 1, &widths, calls, &routine)
}

fn destroy(alloc: Global, base: u32, host: Option<u8>) -> Result<Statements, NoMemory>
    ensures { IfOk result (λ list. code_of list.items ≡ routine_of host base) }
{
    let own = own_destroy(alloc, base, host)?;
    placed_at(alloc, &PLACES, &own)
}

// Over the locals of `OWN`.
fn own_destroy(alloc: Global, base: u32, host: Option<u8>) -> Result<Statements, NoMemory>
    ensures { IfOk result (λ list. code_of list.items ≡ destroy_code host base) }
{
    match host {
        None => own_free(alloc, base),
        Some(kind) => {
            let mut list = release(alloc, base, kind)?;
            append(&mut list, own_free(alloc, base)?)?;
            Ok(list)
        }
    }
}

// Drops the host's handle in a place that holds one.
fn release(alloc: Global, base: u32, kind: u8) -> Result<Statements, NoMemory>
    ensures { IfOk result (λ list. code_of list.items ≡ release_code kind base) }
{
    let drops = vec![in alloc; load(OWN.word, OWN.spot, WORD), drop_handle(kind, OWN.word)]?;
    let mut list = to_place(alloc, base)?;
    let held = vec![in alloc;
        load(OWN.tag, OWN.spot, TAG),
        constant(OWN.found, 1),
        equal(OWN.found, OWN.tag, OWN.found),
        when(alloc, OWN.found, drops),
    ]?;
    append(&mut list, held)?;
    Ok(list)
}
