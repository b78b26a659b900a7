//! The two modules of the adapter.

ghost use Rattle.std.specs.Prelude.{◌≡◌, ◌≤◌, length, IfOk};
ghost use Rattle.core_validate.specs.Validity.{IsValidModule};
ghost use Rattle.adapter_bytes.specs.Emit.{AreRoutines, state_in, stubs_in};

use crate::posts::posts_of;
use adapter_code::Layout;
use adapter_state::{Presence, state_module};
use adapter_stubs::{Stub, stubs_module};
use std::alloc::Global;
use virt_base::{Bytes, NoMemory, copy_bytes};
use wasm_ast::Module;

/// What the adapter is made of: what its functions do, in the order of their places; of each kind of resource, by its number,
/// whether the world and the host have it; the static data, and how the memory is cut.
#[derive(Drop)]
pub struct Routines {
    pub stubs: Vec<Stub>,
    pub kinds: Vec<Presence>,
    pub image: Bytes,
    pub layout: Layout,
}

/// The module that holds the adapter's memory, and the module of the functions that it exports.
#[derive(Debug, Drop)]
pub struct Emitted {
    pub state: Module,
    pub stubs: Module,
}

/// The adapter's core modules.
pub fn emit(alloc: Global, routines: &Routines) -> Result<Emitted, NoMemory>
    requires { AreRoutines routines.now }
    ensures state { IfOk result (λ emitted. emitted.state ≡ state_in routines.now) }
    ensures stubs { IfOk result (λ emitted. emitted.stubs ≡ stubs_in routines.now) }
    ensures valid { IfOk result (λ emitted. IsValidModule emitted.state) }
    ensures valid_stubs { IfOk result (λ emitted. IsValidModule emitted.stubs) }
{
    let Routines {
        stubs,
        kinds,
        image,
        layout,
    } = routines;
    let image = copy_bytes(alloc, image.as_slice())?;
    let state = state_module(alloc, kinds, layout, image, posts_of(stubs))?;
    let stubs = stubs_module(alloc, kinds, layout, stubs)?;
    Ok(Emitted { state, stubs })
}
