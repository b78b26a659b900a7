//! The stubs module, put together from its types, imports and functions.

ghost use Rattle.std.specs.Prelude.{◌≡◌, ◌≤◌, length, IfOk};
ghost use Rattle.core_validate.specs.Validity.{IsValidModule};
ghost use Rattle.adapter_code.specs.Layout.{Fits};
ghost use Rattle.adapter_stubs.specs.Stubs.{stubs_of, AreStubs};

use crate::functions::functions;
use crate::imports::{new_indexes, put_host_imports, put_new_imports, state_imports};
use crate::stub::Stub;
use crate::types::types;
use adapter_code::Layout;
use adapter_compile::HandleCalls;
use adapter_state::{Presence, drop_indexes, put_drop_imports};
use adapter_transfer::{Parts, assemble};
use std::alloc::Global;
use virt_base::{Items, NoMemory};
use wasm_ast::Module;

/// The module of the adapter's functions, each exported under its place: over the memory and realloc of its state module, and
/// the host's functions that are asked. The kinds of the world are given by their number.
pub fn stubs_module(
    alloc: Global,
    kinds: &[Presence],
    layout: &Layout,
    stubs: &[Stub],
) -> Result<Module, NoMemory>
    requires kinds { length kinds.now ≤ 14 }
    requires fits { Fits layout.now }
    requires stubs { AreStubs stubs.now }
    ensures tree { IfOk result (λ m. m ≡ stubs_of kinds.now layout.now stubs.now) }
    ensures valid { IfOk result (λ m. IsValidModule m) }
{
    let mut imports = state_imports(alloc, layout)?;
    put_new_imports(alloc, &mut imports, kinds)?;
    let drops = imports.len() as u32 - 1;
    put_drop_imports(alloc, &mut imports, kinds)?;
    let asked = imports.len() as u32 - 1;
    put_host_imports(alloc, &mut imports, stubs)?;
    let imported = imports.len() as u32 - 1;
    let calls = HandleCalls {
        makes: new_indexes(alloc, kinds, 1)?,
        drops: drop_indexes(alloc, kinds, drops)?,
    };
    let list = functions(alloc, &calls, asked, 3 + imported - asked, stubs)?;
    let parts = Parts {
        types: types(alloc, stubs)?,
        imports,
        imported,
        memories: Items::empty(alloc),
        globals: Items::empty(alloc),
        exports: Items::empty(alloc),
        segments: Items::empty(alloc),
    };
    assemble(alloc, parts, list)
}
