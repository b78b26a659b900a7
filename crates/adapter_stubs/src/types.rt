//! The function types of the stubs module: those of what drops a handle, of realloc and of what makes a handle; then those of the host's
//! functions, and then those of the stubs.

ghost use Rattle.std.specs.Prelude.{◌≡◌, ◌++◌, ◌∷◌, [], IfOk, OnOk};
ghost use Rattle.adapter_compile.specs.Handles.{makes_type, drops_type};
ghost use Rattle.adapter_transfer.specs.Transfer.{realloc_type};
ghost use Rattle.adapter_stubs.specs.Stubs.{host_type, host_types, stub_types, stubs_types};

use crate::stub::{HostFunc, Stub};
use std::alloc::Global;
use virt_base::{CoreType, Items, NoMemory};
use wasm_ast::CoreFunc;

/// What drops a handle, realloc, what makes a handle; then the types of the host's functions, and those of the stubs.
pub fn types(alloc: Global, stubs: &[Stub]) -> Result<Items<CoreFunc>, NoMemory>
    ensures { IfOk result (λ list. list ≡ stubs_types stubs.now) }
{
    let mut list = first_types(alloc)?;
    put_host_types(alloc, &mut list, stubs)?;
    put_stub_types(alloc, &mut list, stubs)?;
    Ok(list)
}

fn first_types(alloc: Global) -> Result<Items<CoreFunc>, NoMemory>
    ensures { IfOk result (λ list. list ≡ drops_type ∷ realloc_type ∷ makes_type ∷ []) }
{
    let narrow = CoreType::I32;
    let drops = CoreFunc {
        params: Items::new(vec![in alloc; narrow]?),
        results: Items::empty(alloc),
    };
    let request = CoreFunc {
        params: Items::new(vec![in alloc; narrow, narrow, narrow, narrow]?),
        results: Items::new(vec![in alloc; narrow]?),
    };
    let makes = CoreFunc {
        params: Items::new(vec![in alloc; narrow]?),
        results: Items::new(vec![in alloc; narrow]?),
    };
    Ok(Items::new(vec![in alloc; drops, request, makes]?))
}

fn put_host_types(alloc: Global, list: &mut Items<CoreFunc>, stubs: &[Stub]) -> Result<(), NoMemory>
    ensures { OnOk result (list.new ≡ list.old ++ host_types stubs.now) }
{
    for stub in stubs {
        put_host_type(alloc, list, &stub.host)?;
    }
    Ok(())
}

fn put_host_type(
    alloc: Global,
    list: &mut Items<CoreFunc>,
    host: &Option<HostFunc>,
) -> Result<(), NoMemory>
    ensures { OnOk result (list.new ≡ list.old ++ host_type host.now) }
{
    match host {
        Some(host) => list.push(copy_type(alloc, &host.flat)?),
        None => Ok(()),
    }
}

fn put_stub_types(alloc: Global, list: &mut Items<CoreFunc>, stubs: &[Stub]) -> Result<(), NoMemory>
    ensures { OnOk result (list.new ≡ list.old ++ stub_types stubs.now) }
{
    for stub in stubs {
        list.push(copy_type(alloc, &stub.flat)?)?;
    }
    Ok(())
}

fn copy_type(alloc: Global, ty: &CoreFunc) -> Result<CoreFunc, NoMemory>
    ensures { IfOk result (λ copy. copy ≡ ty.now) }
{
    let params = Vec::from_slice(alloc, ty.params.as_slice())?;
    let results = Vec::from_slice(alloc, ty.results.as_slice())?;
    Ok(CoreFunc {
        params: Items::new(params),
        results: Items::new(results),
    })
}
