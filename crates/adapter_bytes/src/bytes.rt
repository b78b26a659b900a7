//! Both modules, written.

ghost use Rattle.std.specs.Prelude.{◌≡◌, ◌≤◌, ◌<◌, IfOk, IfErr};
ghost use Rattle.core_validate.specs.Validity.{IsValidModule};
ghost use Rattle.core_write.specs.Written.{IsShortestOf, IsWritable};
ghost use Rattle.adapter_bytes.specs.Emit.{AreRoutines, state_in, stubs_in};
ghost use Rattle.adapter_bytes.specs.Weight.{weight_in, most_weight, AreNumberedStubs};
ghost use Rattle.adapter_bytes.specs.declared.fault.EmitFault.TheVariants.{TooLarge as IsTooLarge};

use crate::fault::EmitFault;
use crate::weight::is_light;
use crate::{Emitted, Routines, emit};
use core_write::write_writable;
use std::alloc::Global;
use virt_base::NoMemory;

/// The bytes of the module that holds the adapter's memory, and of the module of the functions that it exports.
#[derive(Debug, Drop)]
pub struct EmittedBytes {
    pub state: Vec<u8>,
    pub stubs: Vec<u8>,
}

/// The adapter's core modules, each in its shortest spelling (WebAssembly Core 2.0, chapter 5); both are valid.
///
/// `TooLarge` exactly where the statements and locals of all stubs are together more than `MOST_WEIGHT`.
pub fn emit_bytes(alloc: Global, routines: &Routines) -> Result<EmittedBytes, EmitFault>
    requires { AreRoutines routines.now }
    ensures state { IfOk result (λ bytes. IsShortestOf (state_in routines.now) bytes.state.items) }
    ensures stubs { IfOk result (λ bytes. IsShortestOf (stubs_in routines.now) bytes.stubs.items) }
    ensures valid { IfOk result (λ bytes. IsValidModule (state_in routines.now)) }
    ensures valid_stubs { IfOk result (λ bytes. IsValidModule (stubs_in routines.now)) }
    ensures light { IfOk result (λ bytes. weight_in routines.now.stubs.items ≤ most_weight) }
    ensures large { IfErr result (λ fault. fault ≡ IsTooLarge → most_weight < weight_in routines.now.stubs.items) }
{
    if !is_light(alloc, &routines.stubs)? {
        return Err(EmitFault::TooLarge);
    }
    let bytes = emit_light(alloc, routines)?;
    Ok(bytes)
}

fn emit_light(alloc: Global, routines: &Routines) -> Result<EmittedBytes, NoMemory>
    requires routines { AreRoutines routines.now }
    requires numbered { AreNumberedStubs routines.now.stubs.items }
    requires light { weight_in routines.now.stubs.items ≤ most_weight }
    ensures state { IfOk result (λ bytes. IsShortestOf (state_in routines.now) bytes.state.items) }
    ensures stubs { IfOk result (λ bytes. IsShortestOf (stubs_in routines.now) bytes.stubs.items) }
    ensures valid { IfOk result (λ bytes. IsValidModule (state_in routines.now)) }
    ensures valid_stubs { IfOk result (λ bytes. IsValidModule (stubs_in routines.now)) }
{
    let emitted = emit(alloc, routines)?;
    let bytes = write_both(alloc, &emitted)?;
    Ok(bytes)
}

fn write_both(alloc: Global, emitted: &Emitted) -> Result<EmittedBytes, NoMemory>
    requires state { IsWritable emitted.now.state }
    requires stubs { IsWritable emitted.now.stubs }
    ensures state { IfOk result (λ bytes. IsShortestOf emitted.now.state bytes.state.items) }
    ensures stubs { IfOk result (λ bytes. IsShortestOf emitted.now.stubs bytes.stubs.items) }
{
    let state = write_writable(alloc, &emitted.state)?;
    let stubs = write_writable(alloc, &emitted.stubs)?;
    Ok(EmittedBytes { state, stubs })
}
