//! What the routines of one row share: the locals of its function, and how the memory is cut.

use crate::layouts::result_payload;
use crate::places::Places;
use crate::routine::Routine;
use crate::spare::Spare;
use abi_layout::{Flat, flatten};
use adapter_code::Field;
use std::alloc::Global;
use virt_base::{CoreType, Items, NoMemory};
use wasm_ast::CoreFunc;
use wit_types::{FuncType, WitType};

/// The locals of a function of the adapter, and how the memory is cut. Its parameters come first; then the flag, what goes to the
/// host's function, and the flat result; then further ones, of 32 and of 64 bits in turn.
#[derive(Clone, Copy, Debug)]
pub struct Frame {
    pub alloc: Global,
    pub places: Places,
    /// The first local of each argument.
    pub args: [u32; 8],
    /// Where it is not 0 after the first routine, the host is asked.
    pub flag: u32,
    /// The first of what goes to the host.
    pub host: u32,
    /// The flat result; of an answer in memory its place.
    pub result: u32,
    /// Holds 0, the place of the answer's record.
    pub at: u32,
    /// A local of 32 bits that answers and `spot` lose.
    pub scratch: u32,
    /// A local of 64 bits that answers lose.
    pub scratch_long: u32,
    /// Where a result's payload stands in its record.
    pub payload: u32,
    /// Whether the answer is a record in memory.
    pub has_record: bool,
    /// Further locals.
    pub spare: Spare,
}

/// The core types of a function of the adapter, and of the host's function that it asks.
#[derive(Drop)]
pub struct RowTypes {
    pub flat: CoreFunc,
    pub host: Option<CoreFunc>,
}

/// Where each argument begins among the flat ones, and how many these are.
struct FlatArguments {
    firsts: [u32; 8],
    flat: Vec<CoreType>,
}

fn put_flat(flat: &mut Vec<CoreType>, more: &Flat) -> Result<(), NoMemory> {
    for i in 0..more.count {
        let place = i as usize;
        if place < more.types.len() {
            flat.push(more.types[place])?;
        }
    }
    Ok(())
}

fn capped(len: usize) -> u32 {
    u32::try_from(len).unwrap_or(u32::MAX)
}

fn arguments(alloc: Global, ty: &FuncType) -> Result<FlatArguments, NoMemory> {
    let mut firsts = [0; 8];
    let mut flat = Vec::new(alloc);
    let params = ty.params.items.as_slice();
    for i in 0..params.len() {
        if i < firsts.len() {
            firsts[i] = capped(flat.len());
        }
        put_flat(&mut flat, &flatten(&params[i].ty))?;
    }
    Ok(FlatArguments { firsts, flat })
}

fn has_record(given: &Option<WitType>) -> bool {
    match given {
        Some(ty) => flatten(ty).count > 1,
        None => false,
    }
}

fn payload_in(given: &Option<WitType>) -> u32 {
    match given {
        Some(WitType::Result(ok, err)) => result_payload(ok, err),
        _ => 0,
    }
}

// One flat result, or the place of the record.
fn results_of(
    alloc: Global,
    given: &Option<WitType>,
    in_memory: bool,
) -> Result<Vec<CoreType>, NoMemory> {
    let mut flat = Vec::new(alloc);
    if in_memory {
        flat.push(CoreType::I32)?;
    } else {
        match given {
            Some(ty) => put_flat(&mut flat, &flatten(ty))?,
            None => {}
        }
    }
    Ok(flat)
}

// Of the host's function: the place of the record is the last argument.
fn host_type(
    alloc: Global,
    given: &Option<WitType>,
    params: &[CoreType],
    in_memory: bool,
) -> Result<CoreFunc, NoMemory> {
    let mut all = Vec::from_slice(alloc, params)?;
    let mut results = Vec::new(alloc);
    if in_memory {
        all.push(CoreType::I32)?;
    } else {
        results = results_of(alloc, given, false)?;
    }
    Ok(CoreFunc {
        params: Items::new(all),
        results: Items::new(results),
    })
}

fn types_of(
    alloc: Global,
    ty: &FuncType,
    params: Vec<CoreType>,
    hosted: bool,
) -> Result<RowTypes, NoMemory> {
    let in_memory = has_record(&ty.result);
    let host = if hosted {
        Some(host_type(alloc, &ty.result, params.as_slice(), in_memory)?)
    } else {
        None
    };
    let results = results_of(alloc, &ty.result, in_memory)?;
    Ok(RowTypes {
        flat: CoreFunc {
            params: Items::new(params),
            results: Items::new(results),
        },
        host,
    })
}

fn host_count(host: &Option<CoreFunc>) -> u32 {
    match host {
        Some(ty) => capped(ty.params.len()),
        None => 0,
    }
}

/// What the routines of a function share, and its core types: of a function that asks the host, or that does not.
pub fn frame_of(
    alloc: Global,
    places: Places,
    ty: &FuncType,
    hosted: bool,
) -> Result<(Frame, RowTypes), NoMemory> {
    let FlatArguments { firsts, flat } = arguments(alloc, ty)?;
    let flag = capped(flat.len());
    let types = types_of(alloc, ty, flat, hosted)?;
    let host = flag.saturating_add(1);
    let result = host.saturating_add(host_count(&types.host));
    let own = Spare {
        first: result.saturating_add(1),
    };
    let frame = Frame {
        alloc,
        places,
        args: firsts,
        flag,
        host,
        result,
        at: own.narrow(0),
        scratch: own.narrow(1),
        scratch_long: own.broad(0),
        payload: payload_in(&ty.result),
        has_record: has_record(&ty.result),
        spare: own.after(2),
    };
    Ok((frame, types))
}

impl Frame {
    /// A routine without statements.
    pub fn routine(&self) -> Routine {
        Routine::new(self.alloc)
    }

    /// How each routine begins: `at` is set.
    pub fn begin(&self) -> Routine {
        if self.has_record {
            self.routine().constant(self.at, 0)
        } else {
            self.routine()
        }
    }

    /// The first local of an argument; 0 past the eighth.
    pub fn arg(&self, i: usize) -> u32 {
        if i < self.args.len() { self.args[i] } else { 0 }
    }

    /// The same where that many pairs of further locals are taken: for a part in the midst of a routine.
    pub fn inside(&self, pairs: u8) -> Frame {
        Frame {
            spare: self.spare.after(pairs),
            ..*self
        }
    }

    /// A field of a result's payload.
    pub fn payload_field(&self, offset: u32, width: u8) -> Field {
        Field {
            offset: self.payload.saturating_add(offset),
            width,
        }
    }
}
