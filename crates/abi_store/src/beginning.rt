//! Storing a value at a place begins: what comes before its parts is written at once, the parts are left in progress (Component Model,
//! CanonicalABI.md, "Storing").

#![tactic(auto, using(crate::proofs::Views::views))]

ghost use Rattle.std.specs.Prelude.{◌≡◌, ◌≤◌, ◌<◌, ◌+◌, ◌*◌, ◌^◌, [], length, IfOk};
ghost use Rattle.core_memory.specs.Number.{IsWidth, bytes_of};
ghost use Rattle.wit_types.specs.Plain.{plain, payload_of, case_part, End};
ghost use Rattle.wit_types.specs.PlainValue.{plain_value, payload_of as value_payload_of};
ghost use Rattle.wit_types.specs.Limits.{parts as parts_in, all_parts};
ghost use Rattle.abi_layout.specs.Storing.{number_bytes};
ghost use Rattle.core_memory.specs.Linear.{Linear};
ghost use Rattle.abi_store.specs.Parts.{parts_from, cases_in};
ghost use Rattle.abi_store.specs.Flows.{Leads, flow_lowered};
ghost use Rattle.abi_store.specs.Works.{Took, write_at, written_lowered, begun_lowered, value_lowered, record_lowered, payload_lowered, text_lowered, list_lowered, variant_lowered};
ghost use Rattle.abi_store.specs.Weights.{turns, payload_turns, begun_turns};

use crate::cases::{number_width, payload_place, payload_type};
use crate::content::{Cell, Content, ListContent};
use crate::forms::{backwards, list_in, record_in, text_in, variant_in};
use crate::number::{LONG, number};
use crate::parts::Parts;
use crate::request::Flow;
use crate::room::request_for;
use crate::work::{Begun, RecordWork, ValueWork, Work, Written};
use abi_layout::flags_width;
use core_store::{Store, StoreFault, store_at, write};
use std::alloc::Global;
use std::rc::Rc;
use virt_base::NoMemory;
use wit_types::{Value, WitType};

/// Writes the lowest bytes of a number.
pub fn put(
    store: &mut Store,
    memory: u32,
    at: u64,
    width: u8,
    number: u64,
) -> Result<Written, NoMemory>
    requires memory { memory < length store.old.memories }
    requires width { IsWidth width }
    ensures { IfOk result (λ w. Took store.old store.new memory (write_at at (bytes_of width number)) (written_lowered w)) }
{
    match store_at(store, memory, at, width, number) {
        Ok(()) => Ok(Written::Done),
        Err(StoreFault::Trap) => Ok(Written::Past),
        Err(StoreFault::NoMemory) => Err(NoMemory),
    }
}

/// Writes bytes.
pub fn put_bytes(store: &mut Store, memory: u32, at: u64, bytes: &[u8]) -> Result<Written, NoMemory>
    requires memory { memory < length store.old.memories }
    ensures { IfOk result (λ w. Took store.old store.new memory (write_at at bytes.now) (written_lowered w)) }
{
    match write(store, memory, at, bytes) {
        Ok(()) => Ok(Written::Done),
        Err(StoreFault::Trap) => Ok(Written::Past),
        Err(StoreFault::NoMemory) => Err(NoMemory),
    }
}

pub fn begun_of(flow: Flow) -> Begun
    ensures value { begun_lowered result ≡ flow_lowered flow }
    ensures ends { begun_turns result ≡ 0 }
{
    match flow {
        Flow::Goes => Begun::Stored,
        Flow::Asks(request) => Begun::Asks(request),
        Flow::Trapped => Begun::Trapped,
    }
}

pub fn begun_by(written: Written) -> Begun
    ensures value { begun_lowered result ≡ written_lowered written }
    ensures ends { begun_turns result ≡ 0 }
{
    match written {
        Written::Done => Begun::Stored,
        Written::Past => Begun::Trapped,
    }
}

/// A value that is one number.
fn store_number(
    store: &mut Store,
    memory: u32,
    value: Value,
    at: u64,
    width: u8,
) -> Result<Begun, NoMemory>
    requires memory { memory < length store.old.memories }
    requires width { IsWidth width }
    ensures took { IfOk result (λ b. Took store.old store.new memory (write_at at (number_bytes width (plain_value value))) (begun_lowered b)) }
    ensures ends { IfOk result (λ b. begun_turns b ≡ 0) }
{
    let written = put(store, memory, at, width, number(LONG, &value))?;
    Ok(begun_by(written))
}

fn begin_string(value: Value, at: u64) -> Begun
    requires low { at ≤ 2 ^ 50 }
    ensures leads { (m : Linear) → Leads m (text_lowered (plain_value value) at) m (begun_lowered result) }
    ensures ends { begun_turns result ≡ 0 }
{
    match text_in(value) {
        None => Begun::Stored,
        Some(text) => begun_of(request_for(Content::Text(text), Cell::Memory(at))),
    }
}

fn begin_list(item: &Rc<WitType>, value: Value, at: u64) -> Result<Begun, NoMemory>
    requires small { parts_in (plain item.now.value) ≤ 1000000 }
    requires low { at ≤ 2 ^ 50 }
    ensures ends { IfOk result (λ b. begun_turns b ≡ 0) }
    ensures leads { IfOk result (λ b. (m : Linear) → Leads m (list_lowered (plain item.now.value) (plain_value value) at) m (begun_lowered b)) }
{
    match list_in(value) {
        None => Ok(Begun::Stored),
        Some(values) => {
            let item = item.clone()?;
            let content = Content::List(ListContent { item, values });
            Ok(begun_of(request_for(content, Cell::Memory(at))))
        }
    }
}

fn begin_record(alloc: Global, parts: Parts, value: Value, at: u64) -> Result<Begun, NoMemory>
    requires small { all_parts (parts_from parts 0) ≤ 1000000 }
    requires low { at + 32 * all_parts (parts_from parts 0) + 32 ≤ 2 ^ 50 }
    ensures fewer { IfOk result (λ b. begun_turns b < turns (plain_value value)) }
    ensures leads { IfOk result (λ b. (m : Linear) → Leads m (record_lowered (parts_from parts 0) (plain_value value) at) m (begun_lowered b)) }
{
    match record_in(value) {
        None => Ok(Begun::Stored),
        Some(values) => {
            let left = backwards(alloc, values)?;
            Ok(Begun::Opened(Work::Record(RecordWork {
                parts,
                next: 0,
                left,
                at,
                offset: 0,
            })))
        }
    }
}

fn begin_payload(ty: Option<Rc<WitType>>, payload: Option<Box<Value>>, at: u64) -> Begun
    requires small { all_parts (case_part [] (payload_of ty) End) ≤ 1000000 }
    requires low { at + 32 * all_parts (case_part [] (payload_of ty) End) ≤ 2 ^ 50 }
    ensures few { begun_turns result ≤ payload_turns (value_payload_of payload) }
    ensures value { payload_lowered (payload_of ty) (value_payload_of payload) at 0 ≡ begun_lowered result 0 }
{
    match ty {
        None => Begun::Stored,
        Some(ty) => match payload {
            None => Begun::Stored,
            Some(value) => Begun::Opened(Work::Value(ValueWork {
                ty,
                value: Box::into_inner(value),
                at,
            })),
        },
    }
}

fn begin_variant(
    store: &mut Store,
    memory: u32,
    ty: &WitType,
    value: Value,
    at: u64,
) -> Result<Begun, NoMemory>
    requires memory { memory < length store.old.memories }
    requires small { parts_in (plain ty.now) ≤ 1000000 }
    requires low { at + 32 * all_parts (cases_in (plain ty.now)) + 32 ≤ 2 ^ 50 }
    ensures fewer { IfOk result (λ b. begun_turns b < turns (plain_value value)) }
    ensures took { IfOk result (λ b. Took store.old store.new memory (variant_lowered (cases_in (plain ty.now)) (plain_value value) at) (begun_lowered b)) }
{
    match variant_in(value) {
        None => Ok(Begun::Stored),
        Some((number, payload)) => {
            let payload_ty = payload_type(ty, number)?;
            let place = at + payload_place(ty) as u64;
            match put(store, memory, at, number_width(ty), number as u64)? {
                Written::Done => Ok(begin_payload(payload_ty, payload, place)),
                Written::Past => Ok(Begun::Trapped),
            }
        }
    }
}

/// Stores a value at a place, or what of it comes before others.
pub fn begin(
    alloc: Global,
    store: &mut Store,
    memory: u32,
    ty: &WitType,
    value: Value,
    at: u64,
) -> Result<Begun, NoMemory>
    requires memory { memory < length store.old.memories }
    requires small { parts_in (plain ty.now) ≤ 1000000 }
    requires low { at + 32 * parts_in (plain ty.now) ≤ 2 ^ 50 }
    ensures fewer { IfOk result (λ b. begun_turns b < turns (plain_value value)) }
    ensures took { IfOk result (λ b. Took store.old store.new memory (value_lowered (plain ty.now) (plain_value value) at) (begun_lowered b)) }
{
    match ty {
        WitType::Bool | WitType::S8 | WitType::U8 => store_number(store, memory, value, at, 1),
        WitType::S16 | WitType::U16 => store_number(store, memory, value, at, 2),
        WitType::S64 | WitType::U64 => store_number(store, memory, value, at, 8),
        WitType::Flags(labels) => {
            store_number(store, memory, value, at, flags_width(labels.len()))
        }
        WitType::Str => Ok(begin_string(value, at)),
        WitType::List(item) => begin_list(item, value, at),
        WitType::Record(fields) => begin_record(alloc, Parts::Fields(fields.clone()?), value, at),
        WitType::Tuple(types) => begin_record(alloc, Parts::Types(types.clone()?), value, at),
        WitType::Variant(_) | WitType::Enum(_) | WitType::Option(_) | WitType::Result(_, _) => {
            begin_variant(store, memory, ty, value, at)
        }
        _ => store_number(store, memory, value, at, 4),
    }
}
