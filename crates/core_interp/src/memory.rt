//! Loads and stores, and the size of a memory.

ghost use Rattle.std.specs.Prelude.{◌≡◌, ◌≤◌, ◌<◌, ◌^◌, IfOk, length};
ghost use Rattle.core_memory.specs.Number.{IsWidth, bytes_of};
ghost use Rattle.core_store.specs.Plain.{load_bytes, store_bytes, extended as extended_by};
ghost use Rattle.core_integer.specs.Integer.{converted as converted_by};
ghost use Rattle.core_store.specs.Effects.{put_bytes, grown_size, grow_memory};
ghost use Rattle.core_store.specs.Scene.{scene_of};
ghost use Rattle.core_interp.specs.Groups.{IsOnMemory};
ghost use Rattle.core_store.specs.Fine.{takes, Names};
ghost use Rattle.core_interp.specs.Plains.{Did, Made, Stays, word_of_answer};

use crate::fetch::memory_place;
use crate::operands::low;
use core_integer::integer;
use core_slots::Slots;
use core_store::{CoreSpaces, Store, StoreFault, grow, load, size, store_at};
use std::alloc::Global;
use virt_base::NoMemory;
use wasm_ast::{LoadOp, Op, StoreOp};

// How many bytes a load reads.
#[inline]
fn load_width(op: LoadOp) -> u8
    ensures width { IsWidth result }
    ensures value { result ≡ load_bytes op }
{
    match op {
        LoadOp::I32 | LoadOp::I64Narrow32S | LoadOp::I64Narrow32U => 4,
        LoadOp::I64 => 8,
        LoadOp::I32Narrow8S | LoadOp::I32Narrow8U | LoadOp::I64Narrow8S | LoadOp::I64Narrow8U => 1,
        LoadOp::I32Narrow16S | LoadOp::I32Narrow16U | LoadOp::I64Narrow16S | LoadOp::I64Narrow16U =>
            2,
    }
}

// How many bytes a store writes.
#[inline]
fn store_width(op: StoreOp) -> u8
    ensures width { IsWidth result }
    ensures value { result ≡ store_bytes op }
{
    match op {
        StoreOp::I32 | StoreOp::I64Narrow32 => 4,
        StoreOp::I64 => 8,
        StoreOp::I32Narrow8 | StoreOp::I64Narrow8 => 1,
        StoreOp::I32Narrow16 | StoreOp::I64Narrow16 => 2,
    }
}

// The value of a numeric instruction of one operand that never traps.
#[inline]
fn converted(code: u8, value: u64) -> u64
    requires code { 0xC0 ≤ code × code ≤ 0xC4 }
    requires small { value < 2 ^ 32 }
    ensures { result ≡ converted_by code value }
{
    match integer(code, value, 0) {
        Ok(value) => value,
        Err(_) => unreachable!(),
    }
}

// The value that a load leaves.
#[inline]
fn extended(op: LoadOp, value: u64) -> u64
    requires { value < 256 ^ load_bytes op }
    ensures { result ≡ extended_by op value }
{
    match op {
        LoadOp::I32Narrow8S => converted(0xC0, value),
        LoadOp::I32Narrow16S => converted(0xC1, value),
        LoadOp::I64Narrow8S => converted(0xC2, value),
        LoadOp::I64Narrow16S => converted(0xC3, value),
        LoadOp::I64Narrow32S => converted(0xC4, value),
        LoadOp::I32
        | LoadOp::I64
        | LoadOp::I32Narrow8U
        | LoadOp::I32Narrow16U
        | LoadOp::I64Narrow8U
        | LoadOp::I64Narrow16U
        | LoadOp::I64Narrow32U => value,
    }
}

// Writes an integer, or answers that it traps.
#[inline]
#[tactic(auto, using(crate::proofs::Changes::bytes_put))]
fn put(store: &mut Store, memory: u32, at: u64, width: u8, value: u64) -> Result<bool, NoMemory>
    requires memory { memory < length store.old.memories }
    requires width { IsWidth width }
    ensures { IfOk result (Made (put_bytes store.old memory at (bytes_of width value)) store.old store.new) }
{
    match store_at(store, memory, at, width, value) {
        Ok(()) => Ok(true),
        Err(StoreFault::Trap) => Ok(false),
        Err(StoreFault::NoMemory) => Err(NoMemory),
    }
}

// The word of the answer of a call that grows something.
#[inline]
pub fn answer(size: i32) -> u64
    ensures { result ≡ word_of_answer size }
{
    size.cast_unsigned() as u64
}

// Grows a memory.
#[inline(never)]
#[tactic(auto, using(crate::proofs::Changes::memory_grows))]
fn grow_by(alloc: Global, store: &mut Store, memory: u32, pages: u32) -> Result<u64, NoMemory>
    requires { memory < length store.old.memories }
    ensures size { IfOk result (λ answer. answer ≡ grown_size store.old memory pages) }
    ensures store { IfOk result (λ _. store.new ≡ grow_memory store.old memory pages) }
    ensures stays { IfOk result (λ _. Stays store.old store.new) }
{
    let size = grow(alloc, store, memory, pages)?;
    Ok(answer(size))
}

/// Does a load or a store, or asks for or changes the size of a memory; or answers that it traps.
#[inline(always)]
pub fn on_memory(
    alloc: Global,
    slots: &mut Slots,
    store: &mut Store,
    spaces: &CoreSpaces,
    op: Op,
) -> Result<bool, NoMemory>
    requires group { IsOnMemory op }
    requires operands { takes op ≤ length slots.old.operands }
    requires names { Names (scene_of store.old) spaces.now (length slots.old.locals) op }
    ensures did { IfOk result (λ went. Did op spaces.now slots.old store.old slots.new store.new went) }
{
    match op {
        Op::Load(op, at) => {
            let memory = memory_place(store, spaces);
            let base = low(slots.pop());
            match load(
                store,
                memory,
                base as u64 + at.offset as u64,
                load_width(op),
            ) {
                Ok(value) => {
                    slots.push(extended(op, value))?;
                    Ok(true)
                }
                Err(_) => Ok(false),
            }
        }
        Op::Store(op, at) => {
            let memory = memory_place(store, spaces);
            let value = slots.pop();
            let base = low(slots.pop());
            put(
                store,
                memory,
                base as u64 + at.offset as u64,
                store_width(op),
                value,
            )
        }
        Op::MemorySize => {
            let memory = memory_place(store, spaces);
            slots.push(size(store, memory) as u64)?;
            Ok(true)
        }
        Op::MemoryGrow => {
            let memory = memory_place(store, spaces);
            let pages = low(slots.pop());
            let answer = grow_by(alloc, store, memory, pages)?;
            slots.push(answer)?;
            Ok(true)
        }
        _ => unreachable!(),
    }
}
