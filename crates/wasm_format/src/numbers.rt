//! Readers of numbers and of indexes, in LEB128 (core WebAssembly, Binary Format, "Integers").

ghost use Rattle.std.specs.Prelude.{◌≡◌};
ghost use Rattle.virt_base.specs.Place.{place};
ghost use Rattle.wasm_format.specs.Format.{Format, u32_format};
ghost use Rattle.wasm_format.specs.Numbers.{s32_format, s64_format, s33_index};
ghost use Rattle.wasm_format.specs.Reads.{Reads};

use crate::reader::Reader;
use crate::stop::Stop;
use std::alloc::Global;
use virt_base::{Cursor, read_s32, read_s33, read_s64, read_u32};

/// Unsigned numbers of 32 bits: counts, sizes and indexes.
#[derive(Clone, Copy)]
pub struct U32;

impl Reader for U32 {
    type Value = u32;

    ghost format = { λ _. u32_format };

    #[tactic(auto, unfolding(crate::specs::Format::u32_format))]
    fn read(&self, _alloc: Global, c: &mut Cursor<'_>) -> Result<u32, Stop> {
        match read_u32(c) {
            Ok(n) => Ok(n),
            Err(_) => Err(Stop::Malformed),
        }
    }
}

/// Signed numbers of 32 bits.
#[derive(Clone, Copy)]
pub struct S32;

impl Reader for S32 {
    type Value = i32;

    ghost format = { λ _. s32_format };

    #[tactic(auto, unfolding(crate::specs::Numbers::s32_format))]
    fn read(&self, _alloc: Global, c: &mut Cursor<'_>) -> Result<i32, Stop> {
        match read_s32(c) {
            Ok(n) => Ok(n),
            Err(_) => Err(Stop::Malformed),
        }
    }
}

/// Signed numbers of 64 bits.
#[derive(Clone, Copy)]
pub struct S64;

impl Reader for S64 {
    type Value = i64;

    ghost format = { λ _. s64_format };

    #[tactic(auto, unfolding(crate::specs::Numbers::s64_format))]
    fn read(&self, _alloc: Global, c: &mut Cursor<'_>) -> Result<i64, Stop> {
        match read_s64(c) {
            Ok(n) => Ok(n),
            Err(_) => Err(Stop::Malformed),
        }
    }
}

/// Indexes that are spelled as signed numbers of 33 bits, where a negative one is malformed.
#[derive(Clone, Copy)]
pub struct S33Index;

impl Reader for S33Index {
    type Value = u32;

    ghost format = { λ _. s33_index };

    #[tactic(auto, unfolding(crate::specs::Numbers::s33_format, crate::specs::Numbers::s33_index))]
    fn read(&self, _alloc: Global, c: &mut Cursor<'_>) -> Result<u32, Stop> {
        match read_s33(c) {
            Ok(n) if n >= 0 => Ok(n as u32),
            _ => Err(Stop::Malformed),
        }
    }
}
