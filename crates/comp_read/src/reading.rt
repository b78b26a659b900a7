//! A component is read, and a fault has its place (Component Model, Binary.md).

ghost use Rattle.std.specs.Prelude.{◌≡◌};
ghost use Rattle.comp_read.specs.Answers.{Answers};

use crate::nesting::{PREAMBLE, read_sections};
use core_read::SelectLists;
use std::alloc::Global;
use virt_base::{Cursor, NoMemory};
use wasm_ast::Component;
use wasm_format::{Stop, expect_bytes};

/// Why no component is read.
#[derive(Debug, Clone, Copy, PartialEq, Eq)]
pub enum CompReadFault {
    /// That many bytes at the front are a component, and no more; 0 where none are.
    Malformed(u64),
    /// The byte at this offset is a tag that the table of its place lacks.
    Unsupported(u64, u8),
    /// A component stands so deep, and none may.
    TooNested(u64),
    NoMemory,
}

/// How deep components may stand in the outermost one.
const DEPTH_INSIDE: u32 = 99;

/// The first depth at which none may.
const TOO_DEEP: u64 = 101;

fn read_sharing(
    selects: &SelectLists,
    alloc: Global,
    bytes: &[u8],
) -> Result<Component, CompReadFault>
    ensures { Answers result bytes.now }
{
    let mut c = Cursor { bytes, at: 0 };
    if expect_bytes(&mut c, PREAMBLE.as_slice()).is_err() {
        return Err(CompReadFault::Malformed(0));
    }
    let mut good = 0;
    match read_sections(selects, alloc, &mut c, DEPTH_INSIDE, &mut good) {
        Ok(component) => Ok(component),
        Err(Stop::NoMemory) => Err(CompReadFault::NoMemory),
        Err(Stop::Malformed) => Err(CompReadFault::Malformed(good as u64)),
        Err(Stop::Unsupported { at, byte }) => Err(CompReadFault::Unsupported(at as u64, byte)),
        Err(Stop::TooNested) => Err(CompReadFault::TooNested(TOO_DEEP)),
    }
}

/// Reads a component (Component Model, Binary.md): `Ok` exactly where one of which at most 100 stand in one another spells the
/// bytes, and then that one.
///
/// `Unsupported` exactly where reading from the left meets a tag that the table of its place lacks: the byte stands at that offset,
/// and no component, however deep, begins as these bytes do, up to and with it. `TooNested` exactly where it reaches a component
/// 101 deep. Every other failure is `Malformed`, with the length of the longest front of the bytes that is
/// a component, and 0 where none is. Offsets count from the start of the bytes, also inside what is nested.
pub fn read_component(alloc: Global, bytes: &[u8]) -> Result<Component, CompReadFault>
    ensures { Answers result bytes.now }
{
    match SelectLists::new(alloc) {
        Ok(selects) => read_sharing(&selects, alloc, bytes),
        Err(NoMemory) => Err(CompReadFault::NoMemory),
    }
}
