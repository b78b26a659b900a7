//! A core module is read, alone or as a part of a larger input, and a fault has its place (WebAssembly Core 2.0, chapter 5).

ghost use Rattle.std.specs.Prelude.{◌≡◌};
ghost use Rattle.virt_base.specs.Place.{place};
ghost use Rattle.wasm_format.specs.Format.{Format};
ghost use Rattle.wasm_ast.specs.Modules.{core_module};
ghost use Rattle.core_read.specs.Answers.{Answers};

use crate::sections::Progress;
use crate::select_lists::SelectLists;
use std::alloc::Global;
use virt_base::{Cursor, NoMemory};
use wasm_ast::Module;
use wasm_format::{Reader, Stop, expect_bytes, read_sections, read_to_the_end};

/// Why no module is read.
#[derive(Debug, Clone, Copy, PartialEq, Eq)]
pub enum ReadFault {
    /// That many bytes at the front are a module, and no more; 0 where none are.
    Malformed(u64),
    /// The byte at this offset is a tag that the table of its place lacks.
    Unsupported(u64, u8),
    NoMemory,
}

/// The magic number and the version (WebAssembly Core 2.0, section 5.5.16).
const PREAMBLE: [u8; 8] = [0x00, 0x61, 0x73, 0x6D, 0x01, 0x00, 0x00, 0x00];

/// Modules that are a part of a larger input: from the cursor to the end of its bytes, with offsets from their start.
#[derive(Clone, Copy)]
pub struct CoreModules<'a>(pub &'a SelectLists);

impl<'a> Reader for CoreModules<'a> {
    type Value = Module;

    ghost format = { λ _. core_module };

    #[tactic(auto, unfolding(wasm_ast::specs::Modules::core_module, wasm_ast::specs::Modules::all_sections))]
    fn read(&self, alloc: Global, c: &mut Cursor<'_>) -> Result<Module, Stop> {
        expect_bytes(c, PREAMBLE.as_slice())?;
        let progress = read_to_the_end(alloc, c, Progress::start(self.0))?;
        Ok(progress.module())
    }
}

fn read_sharing(selects: &SelectLists, alloc: Global, bytes: &[u8]) -> Result<Module, ReadFault>
    ensures { Answers result bytes.now }
{
    let mut c = Cursor { bytes, at: 0 };
    if expect_bytes(&mut c, PREAMBLE.as_slice()).is_err() {
        return Err(ReadFault::Malformed(0));
    }
    let mut good = 0;
    match read_sections(alloc, &mut c, Progress::start(selects), &mut good) {
        Ok(progress) => Ok(progress.module()),
        Err(Stop::NoMemory) => Err(ReadFault::NoMemory),
        Err(Stop::Malformed) => Err(ReadFault::Malformed(good as u64)),
        Err(Stop::Unsupported { at, byte }) => Err(ReadFault::Unsupported(at as u64, byte)),
        // nothing is nested in a module
        Err(Stop::TooNested) => Err(ReadFault::Malformed(good as u64)),
    }
}

/// Reads a module (WebAssembly Core 2.0, chapter 5): `Ok` exactly where one spells the bytes, and then that one.
///
/// `Unsupported` exactly where reading from the left meets a tag that the table of its place lacks: the byte stands at that offset,
/// and no module begins as these bytes do, up to and with it. Every other failure is `Malformed`, with the length of the longest
/// front of the bytes that is a module, and 0 where none is.
pub fn read_module(alloc: Global, bytes: &[u8]) -> Result<Module, ReadFault>
    ensures { Answers result bytes.now }
{
    match SelectLists::new(alloc) {
        Ok(selects) => read_sharing(&selects, alloc, bytes),
        Err(NoMemory) => Err(ReadFault::NoMemory),
    }
}
