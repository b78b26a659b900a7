//! A core module is written: the preamble, and then its sections (WebAssembly Core 2.0, chapter 5).

ghost use Rattle.std.specs.Prelude.{◌≡◌, ◌++◌, ℕ, List, IfOk};
ghost use Rattle.wasm_format.specs.Format.{Format, AreBytes};
ghost use Rattle.wasm_ast.specs.Modules.{core_module, SpellsModule};
ghost use Rattle.core_write.specs.Written.{IsShortestOf, IsWritable, ModuleFits, module_bytes};

use crate::sections::{put_back, put_front};
use std::alloc::Global;
use virt_base::NoMemory;
use wasm_ast::Module;
use wasm_format::put_bytes;

/// The magic number and the version (WebAssembly Core 2.0, section 5.5.16).
const PREAMBLE: [u8; 8] = [0x00, 0x61, 0x73, 0x6D, 0x01, 0x00, 0x00, 0x00];

fn module_out(alloc: Global, module: &Module) -> Result<Vec<u8>, NoMemory>
    requires { ModuleFits «module».now }
    ensures { IfOk result (λ out. out.items ≡ module_bytes «module».now) }
{
    let mut out = Vec::new(alloc);
    put_bytes(alloc, &mut out, PREAMBLE.as_slice())?;
    put_front(alloc, &mut out, module)?;
    put_back(alloc, &mut out, module)?;
    Ok(out)
}

/// Writes a module (WebAssembly Core 2.0, chapter 5): its shortest spelling, which is read as this module and no other.
///
/// Custom sections are not part of a module, and a section whose list is empty is left out.
#[tactic(auto, using(crate::proofs::Shortest::is_shortest, crate::proofs::Shortest::is_written))]
pub fn write_module(alloc: Global, module: &Module) -> Result<Vec<u8>, NoMemory>
    requires { (text : List ℕ) × AreBytes text × SpellsModule «module».now text }
    ensures shortest { IfOk result (λ out. IsShortestOf «module».now out.items) }
    ensures written { IfOk result (λ out. out.items ≡ core_module.write «module».now) }
{
    module_out(alloc, module)
}

/// The same of a module of which it is known that it may be written: its counts, sizes and indexes are below 2^32, its names are
/// UTF-8, and brackets match.
#[tactic(auto, using(crate::proofs::Writable::fitting_is_shortest, crate::proofs::Writable::fitting_is_written))]
pub fn write_writable(alloc: Global, module: &Module) -> Result<Vec<u8>, NoMemory>
    requires { IsWritable «module».now }
    ensures shortest { IfOk result (λ out. IsShortestOf «module».now out.items) }
    ensures written { IfOk result (λ out. out.items ≡ core_module.write «module».now) }
{
    module_out(alloc, module)
}
