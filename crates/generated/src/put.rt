//! Sections, and bytes after their length in LEB128 (core WebAssembly, "Binary Format").

ghost use Rattle.std.specs.Prelude.{◌≡◌, ◌++◌, OnOk};
ghost use Rattle.generated.specs.Bytes.{number, sized, section};

use std::alloc::Global;
use virt_base::{NoMemory, write_u32};
use wasm_format::{put_byte, put_bytes};

/// Adds a length. One that 32 bits cannot say counts as out of memory: a generated component is far shorter.
fn put_length(alloc: Global, out: &mut Vec<u8>, len: usize) -> Result<(), NoMemory>
    ensures { OnOk result (out.new.items ≡ out.old.items ++ number len) }
{
    match u32::try_from(len) {
        Ok(len) => write_u32(alloc, out, len),
        Err(_) => Err(NoMemory),
    }
}

/// Adds bytes after their length.
pub fn put_sized(alloc: Global, out: &mut Vec<u8>, content: &[u8]) -> Result<(), NoMemory>
    ensures { OnOk result (out.new.items ≡ out.old.items ++ sized content.now) }
{
    put_length(alloc, out, content.len())?;
    put_bytes(alloc, out, content)
}

/// Adds a section after its number.
pub fn put_section(alloc: Global, out: &mut Vec<u8>, id: u8, content: &[u8]) -> Result<(), NoMemory>
    ensures { OnOk result (out.new.items ≡ out.old.items ++ section id content.now) }
{
    put_byte(alloc, out, id)?;
    put_sized(alloc, out, content)
}
