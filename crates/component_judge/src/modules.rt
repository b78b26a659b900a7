//! How many bytes of code a core module holds: its code sections are found in its bytes, by the sizes of its sections (core WebAssembly,
//! "Sections").

ghost use Rattle.std.specs.Prelude.{◌≡◌, ◌+◌, ◌≤◌, IfSome, length};
ghost use Rattle.virt_base.specs.Place.{place};
ghost use Rattle.component_judge.specs.Sizes.{section_at, code_size, module_code, Heads};

use virt_base::{Cursor, next_byte, read_u32};

/// The number of the section that holds the bodies of functions.
const CODE: u8 = 10;

/// How many bytes stand in front of a module's sections.
const PREAMBLE: usize = 8;

/// The number of the next section, and its size; the cursor is after it then.
fn next_section(c: &mut Cursor<'_>) -> Option<(u8, usize)>
    ensures input { c.new.bytes ≡ c.old.bytes }
    ensures section { Heads result c.new (section_at (place c.old)) }
    ensures far { IfSome result (λ s. c.old.at + s.1 ≤ c.new.at) }
{
    let Some(id) = next_byte(c) else {
        return None;
    };
    let Ok(size) = read_u32(c) else {
        return None;
    };
    let size = size as usize;
    if size > c.bytes.len() - c.at {
        return None;
    }
    c.at += size;
    Some((id, size))
}

/// The size of a section, if it holds code.
fn code_size(id: u8, size: usize) -> u64
    ensures value { result ≡ code_size id size }
    ensures small { result ≤ size }
{
    if id == CODE { size as u64 } else { 0 }
}

/// The bytes of the code sections of a module.
pub fn module_code(bytes: &[u8]) -> u64
    ensures value { result ≡ module_code bytes.now }
    ensures small { result ≤ length bytes.now }
{
    let mut code: u64 = 0;
    if bytes.len() < PREAMBLE {
        return code;
    }
    let mut c = Cursor {
        bytes,
        at: PREAMBLE,
    };
    for _ in 0..bytes.len() {
        let Some((id, size)) = next_section(&mut c) else {
            return code;
        };
        code += code_size(id, size);
    }
    code
}
