//! The generated component, section by section: one core module, the lowered imports of two functions of WASI 0.2, and lifted exports
//! (core WebAssembly, "Binary Format"; Component Model, Binary.md).

ghost use Rattle.std.specs.Prelude.{◌≡◌, ◌++◌, IfOk, OnOk};
ghost use Rattle.generated.specs.Bytes.{list, section};
ghost use Rattle.generated.specs.Generated.{core_module, front, function_aliases, generated, imported, interface_import, interface_type, item_of};

use crate::items::list_of;
use crate::part::Part;
use crate::put::{put_section, put_sized};
use std::alloc::Global;
use virt_base::NoMemory;
use wasm_format::put_bytes;

/// The numbers of sections, of core modules and of components (core specification, section 5.5.2; Binary.md).
const CORE_FUNCTIONS: u8 = 3;

const CORE_EXPORTS: u8 = 7;

const CORE_CODE: u8 = 10;

const CORE_MODULE: u8 = 1;

const ALIASES: u8 = 6;

const TYPES: u8 = 7;

const CANONS: u8 = 8;

const IMPORTS: u8 = 10;

const EXPORTS: u8 = 11;

/// The core module's head: the type `() -> i64`, and the imports `h.n` and `h.r` of that type.
const CORE_HEAD: [u8; 30] = [
    0, 0x61, 0x73, 0x6D, 1, 0, 0, 0, 1, 5, 1, 0x60, 0, 1, 0x7E, 2, 0x0D, 2, 1, 0x68, 1, 0x6E, 0, 0,
    1, 0x68, 1, 0x72, 0, 0,
];

const PREAMBLE: [u8; 8] = [0, 0x61, 0x73, 0x6D, 0x0D, 0, 1, 0];

/// The two imported functions, lowered.
const LOWERED: [u8; 11] = [8, 9, 2, 1, 0, 0, 0, 1, 0, 1, 0];

/// The instance `h` of the lowered functions, and the core module's instance.
const CORE_INSTANCES: [u8; 20] = [
    2, 0x12, 2, 1, 2, 1, 0x6E, 0, 0, 1, 0x72, 0, 1, 0, 0, 1, 1, 0x68, 0x12, 0,
];

/// The type `func() -> u64`.
const FUNCTION_TYPE: [u8; 7] = [7, 5, 1, 0x40, 0, 0, 0x77];

/// Adds a section with an item for each function.
fn put_list(
    alloc: Global,
    out: &mut Vec<u8>,
    id: u8,
    part: Part,
    functions: u32,
) -> Result<(), NoMemory>
    ensures { OnOk result (out.new.items ≡ out.old.items ++ section id (list (item_of part) functions)) }
{
    let content = list_of(alloc, part, functions)?;
    put_section(alloc, out, id, content.as_slice())
}

#[tactic(auto, unfolding(crate::specs::Generated::core_module))]
fn core_module(alloc: Global, functions: u32) -> Result<Vec<u8>, NoMemory>
    ensures { IfOk result (λ out. out.items ≡ core_module functions) }
{
    let mut out = Vec::new(alloc);
    put_bytes(alloc, &mut out, CORE_HEAD.as_slice())?;
    put_list(alloc, &mut out, CORE_FUNCTIONS, Part::Functions, functions)?;
    put_list(alloc, &mut out, CORE_EXPORTS, Part::CoreExports, functions)?;
    put_list(alloc, &mut out, CORE_CODE, Part::Bodies, functions)?;
    Ok(out)
}

fn interface_type(alloc: Global, name: &str) -> Result<Vec<u8>, NoMemory>
    ensures { IfOk result (λ out. out.items ≡ interface_type name.now) }
{
    let mut out = Vec::new(alloc);
    put_bytes(
        alloc,
        &mut out,
        [1, 0x42, 2, 1, 0x40, 0, 0, 0x77, 4, 0].as_slice(),
    )?;
    put_sized(alloc, &mut out, name.as_bytes())?;
    put_bytes(alloc, &mut out, [1, 0].as_slice())?;
    Ok(out)
}

fn interface_import(alloc: Global, name: &str, index: u8) -> Result<Vec<u8>, NoMemory>
    ensures { IfOk result (λ out. out.items ≡ interface_import name.now index) }
{
    let mut out = Vec::new(alloc);
    put_bytes(alloc, &mut out, [1, 0].as_slice())?;
    put_sized(alloc, &mut out, name.as_bytes())?;
    put_bytes(alloc, &mut out, [5, index].as_slice())?;
    Ok(out)
}

fn function_aliases(alloc: Global) -> Result<Vec<u8>, NoMemory>
    ensures { IfOk result (λ out. out.items ≡ function_aliases) }
{
    let mut out = Vec::new(alloc);
    put_bytes(alloc, &mut out, [2, 1, 0, 0].as_slice())?;
    put_sized(alloc, &mut out, "now".as_bytes())?;
    put_bytes(alloc, &mut out, [1, 0, 1].as_slice())?;
    put_sized(alloc, &mut out, "get-random-u64".as_bytes())?;
    Ok(out)
}

/// Both imports, their functions, and these lowered.
#[tactic(auto, unfolding(crate::specs::Generated::imported))]
fn imported(alloc: Global) -> Result<Vec<u8>, NoMemory>
    ensures { IfOk result (λ out. out.items ≡ imported) }
{
    let mut out = Vec::new(alloc);
    let clock_type = interface_type(alloc, "now")?;
    put_section(alloc, &mut out, TYPES, clock_type.as_slice())?;
    let clock = interface_import(alloc, "wasi:clocks/monotonic-clock@0.2.0", 0)?;
    put_section(alloc, &mut out, IMPORTS, clock.as_slice())?;
    let random_type = interface_type(alloc, "get-random-u64")?;
    put_section(alloc, &mut out, TYPES, random_type.as_slice())?;
    let random = interface_import(alloc, "wasi:random/random@0.2.0", 1)?;
    put_section(alloc, &mut out, IMPORTS, random.as_slice())?;
    let aliases = function_aliases(alloc)?;
    put_section(alloc, &mut out, ALIASES, aliases.as_slice())?;
    put_bytes(alloc, &mut out, LOWERED.as_slice())?;
    Ok(out)
}

/// What stands before the lists of functions.
fn front(alloc: Global, functions: u32) -> Result<Vec<u8>, NoMemory>
    ensures { IfOk result (λ out. out.items ≡ front functions) }
{
    let mut out = Vec::new(alloc);
    put_bytes(alloc, &mut out, PREAMBLE.as_slice())?;
    let imported = imported(alloc)?;
    put_bytes(alloc, &mut out, imported.as_slice())?;
    let module = core_module(alloc, functions)?;
    put_section(alloc, &mut out, CORE_MODULE, module.as_slice())?;
    put_bytes(alloc, &mut out, CORE_INSTANCES.as_slice())?;
    Ok(out)
}

/// The component of that many functions: `fi` answers what `now` answers and, (i mod 3) + 1 times, what `get-random-u64` answers, all added
/// modulo 2^64.
#[tactic(auto, unfolding(crate::specs::Generated::generated))]
pub fn generated_component(alloc: Global, functions: u32) -> Result<Vec<u8>, NoMemory>
    ensures { IfOk result (λ out. out.items ≡ generated functions) }
{
    let mut out = front(alloc, functions)?;
    put_list(alloc, &mut out, ALIASES, Part::Aliases, functions)?;
    put_bytes(alloc, &mut out, FUNCTION_TYPE.as_slice())?;
    put_list(alloc, &mut out, CANONS, Part::Lifts, functions)?;
    put_list(alloc, &mut out, EXPORTS, Part::Exports, functions)?;
    Ok(out)
}
