//! Rows: instances of modules as wabt's wat2wasm writes them. What is wanted is what an instance has by the core specification,
//! section 4.5.4, and whether V8 (node) makes one.

use crate::pieces::module_of;
use crate::rows::{hold, shown};
use crate::running::{embedders, instance};
use core_instance::{Extern, Externs, imports_match, spelled_modules_have_counts};
use core_store::Store;
use std::alloc::Global;
use std::test::Fail;
use virt_base::Items;

/// The instance in a new store of a module without imports.
fn made(alloc: Global, words: &str) -> Result<String, Fail> {
    let mut store = Store::new(alloc);
    shown(
        alloc,
        &instance(alloc, &mut store, words, &Items::empty(alloc))?,
    )
}

/// Each kind of item, and a start function.
const ITEMS: &str = "\
start 0108026000006000017f0303020001040401700003050401010102060b027f0041050b7e01427f0b071a060166000001740100016d0200016703000168030102663200010801000908010041010b0201000a090202000b040041070b0b0a010041feff030b026162 => \
Ok(CoreInstance { number: 0, exports: Items { items: [\
NamedExtern { name: Text { chars: \"f\" }, item: Func(0) }, NamedExtern { name: Text { chars: \"t\" }, item: Table(0) }, \
NamedExtern { name: Text { chars: \"m\" }, item: Memory(0) }, NamedExtern { name: Text { chars: \"g\" }, item: Global(0) }, \
NamedExtern { name: Text { chars: \"h\" }, item: Global(1) }, NamedExtern { name: Text { chars: \"f2\" }, item: Func(1) }] }, start: Some(0) })";

/// Active segments, which may pass the end of their table or memory.
const SEGMENTS: &str = "\
# two bytes at the last byte of a memory
start 05030100010b0a010041ffff030b026162 => Err(Trap)
# a function behind the last entry of a table
start 010401600000030201000404017000010907010041010b01000a040102000b => Err(Trap)
# no bytes at the end of a memory, and behind it
start 05030100010b080100418080040b00 => Ok(CoreInstance { number: 0, exports: Items { items: [] }, start: None })
start 05030100010b080100418180040b00 => Err(Trap)
# a table filled whole, a declared segment and a passive one
start 010401600000030201000404017000020910030041000b02000003000100010001000a040102000b => Ok(CoreInstance { number: 0, exports: Items { items: [] }, start: None })";

/// What is given to a module that takes a function from an i64 to an i32, and a table: each item by the letter of its kind and
/// its place in a store with a function of this type, one of another type, and a table.
const IMPORTS: &str = "\
f0 t0 => true
f1 t0 => false
f2 t0 => false
t0 f0 => false
f0 g0 => false
f0 => false
f0 t0 m0 => false";

fn extern_of(word: &str) -> Result<Extern, Fail> {
    match word.as_bytes() {
        [kind, digit] => {
            let at = u32::from(digit.wrapping_sub(b'0'));
            Ok(match kind {
                b'f' => Extern::Func(at),
                b't' => Extern::Table(at),
                b'm' => Extern::Memory(at),
                _ => Extern::Global(at),
            })
        }
        _ => Err(Fail::from("no item")),
    }
}

fn externs_of(alloc: Global, words: &str) -> Result<Externs, Fail> {
    let mut all = Items::empty(alloc);
    for word in words.split_whitespace() {
        all.push(extern_of(word)?)?;
    }
    Ok(all)
}

fn are_imports(alloc: Global, words: &str) -> Result<String, Fail> {
    let given = externs_of(alloc, words)?;
    let module = module_of(alloc, "linked")?;
    let store = embedders(alloc)?;
    shown(alloc, &imports_match(&store, &module, &given))
}

#[test]
fn modules_are_instantiated(rt: HostRuntime) -> Result<(), Fail> {
    spelled_modules_have_counts();
    hold(&rt, rt.alloc(), ITEMS, made)?;
    hold(&rt, rt.alloc(), SEGMENTS, made)?;
    hold(&rt, rt.alloc(), IMPORTS, are_imports)
}
