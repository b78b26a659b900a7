//! Sections of a core module are written in their order, and empty ones are left out (core WebAssembly, Binary Format, "Modules").

ghost use Rattle.std.specs.Prelude.{◌≡◌, ◌++◌, OnOk};
ghost use Rattle.wasm_format.specs.Format.{Format};
ghost use Rattle.core_write.specs.Written.{list_section, ListFits, number_section, NumberFits, front_bytes, back_bytes, ModuleFits};

use crate::items::{
    BodyWriter, DataWriter, ElementsWriter, ExportWriter, GlobalWriter, ImportWriter,
};
use crate::lists::Leans;
use crate::types::{CoreFuncWriter, LimitsWriter, TableTypeWriter};
use std::alloc::Global;
use virt_base::NoMemory;
use wasm_ast::{Lean, Module};
use wasm_format::{Sized, U32, Writer, put_byte};

/// Adds a section that holds a list, unless it is empty.
fn put_list<W: Writer + Drop>(
    alloc: Global,
    out: &mut Vec<u8>,
    id: u8,
    writer: W,
    items: &Lean<W::Value>,
) -> Result<(), NoMemory>
    requires { ListFits (W.format writer) items.now }
    ensures { OnOk result (out.new.items ≡ out.old.items ++ list_section id (W.format writer) items.now) }
{
    if items.is_empty() {
        return Ok(());
    }
    put_byte(alloc, out, id)?;
    Sized(Leans(writer)).write(alloc, out, items)
}

/// Adds a section that holds a number, if it is there.
fn put_number(alloc: Global, out: &mut Vec<u8>, id: u8, number: Option<u32>) -> Result<(), NoMemory>
    requires { NumberFits number }
    ensures { OnOk result (out.new.items ≡ out.old.items ++ number_section id number) }
{
    match number {
        None => Ok(()),
        Some(number) => {
            put_byte(alloc, out, id)?;
            Sized(U32).write(alloc, out, &number)
        }
    }
}

/// Adds the sections up to the globals.
pub fn put_front(alloc: Global, out: &mut Vec<u8>, module: &Module) -> Result<(), NoMemory>
    requires { ModuleFits «module».now }
    ensures { OnOk result (out.new.items ≡ out.old.items ++ front_bytes «module».now) }
{
    put_list(alloc, out, 1, CoreFuncWriter, &module.types)?;
    put_list(alloc, out, 2, ImportWriter, &module.imports)?;
    put_list(alloc, out, 3, U32, &module.functions)?;
    put_list(alloc, out, 4, TableTypeWriter, &module.tables)?;
    put_list(alloc, out, 5, LimitsWriter, &module.memories)?;
    put_list(alloc, out, 6, GlobalWriter, &module.globals)
}

/// Adds the sections from the exports on. The data count stands before the code.
pub fn put_back(alloc: Global, out: &mut Vec<u8>, module: &Module) -> Result<(), NoMemory>
    requires { ModuleFits «module».now }
    ensures { OnOk result (out.new.items ≡ out.old.items ++ back_bytes «module».now) }
{
    put_list(alloc, out, 7, ExportWriter, &module.exports)?;
    put_number(alloc, out, 8, module.start)?;
    put_list(alloc, out, 9, ElementsWriter, &module.elements)?;
    put_number(alloc, out, 12, module.data_count)?;
    put_list(alloc, out, 10, Sized(BodyWriter), &module.code)?;
    put_list(alloc, out, 11, DataWriter, &module.segments)
}
