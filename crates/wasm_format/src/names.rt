//! Readers of bytes and of names, which stand after their length (core WebAssembly, Binary Format, "Names").

ghost use Rattle.std.specs.Prelude.{◌≡◌};
ghost use Rattle.virt_base.specs.Place.{place};
ghost use Rattle.wasm_format.specs.Format.{Format, sized, anything, name};
ghost use Rattle.wasm_format.specs.Reads.{Reads, ReadsAs};

use crate::numbers::U32;
use crate::reader::Reader;
use crate::stop::Stop;
use std::alloc::Global;
use virt_base::{Bytes, Cursor, Text, TextFault, copy_bytes};

/// Takes a length, and that many bytes.
pub fn take_sized<'a>(alloc: Global, c: &mut Cursor<'a>) -> Result<&'a [u8], Stop>
    ensures input { c.new.bytes ≡ c.old.bytes }
    ensures value { ReadsAs (λ s. s.now) result c.new ((sized anything).read (place c.old)) }
{
    let size = U32.read(alloc, c)? as usize;
    if c.bytes.len() - c.at < size {
        return Err(Stop::Malformed);
    }
    let start = c.at;
    c.at = start + size;
    Ok(&c.bytes[start..start + size])
}

/// Takes a length, and that many bytes of text in UTF-8.
#[tactic(auto, unfolding(crate::specs::Format::name), using(crate::proofs::NameLaws::name_is, crate::proofs::NameLaws::name_not))]
pub fn take_name<'a>(alloc: Global, c: &mut Cursor<'a>) -> Result<&'a [u8], Stop>
    ensures input { c.new.bytes ≡ c.old.bytes }
    ensures value { ReadsAs (λ s. s.now) result c.new (name.read (place c.old)) }
{
    let bytes = take_sized(alloc, c)?;
    match str::from_utf8(bytes) {
        Ok(_) => Ok(bytes),
        Err(_) => Err(Stop::Malformed),
    }
}

/// Bytes after their length.
#[derive(Clone, Copy)]
pub struct ByteLists;

impl Reader for ByteLists {
    type Value = Bytes;

    ghost format = { λ _. sized anything };

    fn read(&self, alloc: Global, c: &mut Cursor<'_>) -> Result<Bytes, Stop> {
        let bytes = take_sized(alloc, c)?;
        Ok(copy_bytes(alloc, bytes)?)
    }
}

/// Text in UTF-8 after its length.
#[derive(Clone, Copy)]
pub struct Names;

impl Reader for Names {
    type Value = Text;

    ghost format = { λ _. name };

    #[tactic(auto, unfolding(crate::specs::Format::name), using(crate::proofs::NameLaws::name_is, crate::proofs::NameLaws::name_not))]
    fn read(&self, alloc: Global, c: &mut Cursor<'_>) -> Result<Text, Stop> {
        let bytes = take_sized(alloc, c)?;
        match Text::new(alloc, bytes) {
            Ok(text) => Ok(text),
            Err(TextFault::NotUtf8) => Err(Stop::Malformed),
            Err(TextFault::NoMemory) => Err(Stop::NoMemory),
        }
    }
}
