//! The segments of a new instance (WebAssembly Core 2.0, section 4.5.4): active ones are written, and then have nothing.

ghost use Rattle.std.specs.Prelude.{◌≡◌, ◌-◌, ◌<◌, length, map, drop, slice_get, IfSome};
ghost use Rattle.std.specs.List.{All, range_with_len};
ghost use Rattle.core_store.specs.State.{segment_at, elements_at};
ghost use Rattle.core_instance.specs.Constants.{refs_of};
ghost use Rattle.core_instance.specs.Instantiation.{Leaves, LeavesInMemory, bytes_of, write_element, write_segment, apply_element, apply_data, apply_elements, apply_segments};

use crate::constants::Names;
use core_store::{
    CoreSpaces, Store, StoreFault, drop_element, drop_segment, init, table_init, table_size,
};
use virt_base::Trap;
use wasm_ast::{Data, Elements};

/// Writes a segment's references to a table.
fn write_element(
    store: &mut Store,
    segment: u32,
    len: usize,
    table: Option<u32>,
    at: u32,
) -> Result<(), Trap>
    requires segment { segment < length store.old.elements }
    requires len { len ≡ length (elements_at store.old segment) }
    requires table { IfSome table (λ t. t < length store.old.tables) }
    ensures { Leaves (write_element store.old segment table at) store.new result }
{
    match table {
        None => Ok(()),
        Some(table) => {
            let size = table_size(store, table) as usize;
            if size < len {
                return Err(Trap);
            }
            table_init(store, table, at, segment, 0, len as u32)?;
            drop_element(store, segment);
            Ok(())
        }
    }
}

/// Writes a segment's bytes to a memory.
fn write_segment(
    store: &mut Store,
    segment: u32,
    len: usize,
    memory: Option<u32>,
    at: u32,
) -> Result<(), StoreFault>
    requires segment { segment < length store.old.segments }
    requires len { len ≡ length (segment_at store.old segment) }
    requires memory { IfSome memory (λ m. m < length store.old.memories) }
    ensures { LeavesInMemory (write_segment store.old segment memory at) store.new result }
{
    match memory {
        None => Ok(()),
        Some(memory) => {
            init(store, memory, u64::from(at), segment, 0, len as u64)?;
            drop_segment(store, segment);
            Ok(())
        }
    }
}

/// How many references a segment has.
fn refs_len(segment: &Elements) -> usize
    ensures { (names : _) → result ≡ length (refs_of names segment.now) }
{
    match segment {
        Elements::ActiveFuncs { funcs, .. } => funcs.len(),
        Elements::PassiveFuncs { funcs } => funcs.len(),
        Elements::ActiveFuncsAt { funcs, .. } => funcs.len(),
        Elements::DeclaredFuncs { funcs } => funcs.len(),
        Elements::ActiveExprs { exprs, .. } => exprs.len(),
        Elements::PassiveExprs { exprs, .. } => exprs.len(),
        Elements::ActiveExprsAt { exprs, .. } => exprs.len(),
        Elements::DeclaredExprs { exprs, .. } => exprs.len(),
    }
}

fn place(places: &[u32], index: u32) -> Option<u32>
    ensures { result ≡ slice_get places.now index }
{
    places.get(index as usize).copied()
}

/// What becomes of an element segment.
fn apply_element(
    store: &mut Store,
    places: &CoreSpaces,
    names: &Names,
    at: u32,
    segment: &Elements,
) -> Result<(), Trap>
    requires there { at < length store.old.elements }
    requires held { elements_at store.old at ≡ refs_of names.now segment.now }
    requires tables { All (λ t. t < length store.old.tables) places.now.tables }
    ensures { Leaves (apply_element places.now names.now store.old at segment.now) store.new result }
{
    let len = refs_len(segment);
    match segment {
        Elements::ActiveFuncs { offset, .. } | Elements::ActiveExprs { offset, .. } => {
            let table = place(places.tables.as_slice(), 0);
            write_element(store, at, len, table, names.offset(offset))
        }
        Elements::ActiveFuncsAt { table, offset, .. }
        | Elements::ActiveExprsAt { table, offset, .. } => {
            let table = place(places.tables.as_slice(), *table);
            write_element(store, at, len, table, names.offset(offset))
        }
        Elements::PassiveFuncs { .. } | Elements::PassiveExprs { .. } => Ok(()),
        Elements::DeclaredFuncs { .. } | Elements::DeclaredExprs { .. } => {
            drop_element(store, at);
            Ok(())
        }
    }
}

/// The bytes of a data segment.
pub fn bytes_of(segment: &Data) -> &[u8]
    ensures { result.now ≡ bytes_of segment.now }
{
    match segment {
        Data::Active { bytes, .. } => bytes.as_slice(),
        Data::Passive { bytes } => bytes.as_slice(),
        Data::ActiveAt { bytes, .. } => bytes.as_slice(),
    }
}

/// What becomes of a data segment.
fn apply_data(
    store: &mut Store,
    places: &CoreSpaces,
    names: &Names,
    at: u32,
    segment: &Data,
) -> Result<(), StoreFault>
    requires there { at < length store.old.segments }
    requires held { segment_at store.old at ≡ bytes_of segment.now }
    requires memories { All (λ t. t < length store.old.memories) places.now.memories }
    ensures { LeavesInMemory (apply_data places.now names.now store.old at segment.now) store.new result }
{
    let len = bytes_of(segment).len();
    match segment {
        Data::Active { offset, .. } => {
            let memory = place(places.memories.as_slice(), 0);
            write_segment(store, at, len, memory, names.offset(offset))
        }
        Data::ActiveAt { memory, offset, .. } => {
            let memory = place(places.memories.as_slice(), *memory);
            write_segment(store, at, len, memory, names.offset(offset))
        }
        Data::Passive { .. } => Ok(()),
    }
}

/// What becomes of the element segments, which are the last in the store.
pub fn apply_elements(
    store: &mut Store,
    places: &CoreSpaces,
    names: &Names,
    segments: &[Elements],
) -> Result<(), Trap>
    requires held { drop (length store.old.elements - length segments.now) store.old.elements ≡ map (refs_of names.now) segments.now }
    requires places { places.now.elements ≡ range_with_len (length store.old.elements - length segments.now) (length segments.now) }
    requires tables { All (λ t. t < length store.old.tables) places.now.tables }
    ensures { Leaves (apply_elements places.now names.now store.old (length store.old.elements - length segments.now) segments.now) store.new result }
{
    for (index, segment) in segments.iter().enumerate() {
        let at = places.elements.as_slice()[index];
        apply_element(store, places, names, at, segment)?;
    }
    Ok(())
}

/// What becomes of the data segments, which are the last in the store.
pub fn apply_segments(
    store: &mut Store,
    places: &CoreSpaces,
    names: &Names,
    segments: &[Data],
) -> Result<(), StoreFault>
    requires held { drop (length store.old.segments - length segments.now) store.old.segments ≡ map bytes_of segments.now }
    requires places { places.now.segments ≡ range_with_len (length store.old.segments - length segments.now) (length segments.now) }
    requires memories { All (λ t. t < length store.old.memories) places.now.memories }
    ensures { LeavesInMemory (apply_segments places.now names.now store.old (length store.old.segments - length segments.now) segments.now) store.new result }
{
    for (index, segment) in segments.iter().enumerate() {
        let at = places.segments.as_slice()[index];
        apply_data(store, places, names, at, segment)?;
    }
    Ok(())
}
