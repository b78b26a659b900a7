//! Rows: sizes, alignments and flat types, worked by hand by the rules of the Component Model's CanonicalABI.md, "Alignment",
//! "Element Size" and "Flattening".

use crate::named::read;
use crate::rows::{Asked, hold, printed};
use abi_layout::{align, flatten, is_small, layout_of, size};
use std::alloc::Global;
use std::rc::Rc;
use std::test::Fail;
use virt_base::{Items, Text};
use wasi_table::Meaning;
use wit_types::{Case, Cases, Labels, Types, WitType, copy_type};

/// The last type of a text.
fn last_type(alloc: Global, text: &'static str) -> Result<WitType, Fail> {
    let interface = read(alloc, text)?;
    match interface.types.as_slice() {
        [.., named] => match &named.meaning {
            Meaning::Value(ty) => Ok(copy_type(alloc, ty)?),
            Meaning::Kind(_) => Err(Fail::new("the last type is a resource")),
        },
        [] => Err(Fail::new("no type")),
    }
}

/// The size and the alignment, both once more as the layout has them, and the flat types where no more than 16 are due.
fn layout_in_words(alloc: Global, ty: &WitType) -> Result<String, Fail> {
    if !is_small(ty) {
        return Ok(String::from_str(alloc, "large")?);
    }
    let layout = layout_of(ty);
    let flat = flatten(ty);
    let types = flat.types.get(..flat.count as usize);
    printed(
        alloc,
        &(size(ty), align(ty), layout.size, layout.align, types),
    )
}

fn labels(alloc: Global, count: usize) -> Result<Rc<Labels>, Fail> {
    let mut all = Items::empty(alloc);
    for _ in 0..count {
        all.push(Text::from_str(alloc, "a")?)?;
    }
    Ok(Rc::new(alloc, all)?)
}

/// A byte's case, and that many without a payload after it.
fn cases(alloc: Global, count: usize) -> Result<WitType, Fail> {
    let mut items = Vec::new(alloc);
    let name = Text::from_str(alloc, "c")?;
    let ty = Some(Rc::new(alloc, WitType::U8)?);
    items.push(Case { name, ty })?;
    for _ in 0..count {
        let name = Text::from_str(alloc, "c")?;
        items.push(Case { name, ty: None })?;
    }
    Ok(WitType::Variant(Rc::new(alloc, Cases { items })?))
}

/// That many core types of one kind in a tuple.
fn words(alloc: Global, count: usize) -> Result<WitType, Fail> {
    let mut items = Vec::new(alloc);
    for _ in 0..count {
        items.push(WitType::U32)?;
    }
    Ok(WitType::Tuple(Rc::new(alloc, Types { items })?))
}

/// A type of a form with that many parts.
fn counted(alloc: Global, form: &str, count: usize) -> Result<WitType, Fail> {
    match form {
        "flags" => Ok(WitType::Flags(labels(alloc, count)?)),
        "enum" => Ok(WitType::Enum(labels(alloc, count)?)),
        "bare cases" => cases(alloc, count),
        "words" => words(alloc, count),
        "option of words" => Ok(WitType::Option(Rc::new(alloc, words(alloc, count)?)?)),
        _ => {
            let ok = Rc::new(alloc, words(alloc, count)?)?;
            let err = Rc::new(alloc, WitType::U8)?;
            Ok(WitType::Result(Some(ok), Some(err)))
        }
    }
}

/// The type of a row.
fn type_of(alloc: Global, text: &'static str) -> Result<WitType, Fail> {
    match text.rsplit_once(' ') {
        Some((form, count)) => match count.parse::<usize>() {
            Ok(count) => counted(alloc, form, count),
            Err(_) => last_type(alloc, text),
        },
        None => Err(Fail::new("no type")),
    }
}

/// After each type what is wanted. A type is the last in a text in the notation of `wasi_table`, or a form and how many parts
/// it has.
const ROWS: &str = "\
one byte;type t bool => (1, 1, 1, 1, Some([I32]))
one byte;type t s8 => (1, 1, 1, 1, Some([I32]))
one byte;type t u8 => (1, 1, 1, 1, Some([I32]))
two bytes;type t s16 => (2, 2, 2, 2, Some([I32]))
two bytes;type t u16 => (2, 2, 2, 2, Some([I32]))
four bytes;type t s32 => (4, 4, 4, 4, Some([I32]))
four bytes;type t u32 => (4, 4, 4, 4, Some([I32]))
four bytes;type t char => (4, 4, 4, 4, Some([I32]))
a handle;resource output-stream;type t own output-stream => (4, 4, 4, 4, Some([I32]))
a handle;resource output-stream;type t borrow output-stream => (4, 4, 4, 4, Some([I32]))
eight bytes;type t s64 => (8, 8, 8, 8, Some([I64]))
eight bytes;type t u64 => (8, 8, 8, 8, Some([I64]))
a place and a length;type t string => (8, 4, 8, 4, Some([I32, I32]))
a place and a length;type t list u64 => (8, 4, 8, 4, Some([I32, I32]))
padded;record t,a u8,b u32,c u16 => (12, 4, 12, 4, Some([I32, I32, I32]))
rounded;record t,a u64,b u8 => (16, 8, 16, 8, Some([I64, I32]))
bytes;type t tuple2 u8 bool => (2, 1, 2, 1, Some([I32, I32]))
nested;type inner tuple2 u8 u64;record t,a u8,b inner,c u8 => (32, 8, 32, 8, Some([I32, I32, I64, I32]))
two cases;variant t,a u8,b u64 => (16, 8, 16, 8, Some([I32, I64]))
mixed cases;variant t,a u16,b,c tuple3 u8 u8 u8 => (6, 2, 6, 2, Some([I32, I32, I32, I32]))
bare cases;variant t,a,b => (1, 1, 1, 1, Some([I32]))
an option;type t option string => (12, 4, 12, 4, Some([I32, I32, I32]))
options;type t option option u8 => (3, 1, 3, 1, Some([I32, I32, I32]))
joined;type t result u64 string => (16, 8, 16, 8, Some([I32, I64, I32]))
no payloads;type t result _ _ => (1, 1, 1, 1, Some([I32]))
one payload;type t result u16 _ => (4, 2, 4, 2, Some([I32, I32]))
flags 1 => (1, 1, 1, 1, Some([I32]))
flags 8 => (1, 1, 1, 1, Some([I32]))
flags 9 => (2, 2, 2, 2, Some([I32]))
flags 16 => (2, 2, 2, 2, Some([I32]))
flags 17 => (4, 4, 4, 4, Some([I32]))
flags 32 => (4, 4, 4, 4, Some([I32]))
enum 1 => (1, 1, 1, 1, Some([I32]))
enum 256 => (1, 1, 1, 1, Some([I32]))
enum 257 => (2, 2, 2, 2, Some([I32]))
enum 65536 => (2, 2, 2, 2, Some([I32]))
enum 65537 => (4, 4, 4, 4, Some([I32]))
bare cases 256 => (4, 2, 4, 2, Some([I32, I32]))
words 16 => (64, 4, 64, 4, Some([I32, I32, I32, I32, I32, I32, I32, I32, I32, I32, I32, I32, I32, I32, I32, I32]))
words 17 => (68, 4, 68, 4, None)
option of words 16 => (68, 4, 68, 4, None)
result of words and a byte 20 => (84, 4, 84, 4, None)
words 999999 => (3999996, 4, 3999996, 4, None)
words 1000000 => large";

pub fn laid_out(alloc: Global, text: &'static str) -> Result<String, Fail> {
    layout_in_words(alloc, &type_of(alloc, text)?)
}

#[test]
fn layouts(rt: HostRuntime) -> Result<(), Fail> {
    hold(rt.alloc(), Asked::Layout, ROWS)
}
