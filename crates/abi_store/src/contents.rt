//! What memory was asked for is stored at the answer: a string, the items of a list, or a whole value.

#![tactic(auto, using(crate::proofs::Views::views))]

ghost use Rattle.std.specs.Prelude.{◌≡◌, ◌<◌, ◌≤◌, ◌*◌, ◌^◌, Some, true, false, length, IfOk, IfSome, IfNone};
ghost use Rattle.core_memory.specs.Number.{IsWidth};
ghost use Rattle.wit_types.specs.Plain.{plain};
ghost use Rattle.wit_types.specs.PlainValue.{plain_values};
ghost use Rattle.wit_types.specs.Layout.{size};
ghost use Rattle.wit_types.specs.Limits.{parts};
ghost use Rattle.abi_layout.specs.Numbers.{is_number};
ghost use Rattle.abi_layout.specs.Storing.{Target, count_values};
ghost use Rattle.abi_store.specs.Rooms.{Room, room_of, content_steps, items_from};
ghost use Rattle.abi_store.specs.Flows.{stored};
ghost use Rattle.abi_store.specs.Works.{Took, begun_lowered};

use crate::beginning::{begun_by, put_bytes};
use crate::content::Content;
use crate::forms::backwards;
use crate::number::run_of;
use crate::work::{Begun, ListWork, ValueWork, Work};
use abi_layout::{flags_width, layout_of};
use core_store::Store;
use std::alloc::Global;
use std::rc::Rc;
use virt_base::NoMemory;
use wit_types::{Values, WitType};

/// The bytes of a number, if each value of the type is one.
fn run_width(ty: &WitType) -> Option<u8>
    ensures number { IfSome result (λ _. is_number (plain ty.now) ≡ true) }
    ensures width { IfSome result (λ w. w ≡ size (plain ty.now)) }
    ensures none { IfNone result (is_number (plain ty.now) ≡ false) }
{
    match ty {
        WitType::Bool | WitType::S8 | WitType::U8 => Some(1),
        WitType::S16 | WitType::U16 => Some(2),
        WitType::S32 | WitType::U32 | WitType::Char => Some(4),
        WitType::Own(_) | WitType::Borrow(_) => Some(4),
        WitType::S64 | WitType::U64 => Some(8),
        WitType::Flags(labels) => Some(flags_width(labels.len())),
        WitType::Str | WitType::List(_) | WitType::Record(_) | WitType::Tuple(_) => None,
        WitType::Variant(_) | WitType::Enum(_) | WitType::Option(_) | WitType::Result(_, _) => None,
    }
}

/// The items of a list from a place on: numbers are written as one run, others are in progress.
fn begin_items(
    alloc: Global,
    store: &mut Store,
    memory: u32,
    item: Rc<WitType>,
    values: Values,
    place: u32,
) -> Result<Begun, NoMemory>
    requires memory { memory < length store.old.memories }
    requires small { parts (plain item.value) ≤ 1000000 }
    requires few { count_values (plain_values values) * size (plain item.value) < 2 ^ 32 }
    ensures { IfOk result (λ b. Took store.old store.new memory (stored (items_from (plain item.value) (plain_values values) Target place)) (begun_lowered b)) }
{
    match run_width(&item) {
        Some(width) => {
            let run = run_of(alloc, values, width)?;
            let written = put_bytes(store, memory, place as u64, run.as_slice())?;
            Ok(begun_by(written))
        }
        None => {
            let width = layout_of(&item).size;
            let left = backwards(alloc, values)?;
            Ok(Begun::Opened(Work::List(ListWork {
                item,
                width,
                left,
                at: place as u64,
            })))
        }
    }
}

/// Stores content at a place, or begins to.
pub fn begin_content(
    alloc: Global,
    store: &mut Store,
    memory: u32,
    content: Content,
    place: u32,
) -> Result<Begun, NoMemory>
    requires memory { memory < length store.old.memories }
    requires room { (r : Room) × (room_of content ≡ Some r) }
    ensures { IfOk result (λ b. Took store.old store.new memory (stored (content_steps content Target place)) (begun_lowered b)) }
{
    match content {
        Content::Text(text) => {
            let written = put_bytes(store, memory, place as u64, text.bytes())?;
            Ok(begun_by(written))
        }
        Content::List(list) => begin_items(alloc, store, memory, list.item, list.values, place),
        Content::Whole(whole) => Ok(Begun::Opened(Work::Value(ValueWork {
            ty: whole.ty,
            value: whole.value,
            at: place as u64,
        }))),
    }
}
