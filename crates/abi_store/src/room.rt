//! How much memory a string, a list or a whole value asks for, and whether an answer has that much.

#![tactic(auto, using(crate::proofs::Views::views))]

ghost use Rattle.std.specs.Prelude.{◌≡◌, ◌≤◌, ◌<◌, ◌^◌, length, IfSome, IfNone, Some, None};
ghost use Rattle.core_memory.specs.Linear.{Linear};
ghost use Rattle.core_store.specs.State.{memory_at};
ghost use Rattle.wit_types.specs.Plain.{plain};
ghost use Rattle.wit_types.specs.PlainValue.{plain_values};
ghost use Rattle.abi_store.specs.Plan.{is_room as has_room};
ghost use Rattle.abi_store.specs.Rooms.{room_of, room_for_bytes, room_for_items, content_len, content_lowered, cell_place};
ghost use Rattle.abi_store.specs.Flows.{Leads, flow_lowered};

use crate::content::{Cell, Content, ListContent, RoomSize};
use crate::forms::count;
use crate::request::{Flow, Request};
use abi_layout::layout_of;
use core_store::{Store, size};
use virt_base::Text;

/// The number that is stored after the place.
pub fn len_of(content: &Content) -> u64
    ensures { result ≡ content_len content.now }
{
    match content {
        Content::Text(text) => text.bytes().len() as u64,
        Content::List(list) => count(&list.values) as u64,
        Content::Whole(_) => 0,
    }
}

fn room_for_text(text: &Text) -> Option<RoomSize>
    ensures some { IfSome result (λ r. room_for_bytes text.now ≡ Some (record { align = r.align; len = r.len })) }
    ensures none { IfNone result (room_for_bytes text.now ≡ None) }
{
    let len = text.bytes().len();
    if len <= 2147483647 {
        Some(RoomSize {
            align: 1,
            len: len as u32,
        })
    } else {
        None
    }
}

fn room_for_list(list: &ListContent) -> Option<RoomSize>
    ensures some { IfSome result (λ r. room_for_items (plain list.now.item.value) (plain_values list.now.values) ≡ Some (record { align = r.align; len = r.len })) }
    ensures none { IfNone result (room_for_items (plain list.now.item.value) (plain_values list.now.values) ≡ None) }
{
    let layout = layout_of(&list.item);
    let len = (count(&list.values) as u64).checked_mul(layout.size as u64)?;
    if len <= 4294967295 {
        Some(RoomSize {
            align: layout.align,
            len: len as u32,
        })
    } else {
        None
    }
}

fn room_for(content: &Content) -> Option<RoomSize>
    ensures some { IfSome result (λ r. room_of content.now ≡ Some (record { align = r.align; len = r.len })) }
    ensures none { IfNone result (room_of content.now ≡ None) }
{
    match content {
        Content::Text(text) => room_for_text(text),
        Content::List(list) => room_for_list(list),
        Content::Whole(whole) => {
            let layout = layout_of(&whole.ty);
            Some(RoomSize {
                align: layout.align,
                len: layout.size,
            })
        }
    }
}

/// The request for what is stored. It traps exactly where a string or a list is too long.
pub fn request_for(content: Content, cell: Cell) -> Flow
    requires low { cell_place cell ≤ 2 ^ 50 }
    ensures { (m : Linear) → Leads m (content_lowered content cell) m (flow_lowered result) }
{
    match room_for(&content) {
        None => Flow::Trapped,
        Some(room) => Flow::Asks(Request {
            align: room.align,
            len: room.len,
            content,
            cell,
        }),
    }
}

/// Whether a place is aligned, and `len` bytes from it on are within the memory.
pub fn is_room(store: &Store, memory: u32, place: u32, align: u32, len: u32) -> bool
    requires memory { memory < length store.now.memories }
    requires least { 1 ≤ align }
    ensures { result ≡ has_room (memory_at store.now memory) align len place }
{
    let end = size(store, memory) as u64 * 65536;
    place % align == 0 && place as u64 + len as u64 <= end
}
