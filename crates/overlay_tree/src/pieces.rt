//! The bytes of files, whose blocks stand one after another: what each change of a file does to slots and blocks. The quota is tested
//! first, by `has_room`.

ghost use Rattle.std.specs.Prelude.{◌≡◌, ◌+◌, ◌*◌, ◌≤◌, ◌<◌, ◌^◌, ◌++◌, ◌-◌, min, List, ℕ, None, IsSome, length, drop, take, replicate, slice_set, slice_index_or};
ghost use Rattle.std.specs.List.{splice};
ghost use Rattle.tree_table.specs.Scratches.{blocks_of, content_at, has_room, created, find_file, read_at, removed, renamed, resized, with_content, without_other};
ghost use Rattle.overlay_tree.specs.Pieces.{blocks_in, entry_blocks, len_of, map_of, with_len};

use crate::slot::{BLOCK, Slot, blocks_of};
use crate::slots::{blocks_in, place_named};
use crate::space::Space;

/// The first block of a number's file.
#[tactic(auto, using(crate::proofs::PieceLemmas::blocks_take, crate::proofs::PieceLemmas::blocks_before))]
fn first_block(slots: &[Slot], number: usize) -> usize
    requires number { number < length slots.now }
    requires few { blocks_in slots.now < 2 ^ 48 }
    ensures value { result ≡ blocks_in (take number slots.now) }
    ensures ends { result + entry_blocks (slice_index_or slots.now number None) ≤ blocks_in slots.now }
{
    blocks_in(&slots[..number])
}

/// Where the bytes of a number's file begin.
fn start_of(slots: &[Slot], number: usize) -> usize
    requires number { number < length slots.now }
    requires few { blocks_in slots.now < 2 ^ 48 }
    ensures value { result ≡ blocks_in (take number slots.now) * 4096 }
    ensures ends { result + entry_blocks (slice_index_or slots.now number None) * 4096 ≤ blocks_in slots.now * 4096 }
{
    first_block(slots, number) * BLOCK
}

#[tactic(auto, using(crate::proofs::PieceLemmas::blocks_one, crate::proofs::ResizeLemmas::room_left))]
/// Whether the other files' blocks and those of `len` bytes are within `blocks` blocks.
pub fn has_room(slots: &[Slot], blocks: u32, number: usize, len: u64) -> bool
    requires number { number < length slots.now }
    requires within { blocks_in slots.now ≤ blocks }
    ensures { (bytes : List ℕ) → blocks_in slots.now * 4096 ≤ length bytes → result ≡ has_room (map_of blocks slots.now bytes) number len }
{
    let others = blocks_in(slots) - slots[number].blocks();
    let left = (blocks as usize - others) * BLOCK;
    len <= left as u64
}

/// A file takes `wanted` blocks from its first one on, in place of those that it held: the other files' blocks after it, up to those that
/// no file has, come to stand after the new ones.
fn move_rest(space: &mut Space, first: usize, used: usize, held: usize, wanted: usize)
    requires held { first + held ≤ used }
    requires within { used * 4096 ≤ length space.old }
    requires fits { used * 4096 + wanted * 4096 ≤ length space.old + held * 4096 }
    requires few { length space.old < 2 ^ 48 }
    ensures long { length space.new ≡ length space.old }
    ensures front { take ((first + min held wanted) * 4096) space.new ≡ take ((first + min held wanted) * 4096) space.old }
    ensures rest { take ((used - (first + held)) * 4096) (drop ((first + wanted) * 4096) space.new) ≡ take ((used - (first + held)) * 4096) (drop ((first + held) * 4096) space.old) }
{
    if held < wanted {
        space.exchange(first + held, used, used + (wanted - held));
    } else {
        space.exchange(first + wanted, first + held, used);
    }
}

/// Cuts a file, or grows it by zeros.
pub fn resize_file(slots: &mut Vec<Slot>, space: &mut Space, number: usize, len: usize)
    requires number { number < length slots.old.items }
    requires live { IsSome (slice_index_or slots.old.items number None) }
    requires short { len < 2 ^ 48 }
    requires within { blocks_in slots.old.items * 4096 ≤ length space.old }
    requires fits { blocks_in slots.old.items * 4096 + blocks_of len * 4096 ≤ length space.old + entry_blocks (slice_index_or slots.old.items number None) * 4096 }
    requires few { length space.old < 2 ^ 48 }
    ensures slots { slots.new.items ≡ slice_set slots.old.items number (with_len len (slice_index_or slots.old.items number None)) }
    ensures space { length space.new ≡ length space.old }
    ensures files { (b : ℕ) → map_of b slots.new.items space.new ≡ with_content (map_of b slots.old.items space.old) number (resized (content_at (map_of b slots.old.items space.old) number) len) }
{
    let old = slots[number].len();
    let first = first_block(slots, number);
    let used = blocks_in(slots);
    move_rest(space, first, used, blocks_of(old), blocks_of(len));
    space.clear(first * BLOCK + old, len.saturating_sub(old));
    slots[number].resize(len);
}

/// Takes a file away.
pub fn remove_file(slots: &mut Vec<Slot>, space: &mut Space, number: usize)
    requires number { number < length slots.old.items }
    requires live { IsSome (slice_index_or slots.old.items number None) }
    requires within { blocks_in slots.old.items * 4096 ≤ length space.old }
    requires few { length space.old < 2 ^ 48 }
    ensures slots { slots.new.items ≡ slice_set slots.old.items number None }
    ensures space { length space.new ≡ length space.old }
    ensures files { (b : ℕ) → map_of b slots.new.items space.new ≡ removed (map_of b slots.old.items space.old) number }
{
    resize_file(slots, space, number, 0);
    slots[number].clear();
}

/// Takes away the file of a name, unless it is that of this number.
fn free_name(slots: &mut Vec<Slot>, space: &mut Space, number: usize, name: &[u8])
    requires within { blocks_in slots.old.items * 4096 ≤ length space.old }
    requires few { length space.old < 2 ^ 48 }
    ensures kept { blocks_in slots.new.items ≤ blocks_in slots.old.items }
    ensures count { length slots.new.items ≡ length slots.old.items }
    ensures own { slice_index_or slots.new.items number None ≡ slice_index_or slots.old.items number None }
    ensures space { length space.new ≡ length space.old }
    ensures files { (b : ℕ) → map_of b slots.new.items space.new ≡ without_other (map_of b slots.old.items space.old) number (find_file (map_of b slots.old.items space.old) name.now) }
{
    if let Some(other) = place_named(slots, name) {
        if other != number {
            remove_file(slots, space, other);
        }
    }
}

/// Gives a file a name. Another file that has it is taken away.
pub fn rename_file(slots: &mut Vec<Slot>, space: &mut Space, number: usize, name: &[u8])
    requires number { number < length slots.old.items }
    requires live { IsSome (slice_index_or slots.old.items number None) }
    requires within { blocks_in slots.old.items * 4096 ≤ length space.old }
    requires few { length space.old < 2 ^ 48 }
    requires short { length name.now ≤ 255 }
    ensures kept { blocks_in slots.new.items ≤ blocks_in slots.old.items }
    ensures count { length slots.new.items ≡ length slots.old.items }
    ensures space { length space.new ≡ length space.old }
    ensures files { (b : ℕ) → map_of b slots.new.items space.new ≡ renamed (map_of b slots.old.items space.old) number name.now }
{
    free_name(slots, space, number, name);
    let len = slots[number].len();
    slots[number].put(name, len);
}

/// Makes a file without bytes at a free number.
pub fn create_file(slots: &mut Vec<Slot>, number: usize, name: &[u8])
    requires number { number < length slots.old.items }
    requires free { slice_index_or slots.old.items number None ≡ None }
    requires short { length name.now ≤ 255 }
    ensures kept { blocks_in slots.new.items ≡ blocks_in slots.old.items }
    ensures count { length slots.new.items ≡ length slots.old.items }
    ensures files { (b : ℕ) (bytes : List ℕ) → map_of b slots.new.items bytes ≡ created (map_of b slots.old.items bytes) number name.now }
{
    slots[number].put(name, 0);
}

/// Replaces bytes of a file that is long enough.
pub fn replace_bytes(slots: &[Slot], space: &mut Space, number: usize, at: usize, new: &[u8])
    requires number { number < length slots.now }
    requires live { IsSome (slice_index_or slots.now number None) }
    requires within { blocks_in slots.now * 4096 ≤ length space.old }
    requires few { length space.old < 2 ^ 48 }
    requires long { at + length new.now ≤ len_of (slice_index_or slots.now number None) }
    ensures space { length space.new ≡ length space.old }
    ensures files { (b : ℕ) → map_of b slots.now space.new ≡ with_content (map_of b slots.now space.old) number (splice (content_at (map_of b slots.now space.old) number) at (at + length new.now) new.now) }
{
    let start = start_of(slots, number);
    space.write(start + at, new);
}

/// Sets that many bytes of a file that is long enough to zero.
pub fn clear_bytes(slots: &[Slot], space: &mut Space, number: usize, at: usize, len: usize)
    requires number { number < length slots.now }
    requires live { IsSome (slice_index_or slots.now number None) }
    requires within { blocks_in slots.now * 4096 ≤ length space.old }
    requires few { length space.old < 2 ^ 48 }
    requires long { at + len ≤ len_of (slice_index_or slots.now number None) }
    ensures space { length space.new ≡ length space.old }
    ensures files { (b : ℕ) → map_of b slots.now space.new ≡ with_content (map_of b slots.now space.old) number (splice (content_at (map_of b slots.now space.old) number) at (at + len) (replicate len 0)) }
{
    let start = start_of(slots, number);
    space.clear(start + at, len);
}

/// Copies the bytes of a file from a place on to the front of `out`, as many as there are and fit, and says how many.
pub fn read_file(slots: &[Slot], space: &Space, number: usize, at: u64, out: &mut [u8]) -> usize
    requires number { number < length slots.now }
    requires within { blocks_in slots.now * 4096 ≤ length space.now }
    requires few { length space.now < 2 ^ 48 }
    ensures count { (b : ℕ) → result ≡ length (read_at (content_at (map_of b slots.now space.now) number) at (length out.old)) }
    ensures read { (b : ℕ) → out.new ≡ read_at (content_at (map_of b slots.now space.now) number) at (length out.old) ++ drop result out.old }
{
    let len = slots[number].len();
    let from = at.min(len as u64) as usize;
    let count = (len - from).min(out.len());
    let start = start_of(slots, number) + from;
    space.read(start, &mut out[..count]);
    count
}
