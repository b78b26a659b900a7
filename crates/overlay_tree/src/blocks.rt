//! Blocks in an order: they change places, and bytes are read and replaced across them.

ghost use Rattle.std.specs.Prelude.{◌≡◌, ◌+◌, ◌*◌, ◌/◌, ◌%◌, ◌≤◌, ◌<◌, length, replicate, take, drop, slice_index_or};
ghost use Rattle.std.specs.List.{splice};
ghost use Rattle.overlay_tree.specs.Blocks.{exchanged, in_order, IsSpace};

use crate::bytes::{clear, write};
use crate::slot::BLOCK;

/// The numbers from `at` up to `mid`, and those from there up to `end`, change places.
pub fn turn(order: &mut Vec<u32>, at: usize, mid: usize, end: usize)
    requires first { at ≤ mid }
    requires second { mid ≤ end }
    requires within { end ≤ length order.old.items }
    ensures { order.new.items ≡ exchanged order.old.items at mid end }
{
    order[at..end].rotate_left(mid - at);
}

/// Where a byte stands in memory.
fn place(order: &[u32], at: usize) -> usize
    requires { at / 4096 < length order.now }
    ensures { result ≡ slice_index_or order.now (at / 4096) 0 * 4096 + at % 4096 }
{
    order[at / BLOCK] as usize * BLOCK + at % BLOCK
}

// Replaces bytes of one block.
fn write_part(order: &[u32], bytes: &mut Vec<u8>, at: usize, new: &[u8])
    requires space { IsSpace order.now bytes.old.items }
    requires place { at / 4096 < length order.now }
    requires within { at % 4096 + length new.now ≤ 4096 }
    ensures space { IsSpace order.now bytes.new.items }
    ensures bytes { in_order order.now bytes.new.items ≡ splice (in_order order.now bytes.old.items) at (at + length new.now) new.now }
{
    let from = place(order, at);
    write(bytes, from, new);
}

/// Replaces the bytes from a place on.
pub fn write_all(order: &[u32], bytes: &mut Vec<u8>, at: usize, new: &[u8])
    requires space { IsSpace order.now bytes.old.items }
    requires within { at + length new.now ≤ length order.now * 4096 }
    ensures space { IsSpace order.now bytes.new.items }
    ensures bytes { in_order order.now bytes.new.items ≡ splice (in_order order.now bytes.old.items) at (at + length new.now) new.now }
{
    let mut done = 0;
    while done < new.len() {
        let from = at + done;
        let count = (new.len() - done).min(BLOCK - from % BLOCK);
        write_part(order, bytes, from, &new[done..done + count]);
        done += count;
    }
}

// Sets bytes of one block to zero.
fn clear_part(order: &[u32], bytes: &mut Vec<u8>, at: usize, len: usize)
    requires space { IsSpace order.now bytes.old.items }
    requires place { at / 4096 < length order.now }
    requires within { at % 4096 + len ≤ 4096 }
    ensures space { IsSpace order.now bytes.new.items }
    ensures bytes { in_order order.now bytes.new.items ≡ splice (in_order order.now bytes.old.items) at (at + len) (replicate len 0) }
{
    let from = place(order, at);
    clear(bytes, from, len);
}

/// Sets that many bytes from a place on to zero.
pub fn clear_all(order: &[u32], bytes: &mut Vec<u8>, at: usize, len: usize)
    requires space { IsSpace order.now bytes.old.items }
    requires within { at + len ≤ length order.now * 4096 }
    ensures space { IsSpace order.now bytes.new.items }
    ensures bytes { in_order order.now bytes.new.items ≡ splice (in_order order.now bytes.old.items) at (at + len) (replicate len 0) }
{
    let mut done = 0;
    while done < len {
        let from = at + done;
        let count = (len - done).min(BLOCK - from % BLOCK);
        clear_part(order, bytes, from, count);
        done += count;
    }
}

// Copies bytes of one block.
#[tactic(auto, using(crate::proofs::BlockLemmas::block_there))]
fn read_part(order: &[u32], bytes: &[u8], at: usize, out: &mut [u8])
    requires space { IsSpace order.now bytes.now }
    requires place { at / 4096 < length order.now }
    requires within { at % 4096 + length out.old ≤ 4096 }
    ensures len { length out.new ≡ length out.old }
    ensures read { out.new ≡ take (length out.old) (drop at (in_order order.now bytes.now)) }
{
    let from = place(order, at);
    out.copy_from_slice(&bytes[from..from + out.len()]);
}

/// Copies as many bytes from a place on as there is room for.
pub fn read_all(order: &[u32], bytes: &[u8], at: usize, out: &mut [u8])
    requires space { IsSpace order.now bytes.now }
    requires within { at + length out.old ≤ length order.now * 4096 }
    ensures { out.new ≡ take (length out.old) (drop at (in_order order.now bytes.now)) }
{
    let mut done = 0;
    while done < out.len() {
        let from = at + done;
        let count = (out.len() - done).min(BLOCK - from % BLOCK);
        read_part(order, bytes, from, &mut out[done..done + count]);
        done += count;
    }
}
