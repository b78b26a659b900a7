//! Blocks of memory, which change places by their numbers.

ghost use Rattle.std.specs.Prelude.{◌≡◌, ◌+◌, ◌*◌, ◌≤◌, ◌<◌, ◌^◌, ℕ, All, length, replicate, take, drop, IfOk};
ghost use Rattle.std.specs.List.{splice};
ghost use Rattle.overlay_tree.specs.Blocks.{exchanged, times};

use crate::blocks::{clear_all, read_all, turn, write_all};
use crate::bytes::zero_bytes;
use crate::slot::BLOCK;
use std::alloc::Global;
use std::marker::Model;
use virt_base::NoMemory;

/// The numbers from 0 up to `count`.
fn numbers(alloc: Global, count: u32) -> Result<Vec<u32>, NoMemory>
    ensures count { IfOk result (λ order. length order.items ≡ count) }
    ensures inside { IfOk result (λ order. All (λ k. k < count) order.items) }
    ensures once { IfOk result (λ order. (k : ℕ) → times k order.items ≤ 1) }
{
    let mut order = Vec::with_capacity(alloc, count as usize)?;
    for number in 0..count {
        order.push_reserved(number);
    }
    Ok(order)
}

fn are_bytes(bytes: &[u8])
    ensures small { All (λ b. b < 256) bytes.now }
    ensures count { length bytes.now < 2 ^ 64 }
{
    let _bytes = bytes;
}

/// Blocks of memory in an order. Where blocks change places, what they hold stays where it is in memory.
///
/// Contracts see the bytes of all blocks, one block after another.
#[derive(Debug, Drop)]
pub struct Space {
    order: Vec<u32>,
    bytes: Vec<u8>,
}

impl Model for Space {
    ghost use Rattle.std.specs.Prelude.{List, ℕ};
    ghost use Rattle.overlay_tree.specs.Blocks.{in_order, IsSpace};

    ghost Value = { List ℕ };

    ghost view = { λ s. in_order s.order.items s.bytes.items };

    ghost invariant = { λ s. IsSpace s.order.items s.bytes.items };
}

impl Space {
    /// That many blocks of zeros. This is the only call that takes memory.
    pub fn new(alloc: Global, blocks: u32) -> Result<Space, NoMemory>
        ensures { IfOk result (λ space. space ≡ replicate (blocks * 4096) 0) }
    {
        let order = numbers(alloc, blocks)?;
        let bytes = zero_bytes(alloc, blocks as usize * BLOCK)?;
        Ok(Space { order, bytes })
    }

    /// What blocks hold are bytes, as many as 64 bits can count. It does nothing when it runs.
    pub fn are_bytes(&self)
        ensures small { All (λ b. b < 256) self.now }
        ensures count { length self.now < 2 ^ 64 }
    {
        are_bytes(self.bytes.as_slice());
    }

    /// The blocks from `at` up to `mid`, and those from there up to `end`, change places.
    pub fn exchange(&mut self, at: usize, mid: usize, end: usize)
        requires first { at ≤ mid }
        requires second { mid ≤ end }
        requires within { end * 4096 ≤ length self.old }
        ensures { self.new ≡ exchanged self.old (at * 4096) (mid * 4096) (end * 4096) }
    {
        turn(&mut self.order, at, mid, end);
    }

    /// Replaces the bytes from a place on.
    pub fn write(&mut self, at: usize, new: &[u8])
        requires { at + length new.now ≤ length self.old }
        ensures { self.new ≡ splice self.old at (at + length new.now) new.now }
    {
        write_all(&self.order, &mut self.bytes, at, new);
    }

    /// Sets that many bytes from a place on to zero.
    pub fn clear(&mut self, at: usize, len: usize)
        requires { at + len ≤ length self.old }
        ensures { self.new ≡ splice self.old at (at + len) (replicate len 0) }
    {
        clear_all(&self.order, &mut self.bytes, at, len);
    }

    /// Copies as many bytes from a place on as there is room for.
    pub fn read(&self, at: usize, out: &mut [u8])
        requires { at + length out.old ≤ length self.now }
        ensures { out.new ≡ take (length out.old) (drop at self.now) }
    {
        read_all(&self.order, &self.bytes, at, out);
    }
}
