//! Entries by number, of which a new one gets the least free number. Freed numbers stand in a heap.

ghost use Rattle.std.specs.Prelude.{◌≡◌, ◌+◌, ◌-◌, ◌<◌, ◌≤◌, ◌^◌, [], Some, None, IsSome, IfSome, IfOk, length, slice_get, slice_index_or, slice_set};
ghost use Rattle.slot_tables.specs.Entries.{live_count};
ghost use Rattle.reference_step.specs.Handles.{first_free, with_entry};

use crate::content::Handle;
use std::alloc::Global;
use std::collections::BinaryHeap;
use std::marker::Model;
use virt_base::NoMemory;

/// At most `most` entries. A number that was freed is kept as its distance to that bound, so that the greatest that is kept
/// is the least free number.
#[derive(Debug, Drop)]
pub struct Numbered {
    most: u32,
    handles: Vec<Option<Handle>>,
    freed: BinaryHeap<u32>,
}

impl Model for Numbered {
    ghost use Rattle.ref_rules.specs.Numbers.{Numbers, IsKept};
    ghost use Rattle.std.specs.BinaryHeap.{heap_items, heap_capacity};
    ghost use Rattle.std.specs.Vec.{vec_capacity};

    ghost Value = { Numbers };

    ghost view = { λ n. record { most = n.most; handles = n.handles.items } };

    ghost invariant = { λ n. IsKept n.most n.handles.items (heap_items n.freed) (vec_capacity n.handles) (heap_capacity n.freed) };
}

impl Numbered {
    /// No entries. It is the only call that takes memory.
    pub fn new(alloc: Global, most: u32) -> Result<Numbered, NoMemory>
        ensures { IfOk result (λ n. n ≡ record { most = most; handles = [] }) }
    {
        let handles = Vec::with_capacity(alloc, most as usize)?;
        let freed = BinaryHeap::with_capacity(alloc, most as usize)?;
        Ok(Numbered {
            most,
            handles,
            freed,
        })
    }

    /// The least free number.
    pub fn next(&self) -> u32
        requires { live_count self.now.handles < self.now.most }
        ensures { result ≡ first_free self.now.handles }
    {
        match self.freed.peek() {
            Some(key) => self.most - *key,
            None => self.handles.len() as u32,
        }
    }

    /// Puts an entry at the least free number.
    pub fn add(&mut self, handle: Handle)
        requires { live_count self.old.handles < self.old.most }
        ensures { self.new ≡ record { most = self.old.most; handles = with_entry self.old.handles handle } }
    {
        match self.freed.pop() {
            Some(key) => {
                let number = self.most - key;
                self.handles[number as usize] = Some(handle);
            }
            None => self.handles.push_reserved(Some(handle)),
        }
    }

    /// What stands at a number.
    pub fn get(&self, number: u32) -> Option<Handle>
        ensures value { result ≡ slice_index_or self.now.handles number None }
        ensures within { IfSome result (λ _. number < self.now.most) }
    {
        let number = number as usize;
        if number < self.handles.len() {
            self.handles[number]
        } else {
            None
        }
    }

    /// Puts another entry where one stands.
    pub fn put(&mut self, number: u32, handle: Handle)
        requires { IsSome (slice_index_or self.old.handles number None) }
        ensures { self.new ≡ record { most = self.old.most; handles = slice_set self.old.handles number (Some handle) } }
    {
        self.handles[number as usize] = Some(handle);
    }

    /// Takes an entry away, whose number is free from then on.
    pub fn free(&mut self, number: u32)
        requires { IsSome (slice_index_or self.old.handles number None) }
        ensures { self.new ≡ record { most = self.old.most; handles = slice_set self.old.handles number None } }
    {
        self.handles[number as usize] = None;
        match self.freed.push(self.most - number) {
            Ok(()) => {}
            Err(_) => unreachable!(),
        }
    }
}
