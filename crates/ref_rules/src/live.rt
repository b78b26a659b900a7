//! The live handles of the reference host: by number, by kind, and by the scratch files that they hold open.

ghost use Rattle.std.specs.Prelude.{◌≡◌, ◌+◌, ◌<◌, ◌^◌, [], Some, None, IsSome, IfOk, true, length, slice_index_or, slice_set, option_map};
ghost use Rattle.reference_step.specs.Handles.{first_free, with_entry};
ghost use Rattle.ref_rules.specs.Lives.{LiveTable, count_of_kind, is_open, is_inside, standing_for};

use crate::content::{Content, Handle};
use crate::held::{note_closed, note_opened, zeros};
use crate::kinds::{KINDS, free_number, free_places, put_number};
use crate::numbered::Numbered;
use slot_tables::Slots;
use std::alloc::Global;
use std::marker::Model;
use virt_base::NoMemory;

/// The live handles, at most `slots` of each kind.
///
/// Contracts see them, each at the place of its number.
#[derive(Debug, Drop)]
pub struct LiveHandles {
    slots: u32,
    numbers: Numbered,
    // the place of each number among those of its kind
    reps: Vec<u32>,
    // the number at each place of each kind
    kinds: Vec<Slots<u32>>,
    // how many live handles hold each scratch file open
    held: Vec<u32>,
}

impl Model for LiveHandles {
    ghost use Rattle.std.specs.Prelude.{length};
    ghost use Rattle.ref_rules.specs.Lives.{LiveTable, IsLive};

    ghost Value = { LiveTable };

    ghost view = { λ l. record { slots = l.slots; files = length l.held.items; handles = l.numbers.handles } };

    ghost invariant = { λ l. IsLive l.slots l.numbers l.kinds.items l.reps.items l.held.items };
}

impl LiveHandles {
    /// No handle is live. It is the only call that takes memory.
    pub fn new(alloc: Global, slots: u32, files: u32) -> Result<LiveHandles, NoMemory>
        requires { slots < 2 ^ 16 }
        ensures { IfOk result (λ live. live ≡ record { slots = slots; files = files; handles = [] }) }
    {
        let numbers = Numbered::new(alloc, KINDS * slots)?;
        let reps = zeros(alloc, (KINDS * slots) as usize)?;
        let kinds = free_places(alloc, slots)?;
        let held = zeros(alloc, files as usize)?;
        Ok(LiveHandles {
            slots,
            numbers,
            reps,
            kinds,
            held,
        })
    }

    /// The live handle of a number; none exactly where it is not live.
    pub fn find(&self, id: u32) -> Option<Handle>
        ensures value { result ≡ slice_index_or self.now.handles id None }
    {
        self.numbers.get(id)
    }

    /// How many more handles of a kind may be live.
    pub fn room(&self, kind: u32) -> u32
        requires { kind < 14 }
        ensures { result + count_of_kind kind self.now.handles ≡ self.now.slots }
    {
        self.kinds[kind as usize].room()
    }

    /// Whether a live handle holds a scratch file open.
    pub fn is_open(&self, file: u32) -> bool
        requires { file < self.now.files }
        ensures { result ≡ is_open self.now.handles file }
    {
        self.held[file as usize] > 0
    }

    /// One more handle is live. It gets the least number that is not.
    pub fn add(&mut self, kind: u32, content: Content) -> u32
        requires kind { kind < 14 }
        requires room { count_of_kind kind self.old.handles < self.old.slots }
        requires inside { is_inside self.old.files content ≡ true }
        ensures number { result ≡ first_free self.old.handles }
        ensures added { self.new ≡ record self.old { handles = with_entry self.old.handles (record { kind = kind; content = content }) } }
    {
        let id = self.numbers.next();
        let rep = put_number(&mut self.kinds, kind, id);
        self.reps[id as usize] = rep;
        note_opened(&mut self.held, content);
        self.numbers.add(Handle { kind, content });
        id
    }

    /// A live handle stands for something else.
    pub fn replace(&mut self, id: u32, content: Content)
        requires live { IsSome (slice_index_or self.old.handles id None) }
        requires inside { is_inside self.old.files content ≡ true }
        ensures { self.new ≡ record self.old { handles = slice_set self.old.handles id (option_map (standing_for content) (slice_index_or self.old.handles id None)) } }
    {
        match self.numbers.get(id) {
            Some(Handle { kind, content: old }) => {
                note_closed(&mut self.held, old);
                note_opened(&mut self.held, content);
                self.numbers.put(id, Handle { kind, content });
            }
            None => unreachable!(),
        }
    }

    /// A handle is live no more.
    pub fn remove(&mut self, id: u32)
        requires { IsSome (slice_index_or self.old.handles id None) }
        ensures { self.new ≡ record self.old { handles = slice_set self.old.handles id None } }
    {
        match self.numbers.get(id) {
            Some(Handle { kind, content }) => {
                free_number(&mut self.kinds, kind, self.reps[id as usize]);
                note_closed(&mut self.held, content);
                self.numbers.free(id);
            }
            None => unreachable!(),
        }
    }
}
