//! The host's numbers of the handles that arguments give.

#![tactic(auto, using(ref_answers::proofs::SeenLaws::seen_handle_at))]

ghost use Rattle.std.specs.Prelude.{◌≡◌, ◌++◌, IfOk, OnOk};
ghost use Rattle.tree_table.specs.Tables.{Forest};
ghost use Rattle.reference_step.specs.Atoms.{handle_in, handles};
ghost use Rattle.reference_step.specs.Handles.{content_of};
ghost use Rattle.reference_step.specs.Steps.{host_id, host_ids};
ghost use Rattle.ref_answers.specs.Seen.{content_in, live_in};
ghost use Rattle.ref_guards.specs.Noted.{shown, shown_all};

use host_port::Host;
use ref_guards::Atom;
use ref_rules::{Content, LiveHandles};
use std::alloc::Global;
use virt_base::NoMemory;

/// The host's number of what a handle stands for; 0 of what is not the host's.
fn host_id<H: Host>(content: Content) -> u32
    ensures { (f : Forest) → result ≡ host_id H.step (content_in f content) }
{
    match content {
        Content::Host(id) => id,
        Content::Node(_) | Content::FileAt(_, _) | Content::Entries(_, _) => 0,
        Content::EmptyIn | Content::Discard | Content::Always => 0,
        Content::ScratchRoot | Content::ScratchEntries(_) => 0,
        Content::ScratchFile(_, _) | Content::ScratchIn(_, _) | Content::ScratchOut(_, _) => 0,
    }
}

/// The host's number of a live handle.
fn host_id_at<H: Host>(live: &LiveHandles, id: u32) -> u32
    ensures { (f : Forest) → result ≡ host_id H.step (content_of (live_in f live.now.handles) id) }
{
    match live.find(id) {
        Some(handle) => host_id::<H>(handle.content),
        None => 0,
    }
}

fn note_id<H: Host>(live: &LiveHandles, atom: Atom, ids: &mut Vec<u32>) -> Result<(), NoMemory>
    ensures { OnOk result ((f : Forest) → ids.new.items ≡ ids.old.items ++ host_ids H.step (live_in f live.now.handles) (handle_in (shown atom))) }
{
    match atom {
        Atom::Handle(_, id) => {
            ids.push(host_id_at::<H>(live, id))?;
            Ok(())
        }
        Atom::Text(_) => Ok(()),
        Atom::Elements(_, _) => Ok(()),
    }
}

/// The host's numbers of the handles among these, in order. Each is found without a search.
pub fn host_ids<H: Host>(
    alloc: Global,
    live: &LiveHandles,
    noted: &[Atom],
) -> Result<Vec<u32>, NoMemory>
    ensures { IfOk result (λ ids. (f : Forest) → ids.items ≡ host_ids H.step (live_in f live.now.handles) (handles (shown_all noted.now))) }
{
    let mut ids = Vec::new(alloc);
    for atom in noted {
        note_id::<H>(live, *atom, &mut ids)?;
    }
    Ok(ids)
}
