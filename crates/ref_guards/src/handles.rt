//! The handles of a call: whether each is live and of its kind, and whether each is the host's.

#![tactic(auto, using(ref_answers::proofs::SeenLaws::seen_handle_at))]

ghost use Rattle.std.specs.Prelude.{◌≡◌};
ghost use Rattle.std.specs.List.{list_all};
ghost use Rattle.tree_table.specs.Tables.{Forest};
ghost use Rattle.reference_step.specs.Handles.{handle_at, content_of, is_of_kind, is_host};
ghost use Rattle.reference_step.specs.Atoms.{handle_in, handles};
ghost use Rattle.reference_step.specs.Rules.{are_live};
ghost use Rattle.ref_answers.specs.Seen.{content_in, live_in};
ghost use Rattle.ref_guards.specs.Noted.{shown, shown_all};

use crate::atoms::Atom;
use ref_rules::{Content, LiveHandles};

/// Whether the handle of a number is live and of a kind.
fn is_of_kind(live: &LiveHandles, kind: u32, id: u32) -> bool
    ensures { (f : Forest) → result ≡ is_of_kind kind (handle_at (live_in f live.now.handles) id) }
{
    match live.find(id) {
        Some(handle) => handle.kind == kind,
        None => false,
    }
}

fn is_live(live: &LiveHandles, atom: Atom) -> bool
    ensures { (f : Forest) → result ≡ are_live (live_in f live.now.handles) (handle_in (shown atom)) }
{
    match atom {
        Atom::Handle(kind, id) => is_of_kind(live, kind, id),
        Atom::Text(_) => true,
        Atom::Elements(_, _) => true,
    }
}

/// Whether each handle is live and of its kind. Each is found without a search.
pub fn are_live(live: &LiveHandles, noted: &[Atom]) -> bool
    ensures { (f : Forest) → result ≡ are_live (live_in f live.now.handles) (handles (shown_all noted.now)) }
{
    for atom in noted {
        if !is_live(live, *atom) {
            return false;
        }
    }
    true
}

fn is_host_content(content: Content) -> bool
    ensures { (f : Forest) → result ≡ is_host (content_in f content) }
{
    match content {
        Content::Host(_) => true,
        Content::Node(_) | Content::FileAt(_, _) | Content::Entries(_, _) => false,
        Content::EmptyIn | Content::Discard | Content::Always => false,
        Content::ScratchRoot | Content::ScratchEntries(_) => false,
        Content::ScratchFile(_, _) | Content::ScratchIn(_, _) | Content::ScratchOut(_, _) => false,
    }
}

/// Whether the handle of a number is the host's.
pub fn is_host(live: &LiveHandles, id: u32) -> bool
    ensures { (f : Forest) → result ≡ is_host (content_of (live_in f live.now.handles) id) }
{
    match live.find(id) {
        Some(handle) => is_host_content(handle.content),
        None => false,
    }
}

fn is_host_atom(live: &LiveHandles, atom: Atom) -> bool
    ensures { (f : Forest) → result ≡ list_all (λ g. is_host (content_of (live_in f live.now.handles) g.1)) (handle_in (shown atom)) }
{
    match atom {
        Atom::Handle(_, id) => is_host(live, id),
        Atom::Text(_) => true,
        Atom::Elements(_, _) => true,
    }
}

/// Whether each handle is the host's.
pub fn are_host(live: &LiveHandles, noted: &[Atom]) -> bool
    ensures { (f : Forest) → result ≡ list_all (λ g. is_host (content_of (live_in f live.now.handles) g.1)) (handles (shown_all noted.now)) }
{
    for atom in noted {
        if !is_host_atom(live, *atom) {
            return false;
        }
    }
    true
}
