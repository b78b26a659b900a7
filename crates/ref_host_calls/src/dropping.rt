//! A handle is dropped: it is live no more, and where it stands for one of the host, the host drops its own.

ghost use Rattle.std.specs.Prelude.{◌≡◌, ◌<◌, IsSome, IfSome, IfNone, OnOk, slice_index_or, None, false};
ghost use Rattle.tree_table.specs.Tables.{Forest};
ghost use Rattle.reference_step.specs.State.{Reference};
ghost use Rattle.reference_step.specs.Steps.{dropped, drops, lost};
ghost use Rattle.reference_step.specs.Handles.{handle_at, is_host};
ghost use Rattle.ref_answers.specs.Seen.{content_in, live_in};
ghost use Rattle.ref_guards.specs.Contents.{KeepsContents, Nothing};
ghost use Rattle.ref_host_calls.specs.Losses.{IsLoss, listed_at};

use host_port::{Host, Resource};
use ref_answers::ListedTable;
use ref_rules::{Content, LiveHandles};
use std::alloc::Global;
use virt_base::NoMemory;

/// The host's number, where a handle stands for one of the host.
fn host_id(content: Content) -> Option<u32>
    ensures some { IfSome result (λ id. content ≡ Content.Host id) }
    ensures none { IfNone result ((f : Forest) → is_host (content_in f content) ≡ false) }
{
    match content {
        Content::Host(id) => Some(id),
        Content::Node(_) | Content::FileAt(_, _) | Content::Entries(_, _) => None,
        Content::EmptyIn | Content::Discard | Content::Always => None,
        Content::ScratchRoot | Content::ScratchEntries(_) => None,
        Content::ScratchFile(_, _) | Content::ScratchIn(_, _) | Content::ScratchOut(_, _) => None,
    }
}

/// A live handle of a kind is live no more, and the host drops its own.
fn lose<H: Host>(
    alloc: Global,
    listed: &ListedTable,
    live: &mut LiveHandles,
    inner: &mut H,
    id: u32,
    kind: u32,
    content: Content,
) -> Result<(), NoMemory>
    requires live { IsSome (slice_index_or live.old.handles id None) }
    requires kind { kind < 14 }
    ensures loss { OnOk result ((f : Forest) (r : Reference H.State) → IsLoss (lost H.step (listed_at r f listed.now live.old (H.kept inner.old).state) id kind (content_in f content)) (listed_at r f listed.now live.new (H.kept inner.new).state) (H.kept inner.old).seen (H.kept inner.new).seen) }
    ensures keeps { OnOk result (KeepsContents Nothing live.old live.new) }
    ensures limits { OnOk result ((live.new.slots ≡ live.old.slots) × (live.new.files ≡ live.old.files)) }
{
    live.remove(id);
    match host_id(content) {
        Some(theirs) => {
            let resource = listed.resource(alloc, kind)?;
            inner.drop_handle(alloc, &resource, theirs)
        }
        None => Ok(()),
    }
}

/// The handle of a number is dropped as one of a kind.
fn drop_of_kind<H: Host>(
    alloc: Global,
    listed: &ListedTable,
    live: &mut LiveHandles,
    inner: &mut H,
    id: u32,
    kind: u32,
) -> Result<(), NoMemory>
    requires kind { kind < 14 }
    ensures loss { OnOk result ((f : Forest) (r : Reference H.State) → IsLoss (dropped H.step (listed_at r f listed.now live.old (H.kept inner.old).state) id kind (handle_at (live_in f live.old.handles) id)) (listed_at r f listed.now live.new (H.kept inner.new).state) (H.kept inner.old).seen (H.kept inner.new).seen) }
    ensures keeps { OnOk result (KeepsContents Nothing live.old live.new) }
    ensures limits { OnOk result ((live.new.slots ≡ live.old.slots) × (live.new.files ≡ live.old.files)) }
{
    match live.find(id) {
        None => Ok(()),
        Some(handle) => {
            if handle.kind == kind {
                lose(alloc, listed, live, inner, id, kind, handle.content)
            } else {
                Ok(())
            }
        }
    }
}

/// Drops a handle: of the host that is asked its own, where the handle is live, of the resource's kind, and stands for one.
pub fn drop_live<H: Host>(
    alloc: Global,
    listed: &ListedTable,
    live: &mut LiveHandles,
    inner: &mut H,
    resource: &Resource,
    id: u32,
) -> Result<(), NoMemory>
    ensures loss { OnOk result ((f : Forest) (r : Reference H.State) → IsLoss (drops H.step (listed_at r f listed.now live.old (H.kept inner.old).state) resource.now id) (listed_at r f listed.now live.new (H.kept inner.new).state) (H.kept inner.old).seen (H.kept inner.new).seen) }
    ensures keeps { OnOk result (KeepsContents Nothing live.old live.new) }
    ensures limits { OnOk result ((live.new.slots ≡ live.old.slots) × (live.new.files ≡ live.old.files)) }
{
    match listed.kind(resource) {
        None => Ok(()),
        Some(kind) => drop_of_kind(alloc, listed, live, inner, id, kind),
    }
}
