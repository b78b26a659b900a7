//! wasi:filesystem/preopens, `get-directories`, where the host is asked and where it is not.

ghost use Rattle.std.specs.Prelude.{◌≡◌, ◌++◌, [], length, List, IfOk, OnOk};
ghost use Rattle.tree_table.specs.Tables.{Forest, Holds};
ghost use Rattle.tree_table.specs.Trees.{AreTrees};
ghost use Rattle.host_port.specs.Calls.{PlainObservation, plain_answer, plain_option};
ghost use Rattle.reference_step.specs.State.{Reference};
ghost use Rattle.reference_step.specs.Steps.{asks, folders_gave, own_offers};
ghost use Rattle.reference_step.specs.Steps as reference;
ghost use Rattle.ref_host_calls.specs.Requests.{IsNoted, listed_of, call_of};
ghost use Rattle.ref_host_calls.specs.Reactions.{HostIsTyped, IsReaction};
ghost use Rattle.ref_guards.specs.Contents.{KeepsContents};
ghost use Rattle.ref_host_calls.specs.Offers.{HoldsOfFolders, folders_at};

use crate::offering::{given_count, offer_all};
use crate::offers::Folders;
use crate::own::note_own;
use crate::theirs::note_theirs;
use crate::{Request, ask, is_light_list, value_of};
use host_port::{Answer, Host};
use ref_guards::note_result;
use ref_rules::LiveHandles;
use std::alloc::Global;
use virt_base::NoMemory;
use wit_types::Value;

/// The bytes of a handle and a name in a list.
const FOLDER_SIZE: u32 = 12;

/// What is made of the host's folders, unless the call weighs too much.
fn give_folders<H: Host>(
    alloc: Global,
    folders: Folders<'_>,
    live: &mut LiveHandles,
    inner: &mut H,
    request: Request<'_>,
    value: Option<Value>,
) -> Result<Answer, NoMemory>
    requires noted { IsNoted request }
    requires policy { request.policy.now ≡ folders.policy.now }
    requires slots { live.old.slots ≡ folders.policy.now.slots }
    requires trees { AreTrees folders.trees.now }
    ensures reaction { IfOk result (λ a. (f : Forest) (r : Reference H.State) (base seen : List PlainObservation) → Holds folders.entry.trees.now f → (H.kept inner.old).seen ≡ base ++ seen →
        IsReaction (folders_gave H.step (folders_at r f folders.entry live.old (H.kept inner.old).state) seen (listed_of request.entry) (call_of request.entry) (plain_option value)) (plain_answer a) (folders_at r f folders.entry live.new (H.kept inner.new).state) base (H.kept inner.new).seen) }
    ensures keeps { OnOk result (KeepsContents (HoldsOfFolders (length folders.entry.trees.now)) live.old live.new) }
    ensures limits { OnOk result ((live.new.slots ≡ live.old.slots) × (live.new.files ≡ live.old.files)) }
{
    let mut noted = Vec::new(alloc);
    note_result(&request.found.function.ty.result, &value, &mut noted)?;
    let answer = value_of::<H>(alloc, value);
    let mut offers = Vec::new(alloc);
    note_theirs::<H>(folders.policy, &answer, &mut offers)?;
    note_own::<H>(folders, &mut offers)?;
    let count = given_count::<H>(offers.as_slice());
    if !is_light_list(noted.as_slice(), count, FOLDER_SIZE, request.left) {
        return Ok(Answer::Trap);
    }
    offer_all(alloc, folders, live, inner, offers.as_slice())
}

/// `get-directories`, where the host is asked.
pub fn ask_folders<H: Host>(
    alloc: Global,
    folders: Folders<'_>,
    live: &mut LiveHandles,
    inner: &mut H,
    request: Request<'_>,
) -> Result<Answer, NoMemory>
    requires noted { IsNoted request }
    requires policy { request.policy.now ≡ folders.policy.now }
    requires slots { live.old.slots ≡ folders.policy.now.slots }
    requires trees { AreTrees folders.trees.now }
    ensures reaction { IfOk result (λ a. (f : Forest) (r : Reference H.State) → Holds folders.entry.trees.now f →
        IsReaction (asks H.step (folders_at r f folders.entry live.old (H.kept inner.old).state) (listed_of request.entry) (call_of request.entry) (λ s seen v. folders_gave H.step s seen (listed_of request.entry) (call_of request.entry) v)) (plain_answer a) (folders_at r f folders.entry live.new (H.kept inner.new).state) (H.kept inner.old).seen (H.kept inner.new).seen) }
    ensures keeps { OnOk result (KeepsContents (HoldsOfFolders (length folders.entry.trees.now)) live.old live.new) }
    ensures limits { OnOk result ((live.new.slots ≡ live.old.slots) × (live.new.files ≡ live.old.files)) }
    ensures typed { OnOk result ((f : Forest) (r : Reference H.State) → HostIsTyped H.step (folders_at r f folders.entry live.old (H.kept inner.old).state) (listed_of request.entry) (call_of request.entry)) }
{
    match ask(alloc, live, inner, request)? {
        Answer::Value(value) => give_folders(alloc, folders, live, inner, request, value),
        Answer::Trap => Ok(Answer::Trap),
        Answer::Ended => Ok(Answer::Ended),
        Answer::Bad => Ok(Answer::Bad),
    }
}

/// `get-directories`, where the host is not asked.
pub fn own_folders<H: Host>(
    alloc: Global,
    folders: Folders<'_>,
    live: &mut LiveHandles,
    inner: &mut H,
) -> Result<Answer, NoMemory>
    requires slots { live.old.slots ≡ folders.policy.now.slots }
    requires trees { AreTrees folders.trees.now }
    ensures reaction { IfOk result (λ a. (f : Forest) (r : Reference H.State) → Holds folders.entry.trees.now f →
        IsReaction (reference.offers H.step (folders_at r f folders.entry live.old (H.kept inner.old).state) [] [] (own_offers H.step (folders_at r f folders.entry live.old (H.kept inner.old).state).setup)) (plain_answer a) (folders_at r f folders.entry live.new (H.kept inner.new).state) (H.kept inner.old).seen (H.kept inner.new).seen) }
    ensures keeps { OnOk result (KeepsContents (HoldsOfFolders (length folders.entry.trees.now)) live.old live.new) }
    ensures limits { OnOk result ((live.new.slots ≡ live.old.slots) × (live.new.files ≡ live.old.files)) }
{
    let mut offers = Vec::new(alloc);
    note_own::<H>(folders, &mut offers)?;
    offer_all(alloc, folders, live, inner, offers.as_slice())
}
