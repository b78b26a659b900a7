//! Offers in turn: each folder gets a handle, or a handle of the host is dropped.

ghost use Rattle.std.specs.Prelude.{◌≡◌, ◌++◌, ◌∷◌, ◌+◌, ℕ, [], length, List, true, false, map, nat_le, IfOk, OnOk, if◌then◌else◌};
ghost use Rattle.wit_types.specs.PlainValue.{plain_value};
ghost use Rattle.tree_table.specs.Tables.{Forest};
ghost use Rattle.host_port.specs.Calls.{PlainObservation, Trap, plain_answer};
ghost use Rattle.host_port.specs.Hosts.{drops};
ghost use Rattle.reference_step.specs.Handles.{first_free, with_entry};
ghost use Rattle.reference_step.specs.State.{Reference};
ghost use Rattle.reference_step.specs.Steps as reference;
ghost use Rattle.ref_answers.specs.Versions.{resource_in, version_in};
ghost use Rattle.ref_rules.specs.Lives.{count_of_kind};
ghost use Rattle.ref_host_calls.specs.Places.{stands_for};
ghost use Rattle.ref_guards.specs.Contents.{KeepsContents};
ghost use Rattle.ref_host_calls.specs.Offers.{AreInside, HoldsOfFolders, folder_inside, folders_at, offer_inside, shown, shown_all};
ghost use Rattle.ref_host_calls.specs.Offered.{GoesOn};
ghost use Rattle.ref_host_calls.specs.Reactions.{IsReaction};

use crate::offers::{Folder, Folders, Offer};
use host_port::{Answer, Host};
use ref_answers::{ListedTable, list, pair};
use ref_rules::LiveHandles;
use std::alloc::Global;
use virt_base::{NoMemory, Text};
use wit_types::Value;

/// The kind of descriptors.
const DESCRIPTOR: u32 = 6;

fn is_given<H: Host>(offer: Offer<'_>) -> bool
    ensures { (f : Forest) → reference.is_given H.step (shown H.step f offer.entry) ≡ (if result then 1 else 0) }
{
    match offer {
        Offer::Given(_, _) => true,
        Offer::Lost(_) => false,
    }
}

/// How many folders are given.
pub fn given_count<H: Host>(offers: &[Offer<'_>]) -> usize
    ensures { (f : Forest) → result ≡ reference.given_count H.step (shown_all H.step f offers.now) }
{
    let mut count = 0;
    for offer in offers {
        if is_given::<H>(*offer) {
            count += 1;
        }
    }
    count
}

/// A folder gets a handle, if there is room for one, and stands after those before it.
fn give_folder<H: Host>(
    alloc: Global,
    live: &mut LiveHandles,
    folder: Folder,
    name: &str,
    values: &mut Vec<Value>,
) -> Result<bool, NoMemory>
    ensures fits { IfOk result (λ fits. fits ≡ nat_le (1 + count_of_kind 6 live.old.handles) live.old.slots) }
    ensures handle { IfOk result (λ fits. fits ≡ true → live.new ≡ record live.old { handles = with_entry live.old.handles (record { kind = 6; content = stands_for folder }) }) }
    ensures value { IfOk result (λ fits. fits ≡ true → map plain_value values.new.items ≡ map plain_value values.old.items ++ reference.folder_value H.step (first_free live.old.handles) name.now ∷ []) }
    ensures none { IfOk result (λ fits. fits ≡ false → live.new ≡ live.old) }
    ensures keeps { OnOk result ((trees : ℕ) → folder_inside trees folder ≡ true → KeepsContents (HoldsOfFolders trees) live.old live.new) }
{
    if live.room(DESCRIPTOR) == 0 {
        return Ok(false);
    }
    let id = live.add(DESCRIPTOR, folder.content());
    let name = Text::from_str(alloc, name)?;
    values.push(pair(alloc, Value::Handle(id), Value::Str(name))?)?;
    Ok(true)
}

/// A handle of the host is dropped.
fn lose_folder<H: Host>(
    alloc: Global,
    listed: &ListedTable,
    inner: &mut H,
    id: u32,
) -> Result<(), NoMemory>
    ensures { OnOk result (H.kept inner.new ≡ drops H.step (H.kept inner.old) (resource_in (version_in listed.now) 6) id) }
{
    let resource = listed.resource(alloc, DESCRIPTOR)?;
    inner.drop_handle(alloc, &resource, id)
}

/// A folder is given or dropped; it answers whether there was room.
fn offer_one<H: Host>(
    alloc: Global,
    folders: Folders<'_>,
    live: &mut LiveHandles,
    inner: &mut H,
    offer: Offer<'_>,
    values: &mut Vec<Value>,
) -> Result<bool, NoMemory>
    requires { live.old.slots ≡ folders.policy.now.slots }
    ensures goes { IfOk result (λ goes. goes ≡ true → (f : Forest) (r : Reference H.State) (base seen : List PlainObservation) (rest : List (reference.Offer H.step)) → (H.kept inner.old).seen ≡ base ++ seen →
        GoesOn H.step (folders_at r f folders.entry live.old (H.kept inner.old).state) seen (map plain_value values.old.items) (shown H.step f offer.entry ∷ rest) (folders_at r f folders.entry live.new (H.kept inner.new).state) (map plain_value values.new.items) rest base (H.kept inner.new).seen) }
    ensures stops { IfOk result (λ goes. goes ≡ false → (f : Forest) (r : Reference H.State) (base seen : List PlainObservation) (rest : List (reference.Offer H.step)) → (H.kept inner.old).seen ≡ base ++ seen →
        IsReaction (reference.offers H.step (folders_at r f folders.entry live.old (H.kept inner.old).state) seen (map plain_value values.old.items) (shown H.step f offer.entry ∷ rest)) Trap (folders_at r f folders.entry live.new (H.kept inner.new).state) base (H.kept inner.new).seen) }
    ensures keeps { OnOk result (offer_inside (length folders.entry.trees.now) offer.entry ≡ true → KeepsContents (HoldsOfFolders (length folders.entry.trees.now)) live.old live.new) }
    ensures limits { OnOk result ((live.new.slots ≡ live.old.slots) × (live.new.files ≡ live.old.files)) }
{
    match offer {
        Offer::Given(folder, name) => give_folder::<H>(alloc, live, folder, name, values),
        Offer::Lost(id) => {
            lose_folder(alloc, folders.listed, inner, id)?;
            Ok(true)
        }
    }
}

/// Each folder is given or dropped in its turn. One without room traps.
pub fn offer_all<H: Host>(
    alloc: Global,
    folders: Folders<'_>,
    live: &mut LiveHandles,
    inner: &mut H,
    offers: &[Offer<'_>],
) -> Result<Answer, NoMemory>
    requires slots { live.old.slots ≡ folders.policy.now.slots }
    requires inside { AreInside (length folders.trees.now) offers.now }
    ensures reaction { IfOk result (λ a. (f : Forest) (r : Reference H.State) (base seen : List PlainObservation) → (H.kept inner.old).seen ≡ base ++ seen →
        IsReaction (reference.offers H.step (folders_at r f folders.entry live.old (H.kept inner.old).state) seen [] (shown_all H.step f offers.now)) (plain_answer a) (folders_at r f folders.entry live.new (H.kept inner.new).state) base (H.kept inner.new).seen) }
    ensures keeps { OnOk result (KeepsContents (HoldsOfFolders (length folders.entry.trees.now)) live.old live.new) }
    ensures limits { OnOk result ((live.new.slots ≡ live.old.slots) × (live.new.files ≡ live.old.files)) }
{
    let mut values = Vec::new(alloc);
    for offer in offers {
        let goes = offer_one(alloc, folders, live, inner, *offer, &mut values)?;
        if !goes {
            return Ok(Answer::Trap);
        }
    }
    Ok(Answer::Value(Some(list(values))))
}
