//! The folders that the host gives at `get-directories`, and what the policy makes of each: it is given under a name, or its handle is
//! dropped.

#![tactic(auto, using(wit_types::proofs::ValueLemmas::values, crate::proofs::OfferLemmas::offer_rules))]

ghost use Rattle.std.specs.Prelude.{◌≡◌, ◌++◌, [], map, IfSome, IfNone, OnOk, if◌then◌else◌};
ghost use Rattle.std.specs.List.{find};
ghost use Rattle.std.specs.Option.{option_copied};
ghost use Rattle.std.specs.Str.{bytes_eq};
ghost use Rattle.wit_types.specs.PlainValue.{plain_value, plain_values, byte_values};
ghost use Rattle.tree_table.specs.Tables.{Forest};
ghost use Rattle.reference_step.specs.Access.{all_files};
ghost use Rattle.reference_step.specs.Handles as contents;
ghost use Rattle.reference_step.specs.Steps as reference;
ghost use Rattle.reference_step.specs.Values.{fields_in, items, list_in, nth, text_in};
ghost use Rattle.ref_rules.specs.Parts.{shown as shown_part};
ghost use Rattle.ref_host_calls.specs.Offers.{shown, shown_all};

use crate::offers::{Folder, Offer};
use host_port::Host;
use policy_data::{HostFiles, Pass, Policy};
use ref_rules::{Part, id_of, part_at};
use virt_base::NoMemory;
use wit_types::{Value, Values};

/// The first pass of a folder of the host.
fn pass_of<'a>(passes: &'a [Pass], host: &str) -> Option<&'a Pass>
    ensures { option_copied result ≡ find (λ pass. bytes_eq pass.host host.now) passes.now }
{
    passes.iter().find(|pass| pass.host.as_str() == host)
}

/// The field at a place of a record; of another value there is none.
fn field_at(value: &Value, place: usize) -> Part<'_>
    ensures { shown_part result ≡ nth place (fields_in (plain_value value.now)) }
{
    match value {
        Value::Record(fields) => part_at(fields, place),
        Value::Bool(_)
        | Value::Int(_)
        | Value::Char(_)
        | Value::Str(_)
        | Value::List(_)
        | Value::Variant(_, _)
        | Value::Flags(_)
        | Value::Handle(_) => Part::Missing,
    }
}

fn text_in(value: &Value) -> &str
    ensures { result.now ≡ text_in (plain_value value.now) }
{
    match value {
        Value::Str(text) => text.as_str(),
        Value::Bool(_)
        | Value::Int(_)
        | Value::Char(_)
        | Value::List(_)
        | Value::Record(_)
        | Value::Variant(_, _)
        | Value::Flags(_)
        | Value::Handle(_) => "",
    }
}

/// The text that a part is; an empty one of another.
fn text_of<'a>(part: Part<'a>) -> &'a str
    ensures { result.now ≡ text_in (shown_part part.entry) }
{
    match part {
        Part::Value(value) => text_in(value),
        Part::Byte(_) => "",
        Part::Missing => "",
    }
}

fn by_pass<'a, H: Host>(id: u32, pass: Option<&'a Pass>) -> Offer<'a>
    ensures { (f : Forest) → shown H.step f result ≡ reference.by_pass H.step id (option_copied pass.entry) }
{
    match pass {
        None => Offer::Lost(id),
        Some(pass) => Offer::Given(Folder::Theirs(id), pass.shown.as_str()),
    }
}

/// What becomes of a folder of the host, by its handle and its name.
fn offer_by<'a, H: Host>(policy: &'a Policy, id: u32, name: &'a str) -> Offer<'a>
    ensures { (f : Forest) → shown H.step f result ≡ (if all_files policy.now.fs_host then reference.Given (contents.Host id) name.now else reference.by_pass H.step id (find (λ pass. bytes_eq pass.host name.now) policy.now.fs_pass)) }
{
    match policy.fs_host {
        HostFiles::All => Offer::Given(Folder::Theirs(id), name),
        HostFiles::Deny => by_pass::<H>(id, pass_of(policy.fs_pass.as_slice(), name)),
    }
}

fn offer_of<'a, H: Host>(policy: &'a Policy, value: &'a Value) -> Offer<'a>
    ensures { (f : Forest) → shown H.step f result ≡ reference.offer_of H.step policy.now (plain_value value.now) }
{
    let id = id_of(field_at(value, 0));
    let name = text_of(field_at(value, 1));
    offer_by::<H>(policy, id, name)
}

fn note_each<'a, H: Host>(
    policy: &'a Policy,
    values: &'a [Value],
    offers: &mut Vec<Offer<'a>>,
) -> Result<(), NoMemory>
    ensures { OnOk result ((f : Forest) → shown_all H.step f offers.new.items ≡ shown_all H.step f offers.old.items ++ map (λ v. reference.offer_of H.step policy.now v) (map plain_value values.now)) }
{
    for value in values {
        offers.push(offer_of::<H>(policy, value))?;
    }
    Ok(())
}

/// Bytes are no folders of a host, but each counts as one.
fn note_bytes<'a, H: Host>(
    policy: &'a Policy,
    bytes: &[u8],
    offers: &mut Vec<Offer<'a>>,
) -> Result<(), NoMemory>
    ensures { OnOk result ((f : Forest) → shown_all H.step f offers.new.items ≡ shown_all H.step f offers.old.items ++ map (λ v. reference.offer_of H.step policy.now v) (items (byte_values bytes.now))) }
{
    for _byte in bytes {
        offers.push(offer_by::<H>(policy, 0, ""))?;
    }
    Ok(())
}

fn note_values<'a, H: Host>(
    policy: &'a Policy,
    values: &'a Values,
    offers: &mut Vec<Offer<'a>>,
) -> Result<(), NoMemory>
    ensures { OnOk result ((f : Forest) → shown_all H.step f offers.new.items ≡ shown_all H.step f offers.old.items ++ map (λ v. reference.offer_of H.step policy.now v) (items (plain_values values.now))) }
{
    match values {
        Values::Each(values) => note_each::<H>(policy, values.as_slice(), offers),
        Values::Bytes(bytes) => note_bytes::<H>(policy, bytes.as_slice(), offers),
    }
}

/// The values of a list; none of another value, which then has no folders.
fn list_values(answer: &Value) -> Option<&Values>
    ensures some { IfSome result (λ vs. list_in (plain_value answer.now) ≡ items (plain_values vs.now)) }
    ensures none { IfNone result (list_in (plain_value answer.now) ≡ []) }
{
    match answer {
        Value::List(values) => Some(values),
        Value::Bool(_)
        | Value::Int(_)
        | Value::Char(_)
        | Value::Str(_)
        | Value::Record(_)
        | Value::Variant(_, _)
        | Value::Flags(_)
        | Value::Handle(_) => None,
    }
}

/// What becomes of each folder that the host answers.
pub fn note_theirs<'a, H: Host>(
    policy: &'a Policy,
    answer: &'a Value,
    offers: &mut Vec<Offer<'a>>,
) -> Result<(), NoMemory>
    ensures { OnOk result ((f : Forest) → shown_all H.step f offers.new.items ≡ shown_all H.step f offers.old.items ++ map (λ v. reference.offer_of H.step policy.now v) (list_in (plain_value answer.now))) }
{
    match list_values(answer) {
        Some(values) => note_values::<H>(policy, values, offers),
        None => Ok(()),
    }
}
