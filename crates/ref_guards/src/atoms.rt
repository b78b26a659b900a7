//! The texts, lists and handles that stand in a value, noted in the value's order. Weight and live handles are found from these, without
//! another walk through the value.

#![tactic(auto, using(wit_types::proofs::ValueLemmas::values, abi_layout::proofs::LayoutLemmas::counts, crate::proofs::AtomLemmas::atom_rules))]

ghost use Rattle.std.specs.Prelude.{◌≡◌, ◌≤◌, ◌++◌, ◌∷◌, ℕ, List, OnOk, IfSome, IfNone, []};
ghost use Rattle.wit_types.specs.Plain.{plain, plain_result, payload_of, case_part, fields_of, types_of, cases_of, Bare, More, End, ListType};
ghost use Rattle.wit_types.specs.PlainValue.{PlainValue, PlainValues, Payload, ListValue, RecordValue, VariantValue, plain_value, plain_values, values_of, payload_of as value_payload_of};
ghost use Rattle.wit_types.specs.Limits.{parts, all_parts};
ghost use Rattle.host_port.specs.Calls.{fields_in, plain_option};
ghost use Rattle.reference_step.specs.Atoms.{Atom as PlainAtom, atoms, atoms_of, atoms_at, text_atoms, handle_atoms, each_atoms, list_atoms, record_atoms, variant_atoms, payload_atoms, result_atoms};
ghost use Rattle.ref_guards.specs.Noted.{shown, shown_all, parts_of_result, optional_atoms, items_atoms};

use abi_layout::size;
use std::rc::Rc;
use virt_base::NoMemory;
use wit_types::{Case, Field, Fields, Value, Values, WitType};

/// A text, a list or a handle in a value.
#[derive(Debug, Clone, Copy, PartialEq, Eq)]
pub enum Atom {
    /// A text of that many bytes.
    Text(usize),
    /// A list of that many elements of a size.
    Elements(usize, u32),
    /// A handle of a kind, by its number.
    Handle(u32, u32),
}

fn note(atom: Atom, noted: &mut Vec<Atom>) -> Result<(), NoMemory>
    ensures { OnOk result (shown_all noted.new.items ≡ shown_all noted.old.items ++ shown atom ∷ []) }
{
    noted.push(atom)?;
    Ok(())
}

fn note_text(value: &Value, noted: &mut Vec<Atom>) -> Result<(), NoMemory>
    ensures { OnOk result (shown_all noted.new.items ≡ shown_all noted.old.items ++ text_atoms (plain_value value.now)) }
{
    match value {
        Value::Str(text) => note(Atom::Text(text.bytes().len()), noted),
        Value::Bool(_)
        | Value::Int(_)
        | Value::Char(_)
        | Value::List(_)
        | Value::Record(_)
        | Value::Variant(_, _)
        | Value::Flags(_)
        | Value::Handle(_) => Ok(()),
    }
}

fn note_handle(kind: u32, value: &Value, noted: &mut Vec<Atom>) -> Result<(), NoMemory>
    ensures { OnOk result (shown_all noted.new.items ≡ shown_all noted.old.items ++ handle_atoms kind (plain_value value.now)) }
{
    match value {
        Value::Handle(id) => note(Atom::Handle(kind, *id), noted),
        Value::Bool(_)
        | Value::Int(_)
        | Value::Char(_)
        | Value::Str(_)
        | Value::List(_)
        | Value::Record(_)
        | Value::Variant(_, _)
        | Value::Flags(_) => Ok(()),
    }
}

/// The values of a list; none of another value, which then has no atoms as one.
fn list_values(value: &Value) -> Option<&Values>
    ensures some { IfSome result (λ vs. plain_value value.now ≡ ListValue (plain_values vs.now)) }
    ensures none { IfNone result ((size : ℕ) (go : PlainValue → List PlainAtom) → list_atoms size go (plain_value value.now) ≡ []) }
{
    match value {
        Value::List(values) => Some(values),
        Value::Bool(_)
        | Value::Int(_)
        | Value::Char(_)
        | Value::Str(_)
        | Value::Record(_)
        | Value::Variant(_, _)
        | Value::Flags(_)
        | Value::Handle(_) => None,
    }
}

/// The same of a record.
fn record_values(value: &Value) -> Option<&Values>
    ensures some { IfSome result (λ vs. plain_value value.now ≡ RecordValue (plain_values vs.now)) }
    ensures none { IfNone result ((go : PlainValues → List PlainAtom) → record_atoms go (plain_value value.now) ≡ []) }
{
    match value {
        Value::Record(values) => Some(values),
        Value::Bool(_)
        | Value::Int(_)
        | Value::Char(_)
        | Value::Str(_)
        | Value::List(_)
        | Value::Variant(_, _)
        | Value::Flags(_)
        | Value::Handle(_) => None,
    }
}

/// The same of a variant: the number of its case, and its payload.
fn chosen_case(value: &Value) -> Option<(u32, &Option<Box<Value>>)>
    ensures some { IfSome result (λ p. plain_value value.now ≡ VariantValue p.0 (value_payload_of p.1.now)) }
    ensures none { IfNone result ((go : ℕ → Payload → List PlainAtom) → variant_atoms go (plain_value value.now) ≡ []) }
{
    match value {
        Value::Variant(number, payload) => Some((*number, payload)),
        Value::Bool(_)
        | Value::Int(_)
        | Value::Char(_)
        | Value::Str(_)
        | Value::List(_)
        | Value::Record(_)
        | Value::Flags(_)
        | Value::Handle(_) => None,
    }
}

#[cycle(note_atoms)]
fn note_payload(
    ty: &Option<Rc<WitType>>,
    payload: &Option<Box<Value>>,
    noted: &mut Vec<Atom>,
) -> Result<(), NoMemory>
    requires { all_parts (case_part [] (payload_of ty.now) End) ≤ 1000000 }
    ensures { OnOk result (shown_all noted.new.items ≡ shown_all noted.old.items ++ optional_atoms (payload_of ty.now) (value_payload_of payload.now)) }
{
    match ty {
        None => Ok(()),
        Some(ty) => note_present(ty, payload, noted),
    }
}

#[cycle(note_atoms)]
fn note_present(
    ty: &WitType,
    payload: &Option<Box<Value>>,
    noted: &mut Vec<Atom>,
) -> Result<(), NoMemory>
    requires { parts (plain ty.now) ≤ 1000000 }
    ensures { OnOk result (shown_all noted.new.items ≡ shown_all noted.old.items ++ payload_atoms (λ v. atoms (plain ty.now) v) (value_payload_of payload.now)) }
{
    match payload {
        None => Ok(()),
        Some(value) => note_atoms(ty, value, noted),
    }
}

#[cycle(note_atoms)]
fn note_each(item: &WitType, values: &[Value], noted: &mut Vec<Atom>) -> Result<(), NoMemory>
    requires { parts (plain item.now) ≤ 1000000 }
    ensures { OnOk result (shown_all noted.new.items ≡ shown_all noted.old.items ++ each_atoms (λ v. atoms (plain item.now) v) (values_of values.now)) }
{
    for value in values {
        note_atoms(item, value, noted)?;
    }
    Ok(())
}

/// The bytes of a run have no atoms.
#[cycle(note_atoms)]
fn note_items(item: &WitType, values: &Values, noted: &mut Vec<Atom>) -> Result<(), NoMemory>
    requires { parts (plain item.now) ≤ 1000000 }
    ensures { OnOk result (shown_all noted.new.items ≡ shown_all noted.old.items ++ items_atoms (plain item.now) (plain_values values.now)) }
{
    match values {
        Values::Each(items) => {
            note(Atom::Elements(items.len(), size(item)), noted)?;
            note_each(item, items, noted)?;
        }
        Values::Bytes(bytes) => note(Atom::Elements(bytes.len(), size(item)), noted)?,
    }
    Ok(())
}

#[cycle(note_atoms)]
fn note_list(item: &WitType, value: &Value, noted: &mut Vec<Atom>) -> Result<(), NoMemory>
    requires { parts (plain item.now) ≤ 1000000 }
    ensures { OnOk result (shown_all noted.new.items ≡ shown_all noted.old.items ++ atoms (ListType (plain item.now)) (plain_value value.now)) }
{
    match list_values(value) {
        Some(values) => note_items(item, values, noted),
        None => Ok(()),
    }
}

#[cycle(note_atoms)]
fn note_fields_each(
    fields: &[Field],
    values: &[Value],
    noted: &mut Vec<Atom>,
) -> Result<(), NoMemory>
    requires { all_parts (fields_of fields.now) ≤ 1000000 }
    ensures { OnOk result (shown_all noted.new.items ≡ shown_all noted.old.items ++ atoms_of (fields_of fields.now) (values_of values.now)) }
{
    let count = fields.len().min(values.len());
    for i in 0..count {
        note_atoms(&fields[i].ty, &values[i], noted)?;
    }
    Ok(())
}

#[cycle(note_atoms)]
fn note_fields(fields: &[Field], values: &Values, noted: &mut Vec<Atom>) -> Result<(), NoMemory>
    requires { all_parts (fields_of fields.now) ≤ 1000000 }
    ensures { OnOk result (shown_all noted.new.items ≡ shown_all noted.old.items ++ atoms_of (fields_of fields.now) (plain_values values.now)) }
{
    match values {
        Values::Each(items) => note_fields_each(fields, items, noted),
        Values::Bytes(_) => Ok(()),
    }
}

#[cycle(note_atoms)]
fn note_record(fields: &[Field], value: &Value, noted: &mut Vec<Atom>) -> Result<(), NoMemory>
    requires { all_parts (fields_of fields.now) ≤ 1000000 }
    ensures { OnOk result (shown_all noted.new.items ≡ shown_all noted.old.items ++ record_atoms (λ xs. atoms_of (fields_of fields.now) xs) (plain_value value.now)) }
{
    match record_values(value) {
        Some(values) => note_fields(fields, values, noted),
        None => Ok(()),
    }
}

#[cycle(note_atoms)]
fn note_types_each(
    types: &[WitType],
    values: &[Value],
    noted: &mut Vec<Atom>,
) -> Result<(), NoMemory>
    requires { all_parts (types_of types.now) ≤ 1000000 }
    ensures { OnOk result (shown_all noted.new.items ≡ shown_all noted.old.items ++ atoms_of (types_of types.now) (values_of values.now)) }
{
    let count = types.len().min(values.len());
    for i in 0..count {
        note_atoms(&types[i], &values[i], noted)?;
    }
    Ok(())
}

#[cycle(note_atoms)]
fn note_types(types: &[WitType], values: &Values, noted: &mut Vec<Atom>) -> Result<(), NoMemory>
    requires { all_parts (types_of types.now) ≤ 1000000 }
    ensures { OnOk result (shown_all noted.new.items ≡ shown_all noted.old.items ++ atoms_of (types_of types.now) (plain_values values.now)) }
{
    match values {
        Values::Each(items) => note_types_each(types, items, noted),
        Values::Bytes(_) => Ok(()),
    }
}

#[cycle(note_atoms)]
fn note_tuple(types: &[WitType], value: &Value, noted: &mut Vec<Atom>) -> Result<(), NoMemory>
    requires { all_parts (types_of types.now) ≤ 1000000 }
    ensures { OnOk result (shown_all noted.new.items ≡ shown_all noted.old.items ++ record_atoms (λ xs. atoms_of (types_of types.now) xs) (plain_value value.now)) }
{
    match record_values(value) {
        Some(values) => note_types(types, values, noted),
        None => Ok(()),
    }
}

#[cycle(note_atoms)]
fn note_variant(cases: &[Case], value: &Value, noted: &mut Vec<Atom>) -> Result<(), NoMemory>
    requires { all_parts (cases_of cases.now) ≤ 1000000 }
    ensures { OnOk result (shown_all noted.new.items ≡ shown_all noted.old.items ++ variant_atoms (λ n x. atoms_at (cases_of cases.now) n x) (plain_value value.now)) }
{
    match chosen_case(value) {
        Some((number, payload)) => {
            let number = number as usize;
            if number < cases.len() {
                note_payload(&cases[number].ty, payload, noted)
            } else {
                Ok(())
            }
        }
        None => Ok(()),
    }
}

#[cycle(note_atoms)]
fn note_option(some: &WitType, value: &Value, noted: &mut Vec<Atom>) -> Result<(), NoMemory>
    requires { parts (plain some.now) ≤ 1000000 }
    ensures { OnOk result (shown_all noted.new.items ≡ shown_all noted.old.items ++ variant_atoms (λ n x. atoms_at (Bare [] (More [] (plain some.now) End)) n x) (plain_value value.now)) }
{
    match chosen_case(value) {
        Some((number, payload)) => {
            if number == 1 {
                note_present(some, payload, noted)
            } else {
                Ok(())
            }
        }
        None => Ok(()),
    }
}

/// Notes the texts, lists and handles of a value of a type, in the value's order.
#[cycle(note_atoms)]
pub fn note_atoms(ty: &WitType, value: &Value, noted: &mut Vec<Atom>) -> Result<(), NoMemory>
    requires { parts (plain ty.now) ≤ 1000000 }
    ensures { OnOk result (shown_all noted.new.items ≡ shown_all noted.old.items ++ atoms (plain ty.now) (plain_value value.now)) }
{
    match ty {
        WitType::Bool | WitType::S8 | WitType::U8 | WitType::S16 | WitType::U16 => Ok(()),
        WitType::S32 | WitType::U32 | WitType::S64 | WitType::U64 | WitType::Char => Ok(()),
        WitType::Flags(_) => Ok(()),
        WitType::Enum(_) => Ok(()),
        WitType::Str => note_text(value, noted),
        WitType::Record(fields) => note_record(&fields.items, value, noted),
        WitType::Tuple(types) => note_tuple(&types.items, value, noted),
        WitType::Variant(cases) => note_variant(&cases.items, value, noted),
        WitType::List(item) => note_list(item, value, noted),
        WitType::Option(some) => note_option(some, value, noted),
        WitType::Result(ok, err) => match chosen_case(value) {
            Some((number, payload)) => {
                if number == 0 {
                    note_payload(ok, payload, noted)
                } else if number == 1 {
                    note_payload(err, payload, noted)
                } else {
                    Ok(())
                }
            }
            None => Ok(()),
        },
        WitType::Own(kind) => note_handle(*kind, value, noted),
        WitType::Borrow(kind) => note_handle(*kind, value, noted),
    }
}

/// Those of the arguments of a call.
pub fn note_arguments(params: &Fields, args: &Values, noted: &mut Vec<Atom>) -> Result<(), NoMemory>
    requires { all_parts (fields_in params.now) ≤ 1000000 }
    ensures { OnOk result (shown_all noted.new.items ≡ shown_all noted.old.items ++ atoms_of (fields_in params.now) (plain_values args.now)) }
{
    note_fields(&params.items, args, noted)
}

/// Those of an answer, where the call has a result.
pub fn note_result(
    ty: &Option<WitType>,
    value: &Option<Value>,
    noted: &mut Vec<Atom>,
) -> Result<(), NoMemory>
    requires { parts_of_result (plain_result ty.now) ≤ 1000000 }
    ensures { OnOk result (shown_all noted.new.items ≡ shown_all noted.old.items ++ result_atoms (plain_result ty.now) (plain_option value.now)) }
{
    match ty {
        None => Ok(()),
        Some(ty) => match value {
            None => Ok(()),
            Some(value) => note_atoms(ty, value, noted),
        },
    }
}
