//! The parts of a type, made from a definition in one walk: fields, types of a tuple or cases, and what is kept of all of them.

ghost use Rattle.std.specs.Prelude.{◌≡◌, [], IfOk, OnOk, map, option_map};
ghost use Rattle.comp_facts.specs.Facts.{and_part};
ghost use Rattle.comp_defining.specs.Parts.{and_case, known_of};
ghost use Rattle.comp_types.specs.Known.{AreKnownOf};
ghost use Rattle.comp_types.specs.Spaces.{Space};
ghost use Rattle.comp_types.specs.Types.{cases_of as cases_due, fields_of as fields_due, unnamed, value_of};
ghost use Rattle.comp_scopes.specs.Stands.{Stands};
ghost use Rattle.wit_types.specs.Plain.{Parts, bare, cases_of, fields_of, payload_of, plain, types_of};

use crate::values::{shared, some_value_at, value_at};
use comp_scopes::Scope;
use comp_types::{KnownParts, KnownValue};
use std::alloc::Global;
use std::rc::Rc;
use virt_base::{NoMemory, Text};
use wasm_ast::{CaseType, LabelType, ValType};
use wit_types::{Case, Field, WitType, copy_type};

/// Adds a field.
fn push_field(
    alloc: Global,
    fields: &mut Vec<Field>,
    name: &Text,
    value: &KnownValue,
) -> Result<(), NoMemory>
    ensures { OnOk result (fields_of fields.new.items ≡ and_part (fields_of fields.old.items) name.now value.now) }
{
    let name = name.copy(alloc)?;
    let ty = copy_type(alloc, value.ty())?;
    fields.push(Field { name, ty })?;
    Ok(())
}

/// Adds the field of a label.
fn add_field(
    alloc: Global,
    scope: &Scope,
    label: &LabelType,
    fields: &mut Vec<Field>,
    known: &mut KnownParts,
) -> Result<(), NoMemory>
    ensures fields { OnOk result ((s : Space) → Stands s scope.now → fields_of fields.new.items ≡ and_part (fields_of fields.old.items) label.now.label (value_of s label.now.ty)) }
    ensures kept { OnOk result (AreKnownOf (fields_of fields.old.items) known.old → AreKnownOf (fields_of fields.new.items) known.new) }
{
    let value = value_at(alloc, scope, label.ty)?;
    known.add(label.label.bytes(), &value)?;
    push_field(alloc, fields, &label.label, &value)
}

/// The fields of a record, or the parameters of a function.
pub fn fields_at(
    alloc: Global,
    scope: &Scope,
    labels: &[LabelType],
) -> Result<(Vec<Field>, KnownParts), NoMemory>
    ensures fields { IfOk result (λ made. (s : Space) → Stands s scope.now → fields_of made.0.items ≡ fields_due s labels.now) }
    ensures kept { IfOk result (λ made. AreKnownOf (fields_of made.0.items) made.1) }
{
    let mut fields = Vec::new(alloc);
    let mut known = KnownParts::none(alloc);
    let mut rest = labels;
    while let Some((label, more)) = rest.split_first() {
        add_field(alloc, scope, label, &mut fields, &mut known)?;
        rest = more;
    }
    Ok((fields, known))
}

/// Adds a type of a tuple.
fn push_type(alloc: Global, types: &mut Vec<WitType>, value: &KnownValue) -> Result<(), NoMemory>
    ensures { OnOk result (types_of types.new.items ≡ and_part (types_of types.old.items) [] value.now) }
{
    let ty = copy_type(alloc, value.ty())?;
    types.push(ty)?;
    Ok(())
}

/// Adds the type of a tuple's part.
fn add_type(
    alloc: Global,
    scope: &Scope,
    value: ValType,
    types: &mut Vec<WitType>,
    known: &mut KnownParts,
) -> Result<(), NoMemory>
    ensures types { OnOk result ((s : Space) → Stands s scope.now → types_of types.new.items ≡ and_part (types_of types.old.items) [] (value_of s value)) }
    ensures kept { OnOk result (AreKnownOf (types_of types.old.items) known.old → AreKnownOf (types_of types.new.items) known.new) }
{
    let value = value_at(alloc, scope, value)?;
    known.add(b"", &value)?;
    push_type(alloc, types, &value)
}

/// The types of a tuple.
pub fn types_at(
    alloc: Global,
    scope: &Scope,
    values: &[ValType],
) -> Result<(Vec<WitType>, KnownParts), NoMemory>
    ensures types { IfOk result (λ made. (s : Space) → Stands s scope.now → types_of made.0.items ≡ unnamed (map (value_of s) values.now)) }
    ensures kept { IfOk result (λ made. AreKnownOf (types_of made.0.items) made.1) }
{
    let mut types = Vec::new(alloc);
    let mut known = KnownParts::none(alloc);
    let mut rest = values;
    while let Some((value, more)) = rest.split_first() {
        add_type(alloc, scope, *value, &mut types, &mut known)?;
        rest = more;
    }
    Ok((types, known))
}

/// A type by itself, to be shared.
pub fn shared_type(alloc: Global, value: &KnownValue) -> Result<Rc<WitType>, NoMemory>
    ensures { IfOk result (λ ty. plain ty.value ≡ value.now) }
{
    shared(alloc, copy_type(alloc, value.ty())?)
}

/// The payload of a case.
pub fn shared_payload(
    alloc: Global,
    value: &Option<Rc<KnownValue>>,
) -> Result<Option<Rc<WitType>>, NoMemory>
    ensures { IfOk result (λ ty. payload_of ty ≡ known_of value.now) }
{
    match value {
        None => Ok(None),
        Some(value) => Ok(Some(shared_type(alloc, value)?)),
    }
}

/// What a case adds to what is kept of cases.
pub fn add_payload(
    known: &mut KnownParts,
    name: &[u8],
    value: &Option<Rc<KnownValue>>,
) -> Result<(), NoMemory>
    ensures { OnOk result ((ps : Parts) → AreKnownOf ps known.old → AreKnownOf (and_case ps name.now (known_of value.now)) known.new) }
{
    match value {
        None => {
            known.add_bare(name);
            Ok(())
        }
        Some(value) => known.add(name, value),
    }
}

/// What is kept of cases of these names, all without payloads.
pub fn bare_parts(alloc: Global, labels: &[Text]) -> KnownParts
    ensures { AreKnownOf (bare labels.now) result }
{
    let mut known = KnownParts::none(alloc);
    for label in labels {
        known.add_bare(label.bytes());
    }
    known
}

/// Adds a case.
fn push_case(
    alloc: Global,
    cases: &mut Vec<Case>,
    name: &Text,
    value: &Option<Rc<KnownValue>>,
) -> Result<(), NoMemory>
    ensures { OnOk result (cases_of cases.new.items ≡ and_case (cases_of cases.old.items) name.now (known_of value.now)) }
{
    let name = name.copy(alloc)?;
    let ty = shared_payload(alloc, value)?;
    cases.push(Case { name, ty })?;
    Ok(())
}

/// Adds the case of a label.
fn add_case(
    alloc: Global,
    scope: &Scope,
    label: &CaseType,
    cases: &mut Vec<Case>,
    known: &mut KnownParts,
) -> Result<(), NoMemory>
    ensures cases { OnOk result ((s : Space) → Stands s scope.now → cases_of cases.new.items ≡ and_case (cases_of cases.old.items) label.now.label (option_map (value_of s) label.now.ty)) }
    ensures kept { OnOk result (AreKnownOf (cases_of cases.old.items) known.old → AreKnownOf (cases_of cases.new.items) known.new) }
{
    let value = some_value_at(alloc, scope, label.ty)?;
    add_payload(known, label.label.bytes(), &value)?;
    push_case(alloc, cases, &label.label, &value)
}

/// The cases of a variant.
pub fn cases_at(
    alloc: Global,
    scope: &Scope,
    labels: &[CaseType],
) -> Result<(Vec<Case>, KnownParts), NoMemory>
    ensures cases { IfOk result (λ made. (s : Space) → Stands s scope.now → cases_of made.0.items ≡ cases_due s labels.now) }
    ensures kept { IfOk result (λ made. AreKnownOf (cases_of made.0.items) made.1) }
{
    let mut cases = Vec::new(alloc);
    let mut known = KnownParts::none(alloc);
    let mut rest = labels;
    while let Some((label, more)) = rest.split_first() {
        add_case(alloc, scope, label, &mut cases, &mut known)?;
        rest = more;
    }
    Ok((cases, known))
}
