//! Types of the same form and names whose parts have other types, with what is kept of them.
#![tactic(auto, using(wit_types::proofs::PlainLemmas::plains))]

ghost use Rattle.std.specs.Prelude.{◌≡◌, [], option_map, IfOk, OnOk};
ghost use Rattle.wit_types.specs.Plain.{Parts, plain, fields_of, types_of, cases_of, payload_of, bare, case_part, ListType, RecordType, VariantType, AsRecord, AsTuple, AsVariant, AsEnum, AsOption, AsResult, OwnType, BorrowType, Bare, More, End};
ghost use Rattle.comp_facts.specs.Facts.{IsFactsOf, and_part};
ghost use Rattle.comp_facts.specs.Keys.{keys_of};
ghost use Rattle.comp_facts.specs.Primitives.{primitive_type};
ghost use Rattle.comp_types.specs.Known.{AreKnownOf};
ghost use Rattle.type_table.specs.Slots.{slots_in, slots_of};
ghost use Rattle.type_table.specs.Retyped.{Fits, retyped_parts, retyped, values_of, part_value, and_slot};

use comp_facts::{Facts, RecordForm, VariantForm};
use comp_types::{KnownParts, KnownValue};
use std::alloc::Global;
use std::rc::Rc;
use virt_base::{Items, NoMemory, Text};
use wasm_ast::Primitive;
use wit_types::{Case, Cases, Field, Fields, Types, WitType, copy_type};

/// What a list of the types of parts has at an index.
fn part_at(parts: &[Option<Rc<KnownValue>>], index: usize) -> Option<&Rc<KnownValue>>
    ensures { option_map (λ p. p.now.value) result ≡ part_value (values_of parts.now) index }
{
    match parts.get(index) {
        None => None,
        Some(part) => match part {
            None => None,
            Some(part) => Some(part),
        },
    }
}

fn shared<T: Drop>(alloc: Global, value: T) -> Result<Rc<T>, NoMemory>
    ensures { IfOk result (λ kept. kept.value ≡ value) }
{
    match Rc::new(alloc, value) {
        Ok(kept) => Ok(kept),
        Err(_) => Err(NoMemory),
    }
}

fn shared_type(alloc: Global, value: &KnownValue) -> Result<Rc<WitType>, NoMemory>
    ensures { IfOk result (λ ty. plain ty.value ≡ value.now) }
{
    shared(alloc, copy_type(alloc, value.ty())?)
}

fn shared_payload(
    alloc: Global,
    part: Option<&Rc<KnownValue>>,
) -> Result<Option<Rc<WitType>>, NoMemory>
    ensures { IfOk result (λ ty. payload_of ty ≡ option_map (λ p. p.now.value) part.entry) }
{
    match part {
        None => Ok(None),
        Some(part) => Ok(Some(shared_type(alloc, part)?)),
    }
}

/// One part more of this name, with a type or without.
fn add_slot(
    known: &mut KnownParts,
    name: &[u8],
    part: Option<&Rc<KnownValue>>,
) -> Result<(), NoMemory>
    ensures { OnOk result ((ps : Parts) → AreKnownOf ps known.old → AreKnownOf (and_slot ps name.now (option_map (λ p. p.now.value) part.entry)) known.new) }
{
    match part {
        None => {
            known.add_bare(name);
            Ok(())
        }
        Some(part) => known.add(name, part),
    }
}

// ---- records

fn push_field(
    alloc: Global,
    fields: &mut Vec<Field>,
    name: &Text,
    value: &KnownValue,
) -> Result<(), NoMemory>
    ensures { OnOk result (fields_of fields.new.items ≡ and_part (fields_of fields.old.items) name.now value.now) }
{
    let name = name.copy(alloc)?;
    let ty = copy_type(alloc, value.ty())?;
    fields.push(Field { name, ty })?;
    Ok(())
}

/// Adds a field, and what is kept of it.
pub fn add_field(
    alloc: Global,
    fields: &mut Vec<Field>,
    known: &mut KnownParts,
    name: &Text,
    value: &KnownValue,
) -> Result<(), NoMemory>
    ensures fields { OnOk result (fields_of fields.new.items ≡ and_part (fields_of fields.old.items) name.now value.now) }
    ensures kept { OnOk result (AreKnownOf (fields_of fields.old.items) known.old → AreKnownOf (fields_of fields.new.items) known.new) }
{
    known.add(name.bytes(), value)?;
    push_field(alloc, fields, name, value)
}

fn fields_as(
    alloc: Global,
    fields: &[Field],
    parts: &[Option<Rc<KnownValue>>],
) -> Result<(Vec<Field>, KnownParts), NoMemory>
    requires { Fits (slots_in (fields_of fields.now)) (values_of parts.now) }
    ensures fields { IfOk result (λ made. fields_of made.0.items ≡ retyped_parts (fields_of fields.now) (values_of parts.now)) }
    ensures kept { IfOk result (λ made. AreKnownOf (fields_of made.0.items) made.1) }
{
    let mut items = Vec::new(alloc);
    let mut known = KnownParts::none(alloc);
    let mut rest = fields;
    let mut index = 0;
    while let Some((field, more)) = rest.split_first() {
        let Some(part) = part_at(parts, index) else {
            unreachable!();
        };
        add_field(alloc, &mut items, &mut known, &field.name, part)?;
        rest = more;
        index += 1;
    }
    Ok((items, known))
}

fn record_as(
    alloc: Global,
    fields: &[Field],
    parts: &[Option<Rc<KnownValue>>],
) -> Result<KnownValue, NoMemory>
    requires { Fits (slots_in (fields_of fields.now)) (values_of parts.now) }
    ensures { IfOk result (λ new. new ≡ RecordType AsRecord (retyped_parts (fields_of fields.now) (values_of parts.now))) }
{
    let (items, known) = fields_as(alloc, fields, parts)?;
    let ty = WitType::Record(shared(alloc, Fields { items })?);
    let facts = Facts::record(RecordForm::Record, &known.facts);
    Ok(KnownValue::new(ty, facts, known.keys))
}

// ---- tuples

fn push_type(alloc: Global, types: &mut Vec<WitType>, value: &KnownValue) -> Result<(), NoMemory>
    ensures { OnOk result (types_of types.new.items ≡ and_part (types_of types.old.items) [] value.now) }
{
    let ty = copy_type(alloc, value.ty())?;
    types.push(ty)?;
    Ok(())
}

fn add_type(
    alloc: Global,
    types: &mut Vec<WitType>,
    known: &mut KnownParts,
    value: &KnownValue,
) -> Result<(), NoMemory>
    ensures types { OnOk result (types_of types.new.items ≡ and_part (types_of types.old.items) [] value.now) }
    ensures kept { OnOk result (AreKnownOf (types_of types.old.items) known.old → AreKnownOf (types_of types.new.items) known.new) }
{
    known.add(b"", value)?;
    push_type(alloc, types, value)
}

fn types_as(
    alloc: Global,
    types: &[WitType],
    parts: &[Option<Rc<KnownValue>>],
) -> Result<(Vec<WitType>, KnownParts), NoMemory>
    requires { Fits (slots_in (types_of types.now)) (values_of parts.now) }
    ensures types { IfOk result (λ made. types_of made.0.items ≡ retyped_parts (types_of types.now) (values_of parts.now)) }
    ensures kept { IfOk result (λ made. AreKnownOf (types_of made.0.items) made.1) }
{
    let mut items = Vec::new(alloc);
    let mut known = KnownParts::none(alloc);
    let mut rest = types;
    let mut index = 0;
    while let Some((_first, more)) = rest.split_first() {
        let Some(part) = part_at(parts, index) else {
            unreachable!();
        };
        add_type(alloc, &mut items, &mut known, part)?;
        rest = more;
        index += 1;
    }
    Ok((items, known))
}

fn tuple_as(
    alloc: Global,
    types: &[WitType],
    parts: &[Option<Rc<KnownValue>>],
) -> Result<KnownValue, NoMemory>
    requires { Fits (slots_in (types_of types.now)) (values_of parts.now) }
    ensures { IfOk result (λ new. new ≡ RecordType AsTuple (retyped_parts (types_of types.now) (values_of parts.now))) }
{
    let (items, known) = types_as(alloc, types, parts)?;
    let ty = WitType::Tuple(shared(alloc, Types { items })?);
    let facts = Facts::record(RecordForm::Tuple, &known.facts);
    Ok(KnownValue::new(ty, facts, known.keys))
}

// ---- variants

fn push_case(
    alloc: Global,
    cases: &mut Vec<Case>,
    name: &Text,
    part: Option<&Rc<KnownValue>>,
) -> Result<(), NoMemory>
    ensures { OnOk result (cases_of cases.new.items ≡ and_slot (cases_of cases.old.items) name.now (option_map (λ p. p.now.value) part.entry)) }
{
    let name = name.copy(alloc)?;
    let ty = shared_payload(alloc, part)?;
    cases.push(Case { name, ty })?;
    Ok(())
}

fn add_case(
    alloc: Global,
    cases: &mut Vec<Case>,
    known: &mut KnownParts,
    name: &Text,
    part: Option<&Rc<KnownValue>>,
) -> Result<(), NoMemory>
    ensures cases { OnOk result (cases_of cases.new.items ≡ and_slot (cases_of cases.old.items) name.now (option_map (λ p. p.now.value) part.entry)) }
    ensures kept { OnOk result (AreKnownOf (cases_of cases.old.items) known.old → AreKnownOf (cases_of cases.new.items) known.new) }
{
    add_slot(known, name.bytes(), part)?;
    push_case(alloc, cases, name, part)
}

fn cases_as(
    alloc: Global,
    cases: &[Case],
    parts: &[Option<Rc<KnownValue>>],
) -> Result<(Vec<Case>, KnownParts), NoMemory>
    requires { Fits (slots_in (cases_of cases.now)) (values_of parts.now) }
    ensures cases { IfOk result (λ made. cases_of made.0.items ≡ retyped_parts (cases_of cases.now) (values_of parts.now)) }
    ensures kept { IfOk result (λ made. AreKnownOf (cases_of made.0.items) made.1) }
{
    let mut items = Vec::new(alloc);
    let mut known = KnownParts::none(alloc);
    let mut rest = cases;
    let mut index = 0;
    while let Some((case, more)) = rest.split_first() {
        add_case(
            alloc,
            &mut items,
            &mut known,
            &case.name,
            part_at(parts, index),
        )?;
        rest = more;
        index += 1;
    }
    Ok((items, known))
}

fn variant_as(
    alloc: Global,
    cases: &[Case],
    parts: &[Option<Rc<KnownValue>>],
) -> Result<KnownValue, NoMemory>
    requires { Fits (slots_in (cases_of cases.now)) (values_of parts.now) }
    ensures { IfOk result (λ new. new ≡ VariantType AsVariant (retyped_parts (cases_of cases.now) (values_of parts.now))) }
{
    let (items, known) = cases_as(alloc, cases, parts)?;
    let ty = WitType::Variant(shared(alloc, Cases { items })?);
    let facts = Facts::variant(VariantForm::Variant, &known.facts);
    Ok(KnownValue::new(ty, facts, known.keys))
}

fn bare_parts(alloc: Global, labels: &[Text]) -> KnownParts
    ensures { AreKnownOf (bare labels.now) result }
{
    let mut known = KnownParts::none(alloc);
    for label in labels {
        known.add_bare(label.bytes());
    }
    known
}

fn enum_as(alloc: Global, ty: &WitType, labels: &[Text]) -> Result<KnownValue, NoMemory>
    requires { plain ty.now ≡ VariantType AsEnum (bare labels.now) }
    ensures { IfOk result (λ new. new ≡ plain ty.now) }
{
    let known = bare_parts(alloc, labels);
    let facts = Facts::variant(VariantForm::Enum, &known.facts);
    Ok(KnownValue::new(copy_type(alloc, ty)?, facts, known.keys))
}

// ---- lists, options and results

fn list_as(alloc: Global, part: &Rc<KnownValue>) -> Result<KnownValue, NoMemory>
    ensures { IfOk result (λ new. new ≡ ListType part.now.value) }
{
    let facts = part.facts();
    let mut keys = Items::empty(alloc);
    keys.push(facts.key)?;
    let ty = WitType::List(shared_type(alloc, part)?);
    Ok(KnownValue::new(ty, Facts::list(facts), keys))
}

fn option_as(alloc: Global, part: &Rc<KnownValue>) -> Result<KnownValue, NoMemory>
    ensures { IfOk result (λ new. new ≡ VariantType AsOption (Bare [] (More [] part.now.value End))) }
{
    let mut known = KnownParts::none(alloc);
    known.add_bare(b"");
    known.add(b"", part)?;
    let ty = WitType::Option(shared_type(alloc, part)?);
    let facts = Facts::variant(VariantForm::Option, &known.facts);
    Ok(KnownValue::new(ty, facts, known.keys))
}

fn result_as(
    alloc: Global,
    ok: Option<&Rc<KnownValue>>,
    error: Option<&Rc<KnownValue>>,
) -> Result<KnownValue, NoMemory>
    ensures { IfOk result (λ new. new ≡ VariantType AsResult (case_part [] (option_map (λ p. p.now.value) ok.entry) (case_part [] (option_map (λ p. p.now.value) error.entry) End))) }
{
    let mut known = KnownParts::none(alloc);
    add_slot(&mut known, b"", ok)?;
    add_slot(&mut known, b"", error)?;
    let ty = WitType::Result(shared_payload(alloc, ok)?, shared_payload(alloc, error)?);
    let facts = Facts::variant(VariantForm::Result, &known.facts);
    Ok(KnownValue::new(ty, facts, known.keys))
}

// ---- types without parts

fn leaf_as(alloc: Global, ty: &WitType, facts: Facts) -> Result<KnownValue, NoMemory>
    requires facts { IsFactsOf (plain ty.now) facts }
    requires none { keys_of (plain ty.now) ≡ [] }
    ensures { IfOk result (λ new. new ≡ plain ty.now) }
{
    Ok(KnownValue::new(copy_type(alloc, ty)?, facts, Items::empty(alloc)))
}

fn primitive_as(alloc: Global, ty: &WitType, primitive: Primitive) -> Result<KnownValue, NoMemory>
    requires { plain ty.now ≡ primitive_type primitive }
    ensures { IfOk result (λ new. new ≡ plain ty.now) }
{
    leaf_as(alloc, ty, Facts::primitive(primitive))
}

/// An owned handle.
pub fn own_as(alloc: Global, resource: u32) -> Result<KnownValue, NoMemory>
    ensures { IfOk result (λ new. new ≡ OwnType resource) }
{
    leaf_as(alloc, &WitType::Own(resource), Facts::own(resource))
}

/// A borrowed handle.
pub fn borrow_as(alloc: Global, resource: u32) -> Result<KnownValue, NoMemory>
    ensures { IfOk result (λ new. new ≡ BorrowType resource) }
{
    leaf_as(alloc, &WitType::Borrow(resource), Facts::borrow(resource))
}

/// A type of the same form and names with these types of parts; one without parts stays as it is.
pub fn rebuilt(
    alloc: Global,
    ty: &WitType,
    parts: &[Option<Rc<KnownValue>>],
) -> Result<KnownValue, NoMemory>
    requires { Fits (slots_of (plain ty.now)) (values_of parts.now) }
    ensures { IfOk result (λ new. new ≡ retyped (plain ty.now) (values_of parts.now)) }
{
    match ty {
        WitType::Bool => primitive_as(alloc, ty, Primitive::Bool),
        WitType::S8 => primitive_as(alloc, ty, Primitive::S8),
        WitType::U8 => primitive_as(alloc, ty, Primitive::U8),
        WitType::S16 => primitive_as(alloc, ty, Primitive::S16),
        WitType::U16 => primitive_as(alloc, ty, Primitive::U16),
        WitType::S32 => primitive_as(alloc, ty, Primitive::S32),
        WitType::U32 => primitive_as(alloc, ty, Primitive::U32),
        WitType::S64 => primitive_as(alloc, ty, Primitive::S64),
        WitType::U64 => primitive_as(alloc, ty, Primitive::U64),
        WitType::Char => primitive_as(alloc, ty, Primitive::Char),
        WitType::Str => primitive_as(alloc, ty, Primitive::String),
        WitType::Own(resource) => leaf_as(alloc, ty, Facts::own(*resource)),
        WitType::Borrow(resource) => leaf_as(alloc, ty, Facts::borrow(*resource)),
        WitType::Flags(labels) => leaf_as(alloc, ty, Facts::flags(labels.as_slice())),
        WitType::Enum(labels) => enum_as(alloc, ty, labels.as_slice()),
        WitType::Record(fields) => record_as(alloc, &fields.items, parts),
        WitType::Tuple(types) => tuple_as(alloc, &types.items, parts),
        WitType::Variant(cases) => variant_as(alloc, &cases.items, parts),
        WitType::List(_) => match part_at(parts, 0) {
            Some(part) => list_as(alloc, part),
            None => unreachable!(),
        },
        WitType::Option(_) => match part_at(parts, 1) {
            Some(part) => option_as(alloc, part),
            None => unreachable!(),
        },
        WitType::Result(_, _) => result_as(alloc, part_at(parts, 0), part_at(parts, 1)),
    }
}
