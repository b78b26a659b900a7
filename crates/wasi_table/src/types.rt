//! The types that the items of a table define: a type in words, and records, variants, flags, enumerations and resources.

#![tactic(auto, using(wit_types::proofs::PlainLemmas::plains, crate::proofs::ItemLemmas::item_rules, crate::proofs::FunctionLemmas::function_rules))]

ghost use Rattle.std.specs.Prelude.{◌≡◌, ◌++◌, IfOk, OnOk, Some, map, option_map};
ghost use Rattle.wit_types.specs.Plain.{End, Parts, RecordType, VariantType, FlagsType, AsRecord, AsVariant, AsEnum, bare, plain, payload_of, fields_of, cases_of};
ghost use Rattle.wit_types.specs.declared.types.Fields.{out-Fields};
ghost use Rattle.wit_types.specs.declared.types.Cases.{out-Cases};
ghost use Rattle.wasi_table.specs.Plain.{IsType, plain_known, plain_meaning};
ghost use Rattle.wasi_table.specs.Items.{plain_item};
ghost use Rattle.wasi_table.specs.Types.{cases_in, case_in, fields_in, field_in, labelled, alias_of, resource_of, type_spelled, meaning_of};
ghost use Rattle.wasi_table.specs.Texts.{lines_in, words_in, words_of};
ghost use Rattle.wasi_table.specs.Before.{cases_before, fields_before};

use crate::cut::{Rest, next_line, next_word};
use crate::interface::{Known, Meaning};
use crate::items::Item;
use crate::kinds::kind_of;
use crate::words::{read, take_first, type_of};
use std::alloc::Global;
use std::rc::Rc;
use virt_base::{Items, NoMemory, Text};
use wit_types::{Case, Cases, Field, Fields, Labels, WitType};

/// The type that words spell, if they spell one.
pub fn type_spelled(
    alloc: Global,
    known: &[Known],
    words: Rest,
) -> Result<Option<WitType>, NoMemory>
    ensures { IfOk result (λ ty. option_map plain ty ≡ type_spelled (map plain_known known.now) (words_in words.entry)) }
{
    let mut operands = read(alloc, known, words)?;
    Ok(type_of(take_first(&mut operands)))
}

fn payload_spelled(
    alloc: Global,
    known: &[Known],
    words: Rest,
) -> Result<Option<Rc<WitType>>, NoMemory>
    ensures { IfOk result (λ ty. payload_of ty ≡ type_spelled (map plain_known known.now) (words_in words.entry)) }
{
    match type_spelled(alloc, known, words)? {
        Some(ty) => Ok(Some(Rc::new(alloc, ty)?)),
        None => Ok(None),
    }
}

fn push_labelled(
    alloc: Global,
    fields: &mut Vec<Field>,
    label: &str,
    ty: Option<WitType>,
) -> Result<(), NoMemory>
    ensures { OnOk result ((rest : Parts) → fields_before fields.new.items rest ≡ fields_before fields.old.items (labelled label.now (option_map plain ty) rest)) }
{
    if let Some(ty) = ty {
        let name = Text::from_str(alloc, label)?;
        fields.push(Field { name, ty })?;
    }
    Ok(())
}

fn push_field(
    alloc: Global,
    known: &[Known],
    fields: &mut Vec<Field>,
    line: &'static str,
) -> Result<(), NoMemory>
    ensures { OnOk result ((rest : Parts) → fields_before fields.new.items rest ≡ fields_before fields.old.items (field_in (map plain_known known.now) (words_of line.now) rest)) }
{
    match next_word(Some(line)) {
        None => Ok(()),
        Some((label, words)) => {
            let ty = type_spelled(alloc, known, words)?;
            push_labelled(alloc, fields, label, ty)
        }
    }
}

fn push_fields(
    alloc: Global,
    known: &[Known],
    fields: &mut Vec<Field>,
    lines: Rest,
) -> Result<(), NoMemory>
    ensures { OnOk result (fields_before fields.new.items End ≡ fields_before fields.old.items (fields_in (map plain_known known.now) (lines_in lines.entry))) }
{
    match next_line(lines) {
        None => Ok(()),
        Some((line, rest)) => {
            push_field(alloc, known, fields, line)?;
            push_fields(alloc, known, fields, rest)
        }
    }
}

fn fields_in(alloc: Global, known: &[Known], lines: Rest) -> Result<Fields, NoMemory>
    ensures { IfOk result (λ fs. fields_of (out-Fields fs).items.items ≡ fields_in (map plain_known known.now) (lines_in lines.entry)) }
{
    let mut items = Vec::new(alloc);
    push_fields(alloc, known, &mut items, lines)?;
    Ok(Fields { items })
}

fn push_case(
    alloc: Global,
    known: &[Known],
    cases: &mut Vec<Case>,
    line: &'static str,
) -> Result<(), NoMemory>
    ensures { OnOk result ((rest : Parts) → cases_before cases.new.items rest ≡ cases_before cases.old.items (case_in (map plain_known known.now) (words_of line.now) rest)) }
{
    match next_word(Some(line)) {
        None => Ok(()),
        Some((label, words)) => {
            let ty = payload_spelled(alloc, known, words)?;
            let name = Text::from_str(alloc, label)?;
            cases.push(Case { name, ty })?;
            Ok(())
        }
    }
}

fn push_cases(
    alloc: Global,
    known: &[Known],
    cases: &mut Vec<Case>,
    lines: Rest,
) -> Result<(), NoMemory>
    ensures { OnOk result (cases_before cases.new.items End ≡ cases_before cases.old.items (cases_in (map plain_known known.now) (lines_in lines.entry))) }
{
    match next_line(lines) {
        None => Ok(()),
        Some((line, rest)) => {
            push_case(alloc, known, cases, line)?;
            push_cases(alloc, known, cases, rest)
        }
    }
}

fn cases_in(alloc: Global, known: &[Known], lines: Rest) -> Result<Cases, NoMemory>
    ensures { IfOk result (λ cs. cases_of (out-Cases cs).items.items ≡ cases_in (map plain_known known.now) (lines_in lines.entry)) }
{
    let mut items = Vec::new(alloc);
    push_cases(alloc, known, &mut items, lines)?;
    Ok(Cases { items })
}

fn push_labels(alloc: Global, words: Rest, labels: &mut Labels) -> Result<(), NoMemory>
    ensures { OnOk result (labels.new ≡ labels.old ++ words_in words.entry) }
{
    match next_word(words) {
        None => Ok(()),
        Some((word, rest)) => {
            let label = Text::from_str(alloc, word)?;
            labels.push(label)?;
            push_labels(alloc, rest, labels)
        }
    }
}

fn labels_in(alloc: Global, words: Rest) -> Result<Labels, NoMemory>
    ensures { IfOk result (λ labels. labels ≡ words_in words.entry) }
{
    let mut labels = Items::empty(alloc);
    push_labels(alloc, words, &mut labels)?;
    Ok(labels)
}

fn record_of(alloc: Global, known: &[Known], lines: Rest) -> Result<Option<Meaning>, NoMemory>
    ensures { IfOk result (λ m. option_map plain_meaning m ≡ Some (IsType (RecordType AsRecord (fields_in (map plain_known known.now) (lines_in lines.entry))))) }
{
    let fields = Rc::new(alloc, fields_in(alloc, known, lines)?)?;
    Ok(Some(Meaning::Value(WitType::Record(fields))))
}

fn variant_of(alloc: Global, known: &[Known], lines: Rest) -> Result<Option<Meaning>, NoMemory>
    ensures { IfOk result (λ m. option_map plain_meaning m ≡ Some (IsType (VariantType AsVariant (cases_in (map plain_known known.now) (lines_in lines.entry))))) }
{
    let cases = Rc::new(alloc, cases_in(alloc, known, lines)?)?;
    Ok(Some(Meaning::Value(WitType::Variant(cases))))
}

fn flags_of(alloc: Global, words: Rest) -> Result<Option<Meaning>, NoMemory>
    ensures { IfOk result (λ m. option_map plain_meaning m ≡ Some (IsType (FlagsType (words_in words.entry)))) }
{
    let labels = Rc::new(alloc, labels_in(alloc, words)?)?;
    Ok(Some(Meaning::Value(WitType::Flags(labels))))
}

fn enum_of(alloc: Global, words: Rest) -> Result<Option<Meaning>, NoMemory>
    ensures { IfOk result (λ m. option_map plain_meaning m ≡ Some (IsType (VariantType AsEnum (bare (words_in words.entry))))) }
{
    let labels = Rc::new(alloc, labels_in(alloc, words)?)?;
    Ok(Some(Meaning::Value(WitType::Enum(labels))))
}

fn alias_of(alloc: Global, known: &[Known], words: Rest) -> Result<Option<Meaning>, NoMemory>
    ensures { IfOk result (λ m. option_map plain_meaning m ≡ alias_of (type_spelled (map plain_known known.now) (words_in words.entry))) }
{
    match type_spelled(alloc, known, words)? {
        Some(ty) => Ok(Some(Meaning::Value(ty))),
        None => Ok(None),
    }
}

fn resource_of(name: &str) -> Option<Meaning>
    ensures { option_map plain_meaning result ≡ resource_of name.now }
{
    match kind_of(name) {
        Some(kind) => Some(Meaning::Kind(kind)),
        None => None,
    }
}

/// What the name of an item stands for, if it defines a type.
pub fn meaning_of(alloc: Global, known: &[Known], item: Item) -> Result<Option<Meaning>, NoMemory>
    ensures { IfOk result (λ m. option_map plain_meaning m ≡ meaning_of (map plain_known known.now) (plain_item item)) }
{
    match item {
        Item::Use(_) => Ok(None),
        Item::Alias(_, words) => alias_of(alloc, known, words),
        Item::Record(_, lines) => record_of(alloc, known, lines),
        Item::Variant(_, lines) => variant_of(alloc, known, lines),
        Item::Flags(_, words) => flags_of(alloc, words),
        Item::Enum(_, words) => enum_of(alloc, words),
        Item::Resource(name, _) => Ok(resource_of(name)),
        Item::Function(_, _) => Ok(None),
    }
}
