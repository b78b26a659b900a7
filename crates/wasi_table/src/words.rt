//! Types in words. Words are read from the last to the first over a stack of operands, from which a form takes the types that come
//! after it.

#![tactic(auto, using(wit_types::proofs::PlainLemmas::plains, crate::proofs::OperandLemmas::operand_rules))]

ghost use Rattle.std.specs.Prelude.{◌≡◌, ◌∷◌, IfOk, OnOk, option_map, map, take, drop};
ghost use Rattle.std.specs.List.{find};
ghost use Rattle.std.specs.Option.{option_copied};
ghost use Rattle.std.specs.Str.{bytes_eq};
ghost use Rattle.wasi_table.specs.Plain.{plain_known, plain_meaning};
ghost use Rattle.wasi_table.specs.Texts.{words_in};
ghost use Rattle.wasi_table.specs.Before.{types_before, fields_before};
ghost use Rattle.wit_types.specs.Plain.{Parts, plain, payload_of, fields_of};
ghost use Rattle.wasi_table.specs.Words.{apply, borrow_of, first, known_by, list_of, operands, option_of, others, own_of, put, read, result_of, tuple_of, type_in, with_type, types_in};
ghost use Rattle.wit_types.specs.declared.types.Fields.{out-Fields};

use crate::cut::{Rest, next_word};
use crate::forms::{Form, form_of};
use crate::interface::{Known, Meaning};
use std::alloc::Global;
use std::rc::Rc;
use virt_base::{NoMemory, Text};
use wit_types::{Field, Fields, Types, WitType, copy_type};

/// What a word stands for, with the words after it that it takes: none is a payload that is not there.
pub type Operand = Option<Meaning>;

/// Operands, the first of them at the end.
pub type Operands = Vec<Operand>;

fn put_first(stack: &mut Operands, operand: Operand) -> Result<(), NoMemory>
    ensures { OnOk result (operands stack.new.items ≡ option_map plain_meaning operand ∷ operands stack.old.items) }
{
    stack.push(operand)?;
    Ok(())
}

pub fn take_first(stack: &mut Operands) -> Operand
    ensures value { option_map plain_meaning result ≡ first (operands stack.old.items) }
    ensures rest { operands stack.new.items ≡ others (operands stack.old.items) }
{
    match stack.pop() {
        Some(operand) => operand,
        None => None,
    }
}

/// The type that an operand is.
pub fn type_of(operand: Operand) -> Option<WitType>
    ensures { option_map plain result ≡ type_in (option_map plain_meaning operand) }
{
    match operand {
        Some(Meaning::Value(ty)) => Some(ty),
        Some(Meaning::Kind(_)) => None,
        None => None,
    }
}

fn payload_of(alloc: Global, operand: Operand) -> Result<Option<Rc<WitType>>, NoMemory>
    ensures { IfOk result (λ ty. payload_of ty ≡ type_in (option_map plain_meaning operand)) }
{
    match type_of(operand) {
        Some(ty) => Ok(Some(Rc::new(alloc, ty)?)),
        None => Ok(None),
    }
}

fn list_of(alloc: Global, operand: Operand) -> Result<Operand, NoMemory>
    ensures { IfOk result (λ o. option_map plain_meaning o ≡ list_of (option_map plain_meaning operand)) }
{
    match type_of(operand) {
        Some(ty) => Ok(Some(Meaning::Value(WitType::List(Rc::new(alloc, ty)?)))),
        None => Ok(None),
    }
}

fn option_of(alloc: Global, operand: Operand) -> Result<Operand, NoMemory>
    ensures { IfOk result (λ o. option_map plain_meaning o ≡ option_of (option_map plain_meaning operand)) }
{
    match type_of(operand) {
        Some(ty) => Ok(Some(Meaning::Value(WitType::Option(Rc::new(alloc, ty)?)))),
        None => Ok(None),
    }
}

fn result_of(alloc: Global, ok: Operand, error: Operand) -> Result<Operand, NoMemory>
    ensures { IfOk result (λ o. option_map plain_meaning o ≡ result_of (option_map plain_meaning ok) (option_map plain_meaning error)) }
{
    let ok = payload_of(alloc, ok)?;
    let error = payload_of(alloc, error)?;
    Ok(Some(Meaning::Value(WitType::Result(ok, error))))
}

fn own_of(operand: Operand) -> Operand
    ensures { option_map plain_meaning result ≡ own_of (option_map plain_meaning operand) }
{
    match operand {
        Some(Meaning::Kind(kind)) => Some(Meaning::Value(WitType::Own(kind))),
        Some(Meaning::Value(_)) => None,
        None => None,
    }
}

fn borrow_of(operand: Operand) -> Operand
    ensures { option_map plain_meaning result ≡ borrow_of (option_map plain_meaning operand) }
{
    match operand {
        Some(Meaning::Kind(kind)) => Some(Meaning::Value(WitType::Borrow(kind))),
        Some(Meaning::Value(_)) => None,
        None => None,
    }
}

fn push_type(types: &mut Vec<WitType>, ty: Option<WitType>) -> Result<(), NoMemory>
    ensures { OnOk result ((rest : Parts) → types_before types.new.items rest ≡ types_before types.old.items (with_type (option_map plain ty) rest)) }
{
    if let Some(ty) = ty {
        types.push(ty)?;
    }
    Ok(())
}

fn tuple_of(alloc: Global, size: usize, stack: &mut Operands) -> Result<Operand, NoMemory>
    ensures value { IfOk result (λ o. option_map plain_meaning o ≡ tuple_of (take size (operands stack.old.items))) }
    ensures rest { OnOk result (operands stack.new.items ≡ drop size (operands stack.old.items)) }
{
    let mut items = Vec::new(alloc);
    for _ in 0..size {
        push_type(&mut items, type_of(take_first(stack)))?;
    }
    let types = Rc::new(alloc, Types { items })?;
    Ok(Some(Meaning::Value(WitType::Tuple(types))))
}

fn operand_of(alloc: Global, form: Form, stack: &mut Operands) -> Result<Operand, NoMemory>
    ensures { IfOk result (λ o. option_map plain_meaning o ∷ operands stack.new.items ≡ apply form (operands stack.old.items)) }
{
    match form {
        Form::Absent => Ok(None),
        Form::Bool => Ok(Some(Meaning::Value(WitType::Bool))),
        Form::U8 => Ok(Some(Meaning::Value(WitType::U8))),
        Form::U16 => Ok(Some(Meaning::Value(WitType::U16))),
        Form::U32 => Ok(Some(Meaning::Value(WitType::U32))),
        Form::U64 => Ok(Some(Meaning::Value(WitType::U64))),
        Form::Str => Ok(Some(Meaning::Value(WitType::Str))),
        Form::List => list_of(alloc, take_first(stack)),
        Form::Option => option_of(alloc, take_first(stack)),
        Form::Result => {
            let ok = take_first(stack);
            let error = take_first(stack);
            result_of(alloc, ok, error)
        }
        Form::Tuple(size) => tuple_of(alloc, size, stack),
        Form::Own => Ok(own_of(take_first(stack))),
        Form::Borrow => Ok(borrow_of(take_first(stack))),
        Form::Arrow => {
            stack.clear();
            Ok(None)
        }
    }
}

pub fn apply(alloc: Global, form: Form, stack: &mut Operands) -> Result<(), NoMemory>
    ensures { OnOk result (operands stack.new.items ≡ apply form (operands stack.old.items)) }
{
    let operand = operand_of(alloc, form, stack)?;
    put_first(stack, operand)
}

fn found_by<'a>(known: &'a [Known], name: &str) -> Option<&'a Known>
    ensures { option_copied result ≡ find (λ k. bytes_eq k.named.name name.now) known.now }
{
    known.iter().find(|k| k.named.name.as_str() == name)
}

/// The one known by a name.
pub fn known_by<'a>(known: &'a [Known], name: &str) -> Option<&'a Known>
    ensures { option_map (λ k. plain_known k.now) result ≡ known_by name.now (map plain_known known.now) }
{
    found_by(known, name)
}

fn copy_meaning(alloc: Global, meaning: &Meaning) -> Result<Meaning, NoMemory>
    ensures { IfOk result (λ copy. plain_meaning copy ≡ plain_meaning meaning.now) }
{
    match meaning {
        Meaning::Value(ty) => Ok(Meaning::Value(copy_type(alloc, ty)?)),
        Meaning::Kind(kind) => Ok(Meaning::Kind(*kind)),
    }
}

fn named_operand(alloc: Global, known: &[Known], name: &str) -> Result<Operand, NoMemory>
    ensures { IfOk result (λ o. option_map plain_meaning o ≡ option_map (λ k. k.named.meaning) (known_by name.now (map plain_known known.now))) }
{
    match known_by(known, name) {
        Some(known) => Ok(Some(copy_meaning(alloc, &known.named.meaning)?)),
        None => Ok(None),
    }
}

fn put_name(
    alloc: Global,
    known: &[Known],
    name: &str,
    stack: &mut Operands,
) -> Result<(), NoMemory>
    ensures { OnOk result (operands stack.new.items ≡ option_map (λ k. k.named.meaning) (known_by name.now (map plain_known known.now)) ∷ operands stack.old.items) }
{
    let operand = named_operand(alloc, known, name)?;
    put_first(stack, operand)
}

/// Puts a word in front of operands.
pub fn put(alloc: Global, known: &[Known], word: &str, stack: &mut Operands) -> Result<(), NoMemory>
    ensures { OnOk result (operands stack.new.items ≡ put (map plain_known known.now) word.now (operands stack.old.items)) }
{
    match form_of(word) {
        Some(form) => apply(alloc, form, stack),
        None => put_name(alloc, known, word, stack),
    }
}

/// What words stand for.
pub fn read(alloc: Global, known: &[Known], words: Rest) -> Result<Operands, NoMemory>
    ensures { IfOk result (λ os. operands os.items ≡ read (map plain_known known.now) (words_in words.entry)) }
{
    match next_word(words) {
        None => Ok(Vec::new(alloc)),
        Some((word, rest)) => {
            let mut stack = read(alloc, known, rest)?;
            put(alloc, known, word, &mut stack)?;
            Ok(stack)
        }
    }
}

fn push_field(alloc: Global, fields: &mut Vec<Field>, ty: Option<WitType>) -> Result<(), NoMemory>
    ensures { OnOk result ((rest : Parts) → fields_before fields.new.items rest ≡ fields_before fields.old.items (with_type (option_map plain ty) rest)) }
{
    if let Some(ty) = ty {
        let name = Text::from_str(alloc, "")?;
        fields.push(Field { name, ty })?;
    }
    Ok(())
}

/// The types among operands, as parameters without names.
pub fn params_of(alloc: Global, found: Operands) -> Result<Fields, NoMemory>
    ensures { IfOk result (λ params. fields_of (out-Fields params).items.items ≡ types_in (operands found.items)) }
{
    let mut items = Vec::new(alloc);
    let mut stack = found;
    while let Some(operand) = stack.pop() {
        push_field(alloc, &mut items, type_of(operand))?;
    }
    Ok(Fields { items })
}
