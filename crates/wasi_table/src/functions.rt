//! The functions of an interface: their signatures, and the names of methods (Component Model, Explainer.md, "Import and Export
//! Definitions").

#![tactic(auto, using(crate::proofs::FunctionLemmas::function_rules))]

ghost use Rattle.std.specs.Prelude.{◌≡◌, ◌∷◌, [], ◌++◌, IfOk, OnOk, map, option_map};
ghost use Rattle.wit_types.specs.Plain.{plain_func};
ghost use Rattle.wasi_table.specs.Plain.{plain_known, plain_named_func};
ghost use Rattle.wasi_table.specs.Texts.{items_in, lines_in, words_in, words_of};
ghost use Rattle.wasi_table.specs.Words.{name_in, names_in};
ghost use Rattle.wasi_table.specs.Forms.{form_named};
ghost use Rattle.wasi_table.specs.Functions.{behind_arrow, func_of, func_type, functions_in, functions_of, method_in, method_name, method_of, method_type, methods_in};
ghost use Rattle.wasi_table.specs.Items.{plain_item};

use crate::cut::{Rest, next_item, next_line, next_word};
use crate::forms::{Form, form_of};
use crate::interface::{Known, NamedFunc, NamedFuncs};
use crate::items::{Item, item_in};
use crate::types::type_spelled;
use crate::words::{apply, params_of, put, read};
use std::alloc::Global;
use virt_base::{Items, NoMemory, Text};
use wit_types::{FuncType, Labels};

/// What stands after the arrow of a signature.
fn behind_arrow(words: Rest) -> Rest
    ensures { words_in result ≡ behind_arrow (words_in words.entry) }
{
    let mut left = words;
    while let Some((word, rest)) = next_word(left) {
        if word == "->" {
            return rest;
        }
        left = rest;
    }
    None
}

fn push_name(alloc: Global, word: &str, names: &mut Labels) -> Result<(), NoMemory>
    ensures { OnOk result (names.new ≡ names.old ++ name_in (form_named word.now) word.now) }
{
    match form_of(word) {
        Some(_) => Ok(()),
        None => {
            let name = Text::from_str(alloc, word)?;
            names.push(name)
        }
    }
}

/// Adds the names among words.
pub fn push_names(alloc: Global, words: Rest, names: &mut Labels) -> Result<(), NoMemory>
    ensures { OnOk result (names.new ≡ names.old ++ names_in (words_in words.entry)) }
{
    let mut left = words;
    while let Some((word, rest)) = next_word(left) {
        push_name(alloc, word, names)?;
        left = rest;
    }
    Ok(())
}

fn func_type(alloc: Global, known: &[Known], words: Rest) -> Result<FuncType, NoMemory>
    ensures { IfOk result (λ ty. plain_func ty ≡ func_type (map plain_known known.now) (words_in words.entry)) }
{
    let operands = read(alloc, known, words)?;
    let params = params_of(alloc, operands)?;
    let result = type_spelled(alloc, known, behind_arrow(words))?;
    Ok(FuncType { params, result })
}

fn method_type(
    alloc: Global,
    known: &[Known],
    resource: &str,
    words: Rest,
) -> Result<FuncType, NoMemory>
    ensures { IfOk result (λ ty. plain_func ty ≡ method_type (map plain_known known.now) resource.now (words_in words.entry)) }
{
    let mut operands = read(alloc, known, words)?;
    put(alloc, known, resource, &mut operands)?;
    apply(alloc, Form::Borrow, &mut operands)?;
    let params = params_of(alloc, operands)?;
    let result = type_spelled(alloc, known, behind_arrow(words))?;
    Ok(FuncType { params, result })
}

fn func_of(alloc: Global, known: &[Known], name: &str, words: Rest) -> Result<NamedFunc, NoMemory>
    ensures { IfOk result (λ f. plain_named_func f ≡ func_of (map plain_known known.now) name.now (words_in words.entry)) }
{
    let ty = func_type(alloc, known, words)?;
    let mut names = Items::empty(alloc);
    push_names(alloc, words, &mut names)?;
    let name = Text::from_str(alloc, name)?;
    Ok(NamedFunc { name, ty, names })
}

fn method_name(alloc: Global, resource: &str, name: &str) -> Result<Text, NoMemory>
    ensures { IfOk result (λ t. t ≡ method_name resource.now name.now) }
{
    match format!(in alloc; "[method]{resource}.{name}") {
        Ok(chars) => Ok(Text::from_string(chars)),
        Err(_) => Err(NoMemory),
    }
}

fn method_of(
    alloc: Global,
    known: &[Known],
    resource: &str,
    name: &str,
    words: Rest,
) -> Result<NamedFunc, NoMemory>
    ensures { IfOk result (λ f. plain_named_func f ≡ method_of (map plain_known known.now) resource.now name.now (words_in words.entry)) }
{
    let ty = method_type(alloc, known, resource, words)?;
    let mut names = Items::empty(alloc);
    let itself = Text::from_str(alloc, resource)?;
    names.push(itself)?;
    push_names(alloc, words, &mut names)?;
    let name = method_name(alloc, resource, name)?;
    Ok(NamedFunc { name, ty, names })
}

fn push_method(
    alloc: Global,
    known: &[Known],
    resource: &str,
    line: &'static str,
    functions: &mut NamedFuncs,
) -> Result<(), NoMemory>
    ensures { OnOk result (map plain_named_func functions.new ≡ map plain_named_func functions.old ++ method_in (map plain_known known.now) resource.now (words_of line.now)) }
{
    match next_word(Some(line)) {
        None => Ok(()),
        Some((name, words)) => {
            let method = method_of(alloc, known, resource, name, words)?;
            functions.push(method)
        }
    }
}

fn push_methods(
    alloc: Global,
    known: &[Known],
    resource: &str,
    lines: Rest,
    functions: &mut NamedFuncs,
) -> Result<(), NoMemory>
    ensures { OnOk result (map plain_named_func functions.new ≡ map plain_named_func functions.old ++ methods_in (map plain_known known.now) resource.now (lines_in lines.entry)) }
{
    let mut left = lines;
    while let Some((line, rest)) = next_line(left) {
        push_method(alloc, known, resource, line, functions)?;
        left = rest;
    }
    Ok(())
}

fn push_function(
    alloc: Global,
    known: &[Known],
    name: &str,
    words: Rest,
    functions: &mut NamedFuncs,
) -> Result<(), NoMemory>
    ensures { OnOk result (map plain_named_func functions.new ≡ map plain_named_func functions.old ++ func_of (map plain_known known.now) name.now (words_in words.entry) ∷ []) }
{
    let function = func_of(alloc, known, name, words)?;
    functions.push(function)
}

fn push_item(
    alloc: Global,
    known: &[Known],
    item: Option<Item>,
    functions: &mut NamedFuncs,
) -> Result<(), NoMemory>
    ensures { OnOk result (map plain_named_func functions.new ≡ map plain_named_func functions.old ++ functions_of (map plain_known known.now) (option_map plain_item item)) }
{
    match item {
        Some(Item::Use(_)) => Ok(()),
        Some(Item::Alias(_, _)) => Ok(()),
        Some(Item::Record(_, _)) => Ok(()),
        Some(Item::Variant(_, _)) => Ok(()),
        Some(Item::Flags(_, _)) => Ok(()),
        Some(Item::Enum(_, _)) => Ok(()),
        Some(Item::Resource(resource, lines)) => {
            push_methods(alloc, known, resource, lines, functions)
        }
        Some(Item::Function(name, words)) => push_function(alloc, known, name, words, functions),
        None => Ok(()),
    }
}

/// Adds the functions that the items of an interface offer.
pub fn push_functions(
    alloc: Global,
    known: &[Known],
    items: Rest,
    functions: &mut NamedFuncs,
) -> Result<(), NoMemory>
    ensures { OnOk result (map plain_named_func functions.new ≡ map plain_named_func functions.old ++ functions_in (map plain_known known.now) (items_in items.entry)) }
{
    let mut left = items;
    while let Some((item, rest)) = next_item(left) {
        push_item(alloc, known, item_in(item), functions)?;
        left = rest;
    }
    Ok(())
}
