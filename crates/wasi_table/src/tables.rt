//! What a whole table says: the types that its interfaces define, one interface by its number, and the number of a name.

#![tactic(auto, using(crate::proofs::FunctionLemmas::function_rules))]

ghost use Rattle.std.specs.Prelude.{◌≡◌, ◌∷◌, [], ◌++◌, ◌<◌, ◌≤◌, ◌+◌, ◌-◌, ◌^◌, IfOk, OnOk, length, map, drop, option_map, Some};
ghost use Rattle.std.specs.Str.{bytes_eq};
ghost use Rattle.wasi_table.specs.Plain.{plain_interface, plain_known, plain_named};
ghost use Rattle.wasi_table.specs.Texts.{interfaces_in, items_in, items_of, left, lines_in, lines_of, table_of, words_of};
ghost use Rattle.wasi_table.specs.Words.{names_in};
ghost use Rattle.wasi_table.specs.Items.{plain_item};
ghost use Rattle.wasi_table.specs.Types.{declare, declared, behind_first, names_behind, name_of, names_of};
ghost use Rattle.wasi_table.specs.Tables.{declared_all, described, described_at, described_from, first_of_lines, first_word, name_in, numbered, use_of, used_by, uses_in};

use crate::cut::{Rest, next_interface, next_item, next_line, next_word};
use crate::functions::{push_functions, push_names};
use crate::interface::{Interface, Known, NamedType, NamedTypes, Use, Uses};
use crate::items::{Item, item_in};
use crate::types::meaning_of;
use crate::words::known_by;
use std::alloc::Global;
use virt_base::{Items, NoMemory, Text};
use wit_types::Labels;

fn first_word(line: &'static str) -> &'static str
    ensures { result.now ≡ first_word (words_of line.now) }
{
    match next_word(Some(line)) {
        Some((word, _)) => word,
        None => "",
    }
}

fn first_of_lines(item: &'static str) -> &'static str
    ensures { result.now ≡ first_of_lines (lines_of item.now) }
{
    match next_line(Some(item)) {
        Some((line, _)) => first_word(line),
        None => "",
    }
}

/// The name of an interface.
fn name_in(items: &'static str) -> &'static str
    ensures { result.now ≡ name_in (items_of items.now) }
{
    match next_item(Some(items)) {
        Some((item, _)) => first_of_lines(item),
        None => "",
    }
}

fn push_names_in_line(alloc: Global, line: &'static str, names: &mut Labels) -> Result<(), NoMemory>
    ensures { OnOk result (names.new ≡ names.old ++ names_in (behind_first (words_of line.now))) }
{
    match next_word(Some(line)) {
        None => Ok(()),
        Some((_, words)) => push_names(alloc, words, names),
    }
}

fn push_names_behind(alloc: Global, lines: Rest, names: &mut Labels) -> Result<(), NoMemory>
    ensures { OnOk result (names.new ≡ names.old ++ names_behind (lines_in lines.entry)) }
{
    let mut left = lines;
    while let Some((line, rest)) = next_line(left) {
        push_names_in_line(alloc, line, names)?;
        left = rest;
    }
    Ok(())
}

fn names_of(alloc: Global, item: Item) -> Result<Labels, NoMemory>
    ensures { IfOk result (λ names. names ≡ names_of (plain_item item)) }
{
    let mut names = Items::empty(alloc);
    push_names_of(alloc, item, &mut names)?;
    Ok(names)
}

fn push_names_of(alloc: Global, item: Item, names: &mut Labels) -> Result<(), NoMemory>
    ensures { OnOk result (names.new ≡ names.old ++ names_of (plain_item item)) }
{
    match item {
        Item::Use(_) => Ok(()),
        Item::Alias(_, words) => push_names(alloc, words, names),
        Item::Record(_, lines) => push_names_behind(alloc, lines, names),
        Item::Variant(_, lines) => push_names_behind(alloc, lines, names),
        Item::Flags(_, _) => Ok(()),
        Item::Enum(_, _) => Ok(()),
        Item::Resource(_, _) => Ok(()),
        Item::Function(_, _) => Ok(()),
    }
}

fn name_of(item: Item) -> &'static str
    ensures { result.now ≡ name_of (plain_item item) }
{
    match item {
        Item::Use(name) => name,
        Item::Alias(name, _) => name,
        Item::Record(name, _) => name,
        Item::Variant(name, _) => name,
        Item::Flags(name, _) => name,
        Item::Enum(name, _) => name,
        Item::Resource(name, _) => name,
        Item::Function(name, _) => name,
    }
}

fn declare_item(
    alloc: Global,
    number: u32,
    item: Item,
    known: &mut Vec<Known>,
) -> Result<(), NoMemory>
    ensures { OnOk result (map plain_known known.new.items ≡ declare number (map plain_known known.old.items) (Some (plain_item item))) }
{
    match meaning_of(alloc, known, item)? {
        None => Ok(()),
        Some(meaning) => {
            let name = Text::from_str(alloc, name_of(item))?;
            let names = names_of(alloc, item)?;
            known.push(Known {
                interface: number,
                named: NamedType {
                    name,
                    meaning,
                    names,
                },
            })?;
            Ok(())
        }
    }
}

fn declare(
    alloc: Global,
    number: u32,
    item: Option<Item>,
    known: &mut Vec<Known>,
) -> Result<(), NoMemory>
    ensures { OnOk result (map plain_known known.new.items ≡ declare number (map plain_known known.old.items) (option_map plain_item item)) }
{
    match item {
        None => Ok(()),
        Some(item) => declare_item(alloc, number, item, known),
    }
}

fn declare_items(
    alloc: Global,
    number: u32,
    items: Rest,
    known: &mut Vec<Known>,
) -> Result<(), NoMemory>
    ensures { OnOk result (map plain_known known.new.items ≡ declared number (map plain_known known.old.items) (items_in items.entry)) }
{
    let mut left = items;
    while let Some((item, rest)) = next_item(left) {
        declare(alloc, number, item_in(item), known)?;
        left = rest;
    }
    Ok(())
}

fn declare_rest(
    alloc: Global,
    number: u32,
    table: Rest,
    known: &mut Vec<Known>,
) -> Result<(), NoMemory>
    requires { number + left table < 2 ^ 32 }
    ensures { OnOk result (map plain_known known.new.items ≡ declared_all number (map plain_known known.old.items) (interfaces_in table.entry)) }
{
    let mut number = number;
    let mut left = table;
    while let Some((items, rest)) = next_interface(left) {
        declare_items(alloc, number, Some(items), known)?;
        number += 1;
        left = rest;
    }
    Ok(())
}

/// Adds what the interfaces of a table define, which are numbered from this on.
pub fn declare_all(
    alloc: Global,
    first: u32,
    table: &'static str,
    known: &mut Vec<Known>,
) -> Result<(), NoMemory>
    requires { first + length table.now + 1 < 2 ^ 32 }
    ensures { OnOk result (map plain_known known.new.items ≡ declared_all first (map plain_known known.old.items) (table_of table.now)) }
{
    declare_rest(alloc, first, Some(table), known)
}

fn push_use(alloc: Global, known: Option<&Known>, uses: &mut Uses) -> Result<(), NoMemory>
    ensures { OnOk result (uses.new ≡ uses.old ++ use_of (option_map (λ k. plain_known k.now) known.entry)) }
{
    match known {
        None => Ok(()),
        Some(known) => {
            let name = known.named.name.copy(alloc)?;
            uses.push(Use {
                interface: known.interface,
                name,
            })
        }
    }
}

fn push_used(
    alloc: Global,
    known: &[Known],
    item: Option<Item>,
    uses: &mut Uses,
) -> Result<(), NoMemory>
    ensures { OnOk result (uses.new ≡ uses.old ++ used_by (map plain_known known.now) (option_map plain_item item)) }
{
    match item {
        None => Ok(()),
        Some(Item::Use(name)) => push_use(alloc, known_by(known, name), uses),
        Some(Item::Alias(_, _)) => Ok(()),
        Some(Item::Record(_, _)) => Ok(()),
        Some(Item::Variant(_, _)) => Ok(()),
        Some(Item::Flags(_, _)) => Ok(()),
        Some(Item::Enum(_, _)) => Ok(()),
        Some(Item::Resource(_, _)) => Ok(()),
        Some(Item::Function(_, _)) => Ok(()),
    }
}

fn push_uses(alloc: Global, known: &[Known], items: Rest, uses: &mut Uses) -> Result<(), NoMemory>
    ensures { OnOk result (uses.new ≡ uses.old ++ uses_in (map plain_known known.now) (items_in items.entry)) }
{
    let mut left = items;
    while let Some((item, rest)) = next_item(left) {
        push_used(alloc, known, item_in(item), uses)?;
        left = rest;
    }
    Ok(())
}

fn types_from(alloc: Global, known: Vec<Known>) -> Result<NamedTypes, NoMemory>
    ensures { IfOk result (λ types. map plain_named types ≡ map (λ k. k.named) (map plain_known known.items)) }
{
    let mut types = Items::empty(alloc);
    for one in known {
        types.push(one.named)?;
    }
    Ok(types)
}

fn types_behind(alloc: Global, count: usize, known: Vec<Known>) -> Result<NamedTypes, NoMemory>
    ensures { IfOk result (λ types. map plain_named types ≡ map (λ k. k.named) (drop count (map plain_known known.items))) }
{
    let mut known = known;
    if known.len() < count {
        return Ok(Items::empty(alloc));
    }
    let behind = known.split_off(count)?;
    types_from(alloc, behind)
}

fn described_at(
    alloc: Global,
    number: u32,
    items: &'static str,
    before: Vec<Known>,
) -> Result<Interface, NoMemory>
    ensures { IfOk result (λ i. plain_interface i ≡ described_at number (map plain_known before.items) (items_of items.now)) }
{
    let count = before.as_slice().len();
    let mut known = before;
    declare_items(alloc, number, Some(items), &mut known)?;
    let name = Text::from_str(alloc, name_in(items))?;
    let mut uses = Items::empty(alloc);
    push_uses(alloc, &known, Some(items), &mut uses)?;
    let mut functions = Items::empty(alloc);
    push_functions(alloc, &known, Some(items), &mut functions)?;
    let types = types_behind(alloc, count, known)?;
    Ok(Interface {
        name,
        uses,
        types,
        functions,
    })
}

fn described_from(
    alloc: Global,
    number: u32,
    table: Rest,
    left: u32,
    known: Vec<Known>,
) -> Result<Interface, NoMemory>
    requires { left ≤ number }
    ensures { IfOk result (λ i. plain_interface i ≡ described_from number (map plain_known known.items) (interfaces_in table.entry) left) }
{
    match next_interface(table) {
        None => described_at(alloc, number, "", known),
        Some((items, rest)) => {
            if left == 0 {
                return described_at(alloc, number, items, known);
            }
            let mut known = known;
            declare_items(alloc, number - left, Some(items), &mut known)?;
            described_from(alloc, number, rest, left - 1, known)
        }
    }
}

/// The interface with a number in a table whose first has another, where so much is known before.
pub fn describe(
    alloc: Global,
    known: Vec<Known>,
    first: u32,
    table: &'static str,
    number: u32,
) -> Result<Interface, NoMemory>
    requires { first ≤ number }
    ensures { IfOk result (λ i. plain_interface i ≡ described (map plain_known known.items) first (table_of table.now) number) }
{
    described_from(alloc, number, Some(table), number - first, known)
}

fn is_named(items: &'static str, name: &[u8]) -> bool
    ensures { result ≡ bytes_eq (name_in (items_of items.now)) name.now }
{
    name_in(items).as_bytes() == name
}

fn number_in(number: u32, table: Rest, name: &[u8]) -> Option<u32>
    requires { number + left table < 2 ^ 32 }
    ensures { result ≡ numbered number (interfaces_in table.entry) name.now }
{
    let mut number = number;
    let mut left = table;
    while let Some((items, rest)) = next_interface(left) {
        if is_named(items, name) {
            return Some(number);
        }
        number += 1;
        left = rest;
    }
    None
}

/// The number of the first interface with a name, where those of a table are numbered from this on.
pub fn number_named(first: u32, table: &'static str, name: &[u8]) -> Option<u32>
    requires { first + length table.now + 1 < 2 ^ 32 }
    ensures { result ≡ numbered first (table_of table.now) name.now }
{
    number_in(first, Some(table), name)
}
