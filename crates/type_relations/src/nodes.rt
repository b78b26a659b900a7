//! Resources of value types in a table. What stands there in many places is searched once in a search.

ghost use Rattle.std.specs.Prelude.{◌≡◌, List, OnOk, Some, option_map, slice_get};
ghost use Rattle.wit_types.specs.Plain.{Plain, plain, plain_func, plain_result, fields_of};
ghost use Rattle.comp_facts.specs.Facts.{IsAnswerOf, IsFuncFactsOf};
ghost use Rattle.comp_types.specs.GivenResources.{named_in_answer, named_in_func, named_in_parts, named_in_value};
ghost use Rattle.comp_facts.specs.Keys.{key_of, keys_in};
ghost use Rattle.type_table.specs.Nodes.{AreBelow, IsBelow, placed};
ghost use Rattle.type_table.specs.Tables.{trees, AreLinks, Has, HasAnswer, HasFunc, HasParts, IsSound, Leads};
ghost use Rattle.type_table.specs.Slots.{slots_of};
ghost use Rattle.type_relations.specs.Searches.{Finds, named_in_slots};

use crate::search::Search;
use crate::values::add_value;
use comp_facts::{Facts, FuncFacts};
use comp_types::{KnownFunc, KnownValue};
use type_table::{Node, TypeTable, form_number, link_at, part_type, slot_count};
use virt_base::NoMemory;
use wit_types::{Field, FuncType, WitType};

/// Adds the resources of a part that is written out.
fn add_written(search: &mut Search, ty: Option<&WitType>) -> Result<(), NoMemory>
    ensures { OnOk result ((tys : List Plain) → Finds tys search.old search.new (named_in_answer (option_map (λ ty. plain ty.now) ty.entry))) }
{
    match ty {
        None => Ok(()),
        Some(ty) => {
            add_value(&mut search.found, ty)?;
            Ok(())
        }
    }
}

/// Adds the resources of a part: of the type at its place, or else of its type written out.
#[cycle(add_node)]
fn add_part(
    types: &TypeTable,
    search: &mut Search,
    below: usize,
    link: Option<usize>,
    ty: Option<&WitType>,
) -> Result<(), NoMemory>
    requires { IsBelow below link }
    ensures { OnOk result (IsSound types.now → Leads (trees types.now) link (option_map (λ ty. plain ty.now) ty.entry) → Finds (trees types.now) search.old search.new (named_in_answer (option_map (λ ty. plain ty.now) ty.entry))) }
{
    match link {
        None => {
            add_written(search, ty)?;
            Ok(())
        }
        Some(at) => {
            add_node(types, search, at)?;
            Ok(())
        }
    }
}

/// Adds the resources of the parts of a type, which stands after them.
#[cycle(add_node)]
fn add_parts(
    types: &TypeTable,
    search: &mut Search,
    at: usize,
    ty: &WitType,
    links: &[Option<usize>],
) -> Result<(), NoMemory>
    requires { AreBelow at links.now }
    ensures { OnOk result (IsSound types.now → AreLinks (trees types.now) links.now (slots_of (plain ty.now)) → Finds (trees types.now) search.old search.new (named_in_slots (slots_of (plain ty.now)))) }
{
    for index in 0..slot_count(ty) {
        add_part(
            types,
            search,
            at,
            link_at(links, index),
            part_type(ty, index),
        )?;
    }
    Ok(())
}

/// Adds the resources of a type of the table; one without parts has them in itself.
#[cycle(add_node)]
fn add_unsearched(
    types: &TypeTable,
    search: &mut Search,
    at: usize,
    node: &Node,
) -> Result<(), NoMemory>
    requires { AreBelow at node.now.links }
    ensures { OnOk result (IsSound types.now → slice_get types.now at ≡ Some (placed node.now) → Finds (trees types.now) search.old search.new (named_in_value node.now.known.value)) }
{
    let ty = node.known.ty();
    if form_number(ty) == 0 {
        add_value(&mut search.found, ty)?;
        return Ok(());
    }
    add_parts(types, search, at, ty, node.links.as_slice())?;
    Ok(())
}

/// Adds the resources of the type at a place, unless it was searched.
#[cycle(add_node)]
fn add_node(types: &TypeTable, search: &mut Search, at: usize) -> Result<(), NoMemory>
    ensures { OnOk result (IsSound types.now → (ty : Plain) → slice_get (trees types.now) at ≡ Some ty → Finds (trees types.now) search.old search.new (named_in_value ty)) }
{
    if search.has_searched(at) {
        return Ok(());
    }
    let Some(node) = types.node(at) else {
        return Ok(());
    };
    add_unsearched(types, search, at, node)?;
    search.mark(at)?;
    Ok(())
}

/// Adds the resources of a type that has this key: of the one that stands under it, or else of the type written out.
fn add_keyed(types: &TypeTable, search: &mut Search, ty: &WitType, key: u64) -> Result<(), NoMemory>
    requires { key ≡ key_of (plain ty.now) }
    ensures { OnOk result (Has types.now (plain ty.now) → Finds (trees types.now) search.old search.new (named_in_value (plain ty.now))) }
{
    match types.place(ty, key) {
        None => {
            add_value(&mut search.found, ty)?;
            Ok(())
        }
        Some(at) => {
            add_node(types, search, at)?;
            Ok(())
        }
    }
}

fn add_params(
    types: &TypeTable,
    search: &mut Search,
    params: &[Field],
    keys: &[u64],
) -> Result<(), NoMemory>
    requires { keys.now ≡ keys_in (fields_of params.now) }
    ensures { OnOk result (HasParts types.now (fields_of params.now) → Finds (trees types.now) search.old search.new (named_in_parts (fields_of params.now))) }
{
    for index in 0..params.len() {
        add_keyed(types, search, &params[index].ty, keys[index])?;
    }
    Ok(())
}

fn add_answered(
    types: &TypeTable,
    search: &mut Search,
    ty: &WitType,
    facts: &Option<Facts>,
) -> Result<(), NoMemory>
    requires { IsAnswerOf (Some (plain ty.now)) facts.now }
    ensures { OnOk result (Has types.now (plain ty.now) → Finds (trees types.now) search.old search.new (named_in_value (plain ty.now))) }
{
    match facts {
        None => Ok(()),
        Some(facts) => {
            add_keyed(types, search, ty, facts.key)?;
            Ok(())
        }
    }
}

fn add_answer(
    types: &TypeTable,
    search: &mut Search,
    ty: &Option<WitType>,
    facts: &Option<Facts>,
) -> Result<(), NoMemory>
    requires { IsAnswerOf (plain_result ty.now) facts.now }
    ensures { OnOk result (HasAnswer types.now (plain_result ty.now) → Finds (trees types.now) search.old search.new (named_in_answer (plain_result ty.now))) }
{
    match ty {
        None => Ok(()),
        Some(ty) => {
            add_answered(types, search, ty, facts)?;
            Ok(())
        }
    }
}

fn add_func(
    types: &TypeTable,
    search: &mut Search,
    ty: &FuncType,
    keys: &[u64],
    facts: &FuncFacts,
) -> Result<(), NoMemory>
    requires keys { keys.now ≡ keys_in (plain_func ty.now).params }
    requires facts { IsFuncFactsOf (plain_func ty.now) facts.now }
    ensures { OnOk result (HasFunc types.now (plain_func ty.now) → Finds (trees types.now) search.old search.new (named_in_func (plain_func ty.now))) }
{
    add_params(types, search, ty.params.items.as_slice(), keys)?;
    add_answer(types, search, &ty.result, &facts.answer)?;
    Ok(())
}

/// Adds the resources of the handles in a type; one without handles is not searched.
pub fn add_known_value(
    types: &TypeTable,
    search: &mut Search,
    known: &KnownValue,
) -> Result<(), NoMemory>
    ensures { OnOk result (Has types.now known.now → Finds (trees types.now) search.old search.new (named_in_value known.now)) }
{
    let facts = known.facts();
    if !facts.handles {
        return Ok(());
    }
    add_keyed(types, search, known.ty(), facts.key)?;
    Ok(())
}

/// Adds the resources of the handles in the type of a function; one without handles is not searched.
pub fn add_known_func(
    types: &TypeTable,
    search: &mut Search,
    known: &KnownFunc,
) -> Result<(), NoMemory>
    ensures { OnOk result (HasFunc types.now known.now → Finds (trees types.now) search.old search.new (named_in_func known.now)) }
{
    let facts = known.facts();
    if !facts.has_handle() {
        return Ok(());
    }
    add_func(types, search, known.ty(), known.keys(), facts)?;
    Ok(())
}
