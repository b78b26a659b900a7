//! A walk through two types of a table by the places of their parts.

ghost use Rattle.std.specs.Prelude.{◌≡◌, Some, IfOk, option_map, slice_get};
ghost use Rattle.wit_types.specs.Plain.{Plain, plain};
ghost use Rattle.comp_types.specs.Matching.{matched_answer, matched_value};
ghost use Rattle.type_table.specs.Slots.{slots_of, matched_slots};
ghost use Rattle.type_table.specs.Nodes.{AreBelow, IsBelow};
ghost use Rattle.type_table.specs.Tables.{Types, trees, Leads, AreLinks, IsSound};
ghost use Rattle.type_table.specs.Walked.{Walks, Keeps};

use crate::same::link_at;
use crate::slots::{form_number, same_name, slot_at, slot_count};
use crate::table::{Node, TypeTable};
use crate::walk::Walked;
use comp_types::match_value;
use virt_base::NoMemory;
use wit_types::WitType;

/// Goes through two types as they are written out.
fn match_written(walked: &mut Walked, a: &WitType, b: &WitType) -> Result<bool, NoMemory>
    ensures { (types : Types) → IfOk result (λ same. Walks types walked.old walked.new same (matched_value walked.old.by (plain a.now) (plain b.now))) }
{
    let same = match_value(&mut walked.by, a, b)?;
    Ok(same)
}

/// Goes through the types of two parts: by their places, where both have one.
#[cycle(match_places)]
pub fn match_parts(
    types: &TypeTable,
    walked: &mut Walked,
    below: usize,
    a: Option<&WitType>,
    link: Option<usize>,
    b: Option<&WitType>,
    other: Option<usize>,
) -> Result<bool, NoMemory>
    requires { IsBelow below link }
    ensures kept { IfOk result (λ same. Keeps types.now walked.old walked.new same) }
    ensures met { IfOk result (λ same. IsSound types.now → Leads (trees types.now) link (option_map (λ ty. plain ty.now) a.entry) → Leads (trees types.now) other (option_map (λ ty. plain ty.now) b.entry) → Walks types.now walked.old walked.new same (matched_answer walked.old.by (option_map (λ ty. plain ty.now) a.entry) (option_map (λ ty. plain ty.now) b.entry))) }
{
    match (a, b) {
        (None, None) => Ok(true),
        (Some(a), Some(b)) => {
            let same = match (link, other) {
                (Some(at), Some(other)) => match_places(types, walked, at, other)?,
                (Some(_), None) => match_written(walked, a, b)?,
                (None, Some(_)) => match_written(walked, a, b)?,
                (None, None) => match_written(walked, a, b)?,
            };
            Ok(same)
        }
        (None, Some(_)) => Ok(false),
        (Some(_), None) => Ok(false),
    }
}

/// Goes through the parts of two types of one form.
#[cycle(match_places)]
fn match_slots(
    types: &TypeTable,
    walked: &mut Walked,
    at: usize,
    a: &WitType,
    links: &[Option<usize>],
    b: &WitType,
    others: &[Option<usize>],
) -> Result<bool, NoMemory>
    requires { AreBelow at links.now }
    ensures { IfOk result (λ same. IsSound types.now → AreLinks (trees types.now) links.now (slots_of (plain a.now)) → AreLinks (trees types.now) others.now (slots_of (plain b.now)) → Walks types.now walked.old walked.new same (matched_slots walked.old.by (slots_of (plain a.now)) (slots_of (plain b.now)))) }
{
    let count = slot_count(a);
    if count != slot_count(b) {
        return Ok(false);
    }
    for index in 0..count {
        let Some(x) = slot_at(a, index) else {
            return Ok(false);
        };
        let Some(y) = slot_at(b, index) else {
            return Ok(false);
        };
        if !same_name(x.name, y.name) {
            return Ok(false);
        }
        if !match_parts(
            types,
            walked,
            at,
            x.ty,
            link_at(links, index),
            y.ty,
            link_at(others, index),
        )? {
            return Ok(false);
        }
    }
    Ok(true)
}

/// Goes through two types of the table, the first of which stands after its parts.
#[cycle(match_places)]
fn match_nodes(
    types: &TypeTable,
    walked: &mut Walked,
    at: usize,
    a: &Node,
    b: &Node,
) -> Result<bool, NoMemory>
    requires { AreBelow at a.now.links }
    ensures { IfOk result (λ same. IsSound types.now → AreLinks (trees types.now) a.now.links (slots_of a.now.known.value) → AreLinks (trees types.now) b.now.links (slots_of b.now.known.value) → Walks types.now walked.old walked.new same (matched_value walked.old.by a.now.known.value b.now.known.value)) }
{
    let form = form_number(a.known.ty());
    if form != form_number(b.known.ty()) {
        return Ok(false);
    }
    let same = if form == 0 {
        match_written(walked, a.known.ty(), b.known.ty())?
    } else {
        match_slots(
            types,
            walked,
            at,
            a.known.ty(),
            a.links.as_slice(),
            b.known.ty(),
            b.links.as_slice(),
        )?
    };
    Ok(same)
}

/// Goes through the types at two places, unless they met before.
#[cycle(match_places)]
pub fn match_places(
    types: &TypeTable,
    walked: &mut Walked,
    at: usize,
    other: usize,
) -> Result<bool, NoMemory>
    ensures kept { IfOk result (λ same. Keeps types.now walked.old walked.new same) }
    ensures met { IfOk result (λ same. IsSound types.now → (a b : Plain) → slice_get (trees types.now) at ≡ Some a → slice_get (trees types.now) other ≡ Some b → Walks types.now walked.old walked.new same (matched_value walked.old.by a b)) }
{
    if walked.has_met(at, other) {
        return Ok(true);
    }
    let Some(a) = types.node(at) else {
        return Ok(false);
    };
    let Some(b) = types.node(other) else {
        return Ok(false);
    };
    if at == other && !a.known.facts().handles {
        return Ok(true);
    }
    if !match_nodes(types, walked, at, a, b)? {
        return Ok(false);
    }
    walked.mark(at, other)?;
    Ok(true)
}
