//! Matching of value types over a table: what met once under the pairs of resources so far is not walked again.

ghost use Rattle.std.specs.Prelude.{◌≡◌, Some, IfOk};
ghost use Rattle.wit_types.specs.Plain.{Plain, plain, fields_of, plain_result};
ghost use Rattle.comp_facts.specs.Facts.{IsAnswerOf};
ghost use Rattle.comp_facts.specs.Keys.{key_of, keys_in};
ghost use Rattle.comp_types.specs.Matching.{GoesOn, meet, matched_answer, matched_func, matched_parameters, matched_value};
ghost use Rattle.type_table.specs.Tables.{Has, HasAnswer, HasFunc, HasParts};
ghost use Rattle.type_table.specs.Walked.{Walks, Keeps};

use crate::places::match_parts;
use crate::table::TypeTable;
use crate::walk::Walked;
use comp_facts::Facts;
use comp_types::{KnownFunc, KnownValue, Substitution};
use std::alloc::Global;
use std::marker::Model;
use virt_base::NoMemory;
use wit_types::{Field, WitType};

/// Goes through two types that are found by their keys.
fn match_found(
    types: &TypeTable,
    walked: &mut Walked,
    a: &WitType,
    key: u64,
    b: &WitType,
    other: u64,
) -> Result<bool, NoMemory>
    ensures kept { IfOk result (λ same. Keeps types.now walked.old walked.new same) }
    ensures met { IfOk result (λ same. key ≡ key_of (plain a.now) → other ≡ key_of (plain b.now) → Has types.now (plain a.now) → Has types.now (plain b.now) → Walks types.now walked.old walked.new same (matched_value walked.old.by (plain a.now) (plain b.now))) }
{
    let at = types.place(a, key);
    let to = types.place(b, other);
    let same = match_parts(types, walked, types.len(), Some(a), at, Some(b), to)?;
    Ok(same)
}

/// Goes through parameters in order, whatever their names.
fn match_parameters(
    types: &TypeTable,
    walked: &mut Walked,
    a: &[Field],
    keys: &[u64],
    b: &[Field],
    others: &[u64],
) -> Result<bool, NoMemory>
    requires keys { keys.now ≡ keys_in (fields_of a.now) }
    requires others { others.now ≡ keys_in (fields_of b.now) }
    ensures kept { IfOk result (λ same. Keeps types.now walked.old walked.new same) }
    ensures met { IfOk result (λ same. HasParts types.now (fields_of a.now) → HasParts types.now (fields_of b.now) → Walks types.now walked.old walked.new same (matched_parameters walked.old.by (fields_of a.now) (fields_of b.now))) }
{
    if a.len() != b.len() {
        return Ok(false);
    }
    for i in 0..a.len() {
        if !match_found(types, walked, &a[i].ty, keys[i], &b[i].ty, others[i])? {
            return Ok(false);
        }
    }
    Ok(true)
}

/// The key of an answer's type.
fn answer_key(facts: &Option<Facts>) -> u64
    ensures { (ty : Plain) → IsAnswerOf (Some ty) facts.now → result ≡ key_of ty }
{
    match facts {
        Some(facts) => facts.key,
        None => 0,
    }
}

fn match_answer(
    types: &TypeTable,
    walked: &mut Walked,
    a: &Option<WitType>,
    key: u64,
    b: &Option<WitType>,
    other: u64,
) -> Result<bool, NoMemory>
    requires key { (ty : Plain) → plain_result a.now ≡ Some ty → key ≡ key_of ty }
    requires other { (ty : Plain) → plain_result b.now ≡ Some ty → other ≡ key_of ty }
    ensures kept { IfOk result (λ same. Keeps types.now walked.old walked.new same) }
    ensures met { IfOk result (λ same. HasAnswer types.now (plain_result a.now) → HasAnswer types.now (plain_result b.now) → Walks types.now walked.old walked.new same (matched_answer walked.old.by (plain_result a.now) (plain_result b.now))) }
{
    match (a, b) {
        (None, None) => Ok(true),
        (Some(a), Some(b)) => {
            let same = match_found(types, walked, a, key, b, other)?;
            Ok(same)
        }
        (None, Some(_)) => Ok(false),
        (Some(_), None) => Ok(false),
    }
}

fn match_funcs(
    types: &TypeTable,
    walked: &mut Walked,
    a: &KnownFunc,
    b: &KnownFunc,
) -> Result<bool, NoMemory>
    ensures kept { IfOk result (λ same. Keeps types.now walked.old walked.new same) }
    ensures met { IfOk result (λ same. HasFunc types.now a.now → HasFunc types.now b.now → Walks types.now walked.old walked.new same (matched_func walked.old.by a.now b.now)) }
{
    let first = a.ty();
    let second = b.ty();
    if !match_parameters(
        types,
        walked,
        &first.params.items,
        a.keys(),
        &second.params.items,
        b.keys(),
    )? {
        return Ok(false);
    }
    let key = answer_key(&a.facts().answer);
    let other = answer_key(&b.facts().answer);
    let same = match_answer(types, walked, &first.result, key, &second.result, other)?;
    Ok(same)
}

/// A walk through types over a table, and the pairs of resources that it found so far.
#[derive(Debug, Drop)]
pub struct Matching<'a> {
    types: &'a TypeTable,
    walked: Walked,
}

impl<'a> Model for Matching<'a> {
    ghost use Rattle.type_table.specs.Walked.{Remembers};
    ghost use Rattle.type_table.specs.Walks.{Walk, walk_code};

    ghost Value = { Walk };

    ghost coded = { walk_code };

    ghost view = { λ m. record { types = m.types.now; by = m.walked.by } };

    ghost invariant = { λ m. Remembers m.types.now m.walked };
}

impl<'a> Matching<'a> {
    /// From these pairs on.
    pub fn new(alloc: Global, types: &'a TypeTable, by: Substitution) -> Matching<'a>
        ensures types { result.types ≡ types.now }
        ensures by { result.by ≡ by }
    {
        Matching {
            types,
            walked: Walked::new(alloc, by),
        }
    }

    pub fn table(&self) -> &'a TypeTable
        ensures { result.now ≡ self.now.types }
    {
        self.types
    }

    pub fn pairs(&self) -> &Substitution
        ensures { result.now ≡ self.now.by }
    {
        &self.walked.by
    }

    /// Gives the resource this partner: false exactly where it has another one.
    pub fn meet(&mut self, resource: u32, partner: u32) -> Result<bool, NoMemory>
        ensures met { IfOk result (λ same. GoesOn same self.new.by (meet self.old.by resource partner)) }
        ensures kept { self.new.types ≡ self.old.types }
    {
        let walk = self.walked.by.meet(resource, partner);
        self.walked.settle(walk)
    }

    /// Whether the first type is the second one, with a partner for each resource of it.
    pub fn match_known(&mut self, a: &KnownValue, b: &KnownValue) -> Result<bool, NoMemory>
        ensures met { IfOk result (λ same. Has self.old.types a.now → Has self.old.types b.now → GoesOn same self.new.by (matched_value self.old.by a.now b.now)) }
        ensures kept { self.new.types ≡ self.old.types }
    {
        let walk = match_found(
            self.types,
            &mut self.walked,
            a.ty(),
            a.facts().key,
            b.ty(),
            b.facts().key,
        );
        self.walked.settle(walk)
    }

    /// Whether the first type of a function is the second one but for the names of parameters, with a partner for each resource of it.
    pub fn match_known_func(&mut self, a: &KnownFunc, b: &KnownFunc) -> Result<bool, NoMemory>
        ensures met { IfOk result (λ same. HasFunc self.old.types a.now → HasFunc self.old.types b.now → GoesOn same self.new.by (matched_func self.old.by a.now b.now)) }
        ensures kept { self.new.types ≡ self.old.types }
    {
        let walk = match_funcs(self.types, &mut self.walked, a, b);
        self.walked.settle(walk)
    }
}
