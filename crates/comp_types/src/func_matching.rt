//! Two types of functions are matched, but for the names of parameters.

#![tactic(auto, using(wit_types::proofs::PlainLemmas::plains, crate::proofs::ValueLemmas::values))]

ghost use Rattle.std.specs.Prelude.{◌≡◌, IfOk};
ghost use Rattle.wit_types.specs.Plain.{fields_of, plain_func, plain_result};
ghost use Rattle.comp_types.specs.Matching.{GoesOn, matched_parameters, matched_answer, matched_func};

use crate::substitution::Substitution;
use crate::value_matching::match_value;
use virt_base::NoMemory;
use wit_types::{Field, FuncType, WitType};

fn match_parameters(by: &mut Substitution, a: &[Field], b: &[Field]) -> Result<bool, NoMemory>
    ensures { IfOk result (λ same. GoesOn same by.new (matched_parameters by.old (fields_of a.now) (fields_of b.now))) }
{
    if a.len() != b.len() {
        return Ok(false);
    }
    for i in 0..a.len() {
        if !match_value(by, &a[i].ty, &b[i].ty)? {
            return Ok(false);
        }
    }
    Ok(true)
}

fn match_answer(
    by: &mut Substitution,
    a: &Option<WitType>,
    b: &Option<WitType>,
) -> Result<bool, NoMemory>
    ensures { IfOk result (λ same. GoesOn same by.new (matched_answer by.old (plain_result a.now) (plain_result b.now))) }
{
    match (a, b) {
        (None, None) => Ok(true),
        (Some(a), Some(b)) => {
            let same = match_value(by, a, b)?;
            Ok(same)
        }
        (None, Some(_)) => Ok(false),
        (Some(_), None) => Ok(false),
    }
}

/// Whether the first type of a function is the second one but for the names of parameters, with a partner for each resource of it.
pub fn match_func(by: &mut Substitution, a: &FuncType, b: &FuncType) -> Result<bool, NoMemory>
    ensures { IfOk result (λ same. GoesOn same by.new (matched_func by.old (plain_func a.now) (plain_func b.now))) }
{
    if !match_parameters(by, &a.params.items, &b.params.items)? {
        return Ok(false);
    }
    let same = match_answer(by, &a.result, &b.result)?;
    Ok(same)
}
