//! Numbers of lists of operand types, by which two lists are found equal or unlike at once.

ghost use Rattle.std.specs.Prelude.{◌≡◌, IfOk, map, []};
ghost use Rattle.core_body.specs.Numbers.{letter, number_in, number_of, numbered, AreApart, Adds, Distinguish, HaveNumbers};

use crate::source::Source;
use std::alloc::Global;
use std::collections::BTreeMap;
use virt_base::{CoreType, NoMemory};
use wasm_ast::CoreFunc;

/// The numbers of a function type's lists.
#[derive(Clone, Copy)]
pub struct ListNumbers {
    pub params: usize,
    pub results: usize,
}

pub fn letter(t: CoreType) -> u8
    ensures { result ≡ letter t }
{
    match t {
        CoreType::I32 => 0,
        CoreType::I64 => 1,
        CoreType::Funcref => 2,
        CoreType::Externref => 3,
    }
}

fn word_of(alloc: Global, types: &[CoreType]) -> Result<Vec<u8>, NoMemory>
    ensures { IfOk result (λ word. word.items ≡ map letter types.now) }
{
    Ok(types.iter().map(|t| letter(*t)).collect(alloc)?)
}

/// The number of a word, which gets the next one where it is new.
fn number_word(known: &mut BTreeMap<Vec<u8>, usize>, word: Vec<u8>) -> Result<usize, NoMemory>
    requires { AreApart known.old }
    ensures { IfOk result (λ n. Adds known.old known.new (number_of known.new word.items) n) }
{
    match known.get(&word) {
        Some(n) => Ok(*n),
        None => {
            let n = known.len() + 5;
            known.insert(word, n)?;
            Ok(n)
        }
    }
}

/// The number of a list. Those of at most one type have fixed ones.
fn number_list(
    alloc: Global,
    known: &mut BTreeMap<Vec<u8>, usize>,
    types: &[CoreType],
) -> Result<usize, NoMemory>
    requires { AreApart known.old }
    ensures { IfOk result (λ n. Adds known.old known.new (numbered known.new types.now) n) }
{
    match types {
        [] => Ok(0),
        [t] => Ok(letter(*t) as usize + 1),
        _ => number_word(known, word_of(alloc, types)?),
    }
}

/// The numbers of the types' lists.
pub fn number_types(alloc: Global, types: &[CoreFunc]) -> Result<Vec<ListNumbers>, NoMemory>
    ensures { IfOk result (λ numbers. Distinguish types.now numbers.items) }
{
    let mut known = BTreeMap::new(alloc);
    let mut numbers = Vec::new(alloc);
    for f in types {
        let params = number_list(alloc, &mut known, f.params.as_slice())?;
        let results = number_list(alloc, &mut known, f.results.as_slice())?;
        numbers.push(ListNumbers { params, results })?;
    }
    Ok(numbers)
}

/// The number of the list that a name stands for.
pub fn number_of(numbers: &[ListNumbers], source: Source) -> usize
    ensures { result ≡ number_in numbers.now source }
{
    match source {
        Source::Nothing => 0,
        Source::Only(t) => letter(t) as usize + 1,
        Source::Params(n) => match numbers.get(n as usize) {
            Some(of) => of.params,
            None => 0,
        },
        Source::Results(n) => match numbers.get(n as usize) {
            Some(of) => of.results,
            None => 0,
        },
    }
}
