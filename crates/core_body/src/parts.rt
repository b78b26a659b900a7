//! Names for the parts of long lists of operand types, by which slices are found equal in a few steps, however long.

ghost use Rattle.std.specs.Prelude.{◌≡◌, ◌≤◌, ◌+◌, ◌*◌, IfOk, OnOk, IfSome, List, ℕ, map, length, take, drop};
ghost use Rattle.std.specs.Bool.{OnTrue};
ghost use Rattle.wasm_ast.specs.declared.module.CoreFunc.{CoreFunc};
ghost use Rattle.core_body.specs.Numbers.{letter as letter_of};
ghost use Rattle.core_body.specs.Parts.{OneName, IsLevel, AreLevels, Follows, FourNames, Same, LiesAt, Grows, SameTypes, Indexes, IsBehind, place_in};
ghost use Rattle.core_body.specs.Sources.{listed_in};

use crate::numbers::{ListNumbers, letter};
use crate::source::Source;
use std::alloc::Global;
use std::collections::BTreeMap;
use virt_base::{CoreType, NoMemory};
use wasm_ast::CoreFunc;

/// Shorter slices are compared type by type.
pub const LONG: usize = 64;

/// A name for each place of the text: from places of one name on, as many types are the same as the size says.
#[derive(Drop)]
pub struct Level {
    pub size: usize,
    pub names: Vec<u32>,
}

/// Where the lists of a type stand in the text, if they are long.
#[derive(Clone, Copy)]
pub struct Places {
    pub params: Option<usize>,
    pub results: Option<usize>,
}

/// All long lists after one another are the text, of which the levels tell what is the same.
#[derive(Drop)]
pub struct Parts {
    pub places: Vec<Places>,
    pub levels: Vec<Level>,
}

/// Names at four places, each a size after the one before.
#[derive(Clone, Copy)]
struct Quarters<'a> {
    first: &'a [u32],
    second: &'a [u32],
    third: &'a [u32],
    fourth: &'a [u32],
}

fn one_name(xs: &[u32], ys: &[u32], i: usize, j: usize) -> bool
    ensures { OnTrue result (OneName xs.now ys.now i j) }
{
    match xs.get(i) {
        Some(x) => match ys.get(j) {
            Some(y) => *x == *y,
            None => false,
        },
        None => false,
    }
}

/// Whether the four names at a place are those at another.
fn four_names(q: &Quarters<'_>, i: usize, j: usize) -> bool
    ensures { OnTrue result (FourNames q.now.first.now q.now.second.now q.now.third.now q.now.fourth.now i j) }
{
    one_name(q.first, q.first, i, j)
        && one_name(q.second, q.second, i, j)
        && one_name(q.third, q.third, i, j)
        && one_name(q.fourth, q.fourth, i, j)
}

fn name_at(names: &[u32], i: usize) -> u32 {
    match names.get(i) {
        Some(name) => *name,
        None => 0,
    }
}

/// The four names at a place, in one number.
fn key_at(q: &Quarters<'_>, i: usize) -> u128 {
    let high = u128::from(name_at(q.first, i)) << 96 | u128::from(name_at(q.second, i)) << 64;
    let low = u128::from(name_at(q.third, i)) << 32 | u128::from(name_at(q.fourth, i));
    high | low
}

/// Each place with its key, those of one key after one another.
fn sorted_keys(alloc: Global, q: &Quarters<'_>) -> Result<Vec<(u128, u32)>, NoMemory> {
    let mut keyed = Vec::new(alloc);
    for at in 0..q.fourth.len() {
        let Ok(place) = u32::try_from(at) else {
            return Ok(keyed);
        };
        keyed.push((key_at(q, at), place))?;
    }
    keyed.sort_unstable();
    Ok(keyed)
}

/// Of each place the first one with its key.
fn first_places(alloc: Global, q: &Quarters<'_>) -> Result<Vec<u32>, NoMemory> {
    let keyed = sorted_keys(alloc, q)?;
    let mut places = Vec::from_elem(alloc, 0, q.fourth.len())?;
    // No key is so great.
    let mut last = u128::MAX;
    let mut first = 0;
    for (key, place) in keyed.as_slice() {
        if *key != last {
            last = *key;
            first = *place;
        }
        if let Some(slot) = places.get_mut(*place as usize) {
            *slot = first;
        }
    }
    Ok(places)
}

/// Names for parts of four times the size: each is the first place where a part has these four names. It is looked up
/// there once more, so that nothing has to be known of how it was found.
fn four_times(alloc: Global, q: &Quarters<'_>) -> Result<Vec<u32>, NoMemory>
    ensures { IfOk result (λ new. Follows q.now.first.now q.now.second.now q.now.third.now q.now.fourth.now new.items) }
{
    let firsts = first_places(alloc, q)?;
    let mut new = Vec::new(alloc);
    for _ in 0..firsts.len() {
        let here = new.len();
        let place = name_at(firsts.as_slice(), here);
        if !four_names(q, place as usize, here) {
            return Ok(new);
        }
        new.push(place)?;
    }
    Ok(new)
}

/// The names after that many.
fn behind(names: &[u32], count: usize) -> &[u32]
    ensures { result.now ≡ drop count names.now }
{
    if count > names.len() {
        &[]
    } else {
        names.split_at(count).1
    }
}

/// The names of the next level, for parts of four times the size.
fn next_names(alloc: Global, names: &[u32], size: usize) -> Result<Vec<u32>, NoMemory>
    ensures { IfOk result (λ new. (text : List ℕ) → IsLevel text size names.now → IsLevel text (4 * size) new.items) }
{
    let second = behind(names, size);
    let third = behind(second, size);
    let fourth = behind(third, size);
    let quarters = Quarters {
        first: names,
        second,
        third,
        fourth,
    };
    let new = four_times(alloc, &quarters)?;
    Ok(new)
}

/// Keeps a level, if its parts are long.
fn keep(levels: &mut Vec<Level>, size: usize, names: Vec<u32>) -> Result<(), NoMemory>
    ensures { OnOk result ((text : List ℕ) → AreLevels text levels.old.items → IsLevel text size names.items → AreLevels text levels.new.items) }
{
    if size < LONG {
        return Ok(());
    }
    levels.push(Level { size, names })?;
    Ok(())
}

fn four_of(size: usize) -> Option<usize>
    ensures { IfSome result (λ n. n ≡ 4 * size) }
{
    size.checked_mul(4)
}

/// The levels of a text, those of the greatest parts last.
fn levels_of(alloc: Global, text: Vec<u32>) -> Result<Vec<Level>, NoMemory>
    ensures { IfOk result (λ levels. AreLevels text.items levels.items) }
{
    let mut levels = Vec::new(alloc);
    let mut size: usize = 1;
    let mut names = text;
    for _ in 0..32 {
        let Some(greater) = four_of(size) else {
            return Ok(levels);
        };
        if names.is_empty() {
            return Ok(levels);
        }
        let next = next_names(alloc, names.as_slice(), size)?;
        keep(&mut levels, size, names)?;
        names = next;
        size = greater;
    }
    Ok(levels)
}

fn letters(alloc: Global, types: &[CoreType]) -> Result<Vec<u32>, NoMemory>
    ensures { IfOk result (λ word. word.items ≡ map letter_of types.now) }
{
    Ok(types.iter().map(|t| letter(*t) as u32).collect(alloc)?)
}

/// Whether a word stands at a place of the text.
fn stands(text: &[u32], at: usize, word: &[u32]) -> bool
    ensures { OnTrue result (take (length word.now) (drop at text.now) ≡ word.now) }
{
    let there = behind(text, at);
    if word.len() > there.len() {
        return false;
    }
    *there.split_at(word.len()).0 == *word
}

/// Where the text has a word, if one with its number stands somewhere. That is looked at, so that nothing has to be
/// known of the map.
fn known_place(
    text: &[u32],
    firsts: &BTreeMap<usize, usize>,
    number: usize,
    word: &[u32],
) -> Option<usize>
    ensures { IfSome result (λ at. take (length word.now) (drop at text.now) ≡ word.now) }
{
    match firsts.get(&number) {
        Some(at) => if stands(text, *at, word) {
            Some(*at)
        } else {
            None
        },
        None => None,
    }
}

/// Puts a list after the text, if it is long and not there.
fn lay(
    alloc: Global,
    text: &mut Vec<u32>,
    firsts: &mut BTreeMap<usize, usize>,
    number: usize,
    types: &[CoreType],
) -> Result<Option<usize>, NoMemory>
    ensures lies { IfOk result (λ at. LiesAt text.new.items at types.now) }
    ensures grows { OnOk result (Grows text.old.items text.new.items) }
{
    if types.len() < LONG {
        return Ok(None);
    }
    let word = letters(alloc, types)?;
    if let Some(place) = known_place(text.as_slice(), firsts, number, word.as_slice()) {
        return Ok(Some(place));
    }
    let at = text.len();
    firsts.insert(number, at)?;
    text.extend_from_slice(word.as_slice())?;
    Ok(Some(at))
}

fn numbers_at(numbers: &[ListNumbers], i: usize) -> ListNumbers {
    match numbers.get(i) {
        Some(own) => *own,
        None => ListNumbers {
            params: 0,
            results: 0,
        },
    }
}

/// The parts of the types' long lists, of which those of one number are put into the text once.
pub fn parts_of(
    alloc: Global,
    types: &[CoreFunc],
    numbers: &[ListNumbers],
) -> Result<Parts, NoMemory>
    ensures { IfOk result (λ parts. Indexes types.now parts) }
{
    let mut text = Vec::new(alloc);
    let mut firsts = BTreeMap::new(alloc);
    let mut places = Vec::new(alloc);
    for f in types {
        let own = numbers_at(numbers, places.len());
        let params = lay(
            alloc,
            &mut text,
            &mut firsts,
            own.params,
            f.params.as_slice(),
        )?;
        let results = lay(
            alloc,
            &mut text,
            &mut firsts,
            own.results,
            f.results.as_slice(),
        )?;
        places.push(Places { params, results })?;
    }
    let levels = levels_of(alloc, text)?;
    Ok(Parts { places, levels })
}

fn place_of(places: &[Places], source: Source) -> Option<usize>
    ensures { result ≡ place_in places.now source }
{
    match source {
        Source::Nothing | Source::Only(_) => None,
        Source::Params(n) => match places.get(n as usize) {
            Some(of) => of.params,
            None => None,
        },
        Source::Results(n) => match places.get(n as usize) {
            Some(of) => of.results,
            None => None,
        },
    }
}

/// Where the text has what stands at a place of a list.
fn text_at(places: &[Places], source: Source, at: usize) -> Option<usize>
    ensures { IfSome result (λ i. IsBehind (place_in places.now source) at i) }
{
    match place_of(places, source) {
        Some(start) => start.checked_add(at),
        None => None,
    }
}

/// Whether the names of a level tell that so much of the text is the same from two places on.
fn same_from(level: &Level, i: usize, j: usize, len: usize) -> bool
    ensures { OnTrue result ((text : List ℕ) → IsLevel text level.now.size level.now.names.items → Same text i j len) }
{
    if level.size == 0 {
        return false;
    }
    let names = level.names.as_slice();
    let left = behind(names, i);
    let right = behind(names, j);
    let mut done = 0;
    while done < len {
        let at = usize::min(done, len.saturating_sub(level.size));
        if !one_name(left, right, at, at) {
            return false;
        }
        done = at + level.size;
    }
    true
}

/// The same by the greatest parts that are no longer.
fn same_text(levels: &[Level], i: usize, j: usize, len: usize) -> bool
    ensures { OnTrue result ((text : List ℕ) → AreLevels text levels.now → Same text i j len) }
{
    let mut left = levels.len();
    while left > 0 {
        left -= 1;
        let level = &levels[left];
        if level.size <= len {
            return same_from(level, i, j, len);
        }
    }
    false
}

/// Whether two slices of lists are known for equal.
pub fn same_slices(
    parts: &Parts,
    a: Source,
    from_a: usize,
    b: Source,
    from_b: usize,
    len: usize,
) -> bool
    ensures { OnTrue result ((types : List CoreFunc) → Indexes types parts.now → from_a + len ≤ length (listed_in types a) → from_b + len ≤ length (listed_in types b) → SameTypes (listed_in types a) from_a (listed_in types b) from_b len) }
{
    let places = parts.places.as_slice();
    let Some(i) = text_at(places, a, from_a) else {
        return false;
    };
    let Some(j) = text_at(places, b, from_b) else {
        return false;
    };
    same_text(parts.levels.as_slice(), i, j, len)
}
