//! A list of small items that is mostly short. Up to three items stand in the value itself.

ghost use Rattle.std.specs.Prelude.{◌≡◌, IfOk};
ghost use Rattle.wasm_ast.specs.Fews.{few_kept};

use crate::apart::Apart;
use std::alloc::Global;
use std::marker::Model;
use virt_base::{Items, NoMemory};

/// Up to three items take no memory of their own.
#[derive(Debug, Drop)]
enum Kept<T> {
    Empty,
    One([T; 1]),
    Two([T; 2]),
    Three([T; 3]),
    More(Apart<Items<T>>),
}

/// A list of small items that is mostly short, which contracts see as one.
#[derive(Debug, Drop)]
pub struct Few<T> {
    kept: Kept<T>,
}

impl<T> Model for Few<T> {
    ghost use Rattle.std.specs.Prelude.{List};
    ghost use Rattle.wasm_ast.specs.Fews.{few_kept};

    ghost Value = { List T };

    ghost view = { λ f. few_kept f.kept };
}

fn three_or_more<T: Drop>(alloc: Global, items: Vec<T>) -> Result<Kept<T>, NoMemory>
    ensures { IfOk result (λ kept. few_kept kept ≡ items.items) }
{
    match <[T; 3]>::try_from(items) {
        Ok(three) => Ok(Kept::Three(three)),
        Err(items) => Ok(Kept::More(Apart::new(alloc, Items::new(items))?)),
    }
}

fn two_or_more<T: Drop>(alloc: Global, items: Vec<T>) -> Result<Kept<T>, NoMemory>
    ensures { IfOk result (λ kept. few_kept kept ≡ items.items) }
{
    match <[T; 2]>::try_from(items) {
        Ok(two) => Ok(Kept::Two(two)),
        Err(items) => three_or_more(alloc, items),
    }
}

fn one_or_more<T: Drop>(alloc: Global, items: Vec<T>) -> Result<Kept<T>, NoMemory>
    ensures { IfOk result (λ kept. few_kept kept ≡ items.items) }
{
    match <[T; 1]>::try_from(items) {
        Ok(one) => Ok(Kept::One(one)),
        Err(items) => two_or_more(alloc, items),
    }
}

impl<T: Drop> Few<T> {
    /// The list of these items.
    pub fn new(alloc: Global, items: Items<T>) -> Result<Self, NoMemory>
        ensures { IfOk result (λ f. f ≡ items) }
    {
        let kept = match items.as_slice() {
            [] => Kept::Empty,
            _ => one_or_more(alloc, items.into_vec())?,
        };
        Ok(Few { kept })
    }
}

impl<T> Few<T> {
    pub fn as_slice(&self) -> &[T]
        ensures { result.now ≡ self.now }
    {
        match &self.kept {
            Kept::Empty => &[],
            Kept::One(items) => items.as_slice(),
            Kept::Two(items) => items.as_slice(),
            Kept::Three(items) => items.as_slice(),
            Kept::More(items) => items.as_slice(),
        }
    }
}
