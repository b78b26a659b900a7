//! The locals that a function of the store declares, kept in runs.

ghost use Rattle.std.specs.Prelude.{◌≡◌, ◌==◌, IfOk, length};
ghost use Rattle.core_store.specs.Locals.{each_local};

use std::alloc::Global;
use std::marker::Model;
use virt_base::NoMemory;
use wasm_ast::LocalRun;

/// The types of a function's locals, which contracts see as a list. They are kept in runs, so that they take no more memory than their declaration.
#[derive(Debug, Drop)]
pub struct Locals {
    runs: Vec<LocalRun>,
    count: usize,
}

impl Model for Locals {
    ghost use Rattle.std.specs.Prelude.{◌≡◌, List, length};
    ghost use Rattle.virt_base.specs.declared.core_type.CoreType.{CoreType};

    ghost Value = { List CoreType };

    ghost use Rattle.core_store.specs.Locals.{each_local};

    ghost view = { λ l. each_local l.runs.items };

    ghost invariant = { λ l. l.count ≡ length (each_local l.runs.items) };
}

impl Locals {
    /// The locals that these runs declare. More than 2^64 of them count as out of memory.
    pub fn new(alloc: Global, runs: &[LocalRun]) -> Result<Locals, NoMemory>
        ensures { IfOk result (λ locals. locals ≡ each_local runs.now) }
    {
        let count = count_of(runs)?;
        let runs = Vec::from_slice(alloc, runs)?;
        Ok(Locals { runs, count })
    }

    /// How many they are.
    #[inline]
    pub fn len(&self) -> usize
        ensures { result ≡ length self.now }
    {
        self.count
    }

    pub fn is_empty(&self) -> bool
        ensures { result ≡ (length self.now == 0) }
    {
        self.count == 0
    }
}

// How many locals the runs declare.
#[tactic(auto, using(crate::proofs::Runs::count_more))]
fn count_of(runs: &[LocalRun]) -> Result<usize, NoMemory>
    ensures { IfOk result (λ count. count ≡ length (each_local runs.now)) }
{
    let mut count: usize = 0;
    for run in runs {
        match count.checked_add(run.count as usize) {
            Some(sum) => count = sum,
            None => return Err(NoMemory),
        }
    }
    Ok(count)
}
