//! The types of a function's locals, kept in runs, since a few bytes may declare 4,294,967,295 locals of one type.

ghost use Rattle.std.specs.Prelude.{◌≡◌, ℕ, IfOk, slice_get, ◌++◌, []};
ghost use Rattle.core_body.specs.Locals.{spread};
ghost use Rattle.core_body.specs.Runs.{IsRising, run_at};

use std::alloc::Global;
use std::marker::Model;
use virt_base::{CoreType, NoMemory};
use wasm_ast::LocalRun;

/// Where a run of locals of one type ends, counted with the parameters.
#[derive(Clone, Copy)]
pub struct RunEnd {
    pub end: u64,
    pub ty: CoreType,
}

/// The types of a function's locals, parameters first: contracts see the list, which is never written out.
#[derive(Drop)]
pub struct Locals<'a> {
    params: &'a [CoreType],
    ends: Vec<RunEnd>,
}

impl<'a> Model for Locals<'a> {
    ghost use Rattle.std.specs.Prelude.{List, ◌++◌, length};
    ghost use Rattle.virt_base.specs.declared.core_type.CoreType.{CoreType};
    ghost use Rattle.core_body.specs.Runs.{fill, IsRising};

    ghost Value = { List CoreType };

    ghost view = { λ l. l.params.now ++ fill (length l.params.now) l.ends.items };

    ghost invariant = { λ l. IsRising (length l.params.now) l.ends.items };
}

/// The type of the run that a local is in.
fn find(ends: &[RunEnd], n: u64) -> Option<CoreType>
    requires { (from : ℕ) × IsRising from ends.now }
    ensures { result ≡ run_at n ends.now }
{
    let mut low = 0;
    let mut high = ends.len();
    while low < high {
        let middle = low + (high - low) / 2;
        if ends[middle].end <= n {
            low = middle + 1;
        } else {
            high = middle;
        }
    }
    if low < ends.len() {
        Some(ends[low].ty)
    } else {
        None
    }
}

impl<'a> Locals<'a> {
    /// The locals of a function with these parameters.
    pub fn new(alloc: Global, params: &'a [CoreType], runs: &[LocalRun]) -> Result<Self, NoMemory>
        ensures { IfOk result (λ l. l ≡ params.now ++ spread runs.now) }
    {
        let mut ends = Vec::new(alloc);
        let mut end = params.len() as u64;
        for run in runs {
            // No memory holds runs enough for more than 2^64 locals.
            end = match end.checked_add(run.count as u64) {
                Some(end) => end,
                None => return Err(NoMemory),
            };
            ends.push(RunEnd { end, ty: run.ty })?;
        }
        Ok(Locals { params, ends })
    }

    /// No locals at all.
    pub fn none(alloc: Global) -> Self
        ensures { result ≡ [] }
    {
        Locals {
            params: &[],
            ends: Vec::new(alloc),
        }
    }

    /// The type of a local.
    pub fn get(&self, n: u32) -> Option<CoreType>
        ensures { result ≡ slice_get self.now n }
    {
        if (n as usize) < self.params.len() {
            return Some(self.params[n as usize]);
        }
        find(&self.ends, n as u64)
    }
}
