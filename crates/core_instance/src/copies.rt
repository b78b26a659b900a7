//! Copies of what a module holds, for the functions of its instance.

ghost use Rattle.std.specs.Prelude.{◌≡◌, [], IfOk};
ghost use Rattle.core_body.specs.Context.{arrow};
ghost use Rattle.core_body.specs.Locals.{spread};

use core_store::{Locals, Shared};
use std::alloc::Global;
use virt_base::{CoreTypes, Items, NoMemory};
use wasm_ast::{Boxed, BranchTable, CoreFunc, Few, Instr, Instrs, Lean, LocalRun};

/// Function types in order, which an instance shares with its functions.
pub type SharedFuncs = Items<Shared<CoreFunc>>;

fn copy_types(alloc: Global, types: &CoreTypes) -> Result<CoreTypes, NoMemory>
    ensures { IfOk result (λ copy. copy ≡ types.now) }
{
    Ok(Items::new(Vec::from_slice(alloc, types.as_slice())?))
}

fn copy_labels(alloc: Global, labels: &Few<u32>) -> Result<Few<u32>, NoMemory>
    ensures { IfOk result (λ copy. copy ≡ labels.now) }
{
    let copy = Items::new(Vec::from_slice(alloc, labels.as_slice())?);
    Few::new(alloc, copy)
}

/// The types of a body's locals.
#[tactic(auto, using(crate::proofs::RunLemmas::spread_is_each))]
pub fn spread(alloc: Global, runs: &[LocalRun]) -> Result<Locals, NoMemory>
    ensures { IfOk result (λ locals. locals ≡ spread runs.now) }
{
    Locals::new(alloc, runs)
}

/// The type that takes and gives nothing, which stands for one that is not there.
pub fn no_func(alloc: Global) -> CoreFunc
    ensures { result ≡ arrow [] [] }
{
    CoreFunc {
        params: Items::empty(alloc),
        results: Items::empty(alloc),
    }
}

/// A copy of a function type.
fn copy_func(alloc: Global, func: &CoreFunc) -> Result<CoreFunc, NoMemory>
    ensures { IfOk result (λ copy. copy ≡ func.now) }
{
    let params = copy_types(alloc, &func.params)?;
    let results = copy_types(alloc, &func.results)?;
    Ok(CoreFunc { params, results })
}

/// Copies of function types, each to be shared.
pub fn share_funcs(alloc: Global, types: &Lean<CoreFunc>) -> Result<SharedFuncs, NoMemory>
    ensures { IfOk result (λ funcs. funcs ≡ types.now) }
{
    let mut list = Vec::with_capacity(alloc, types.len())?;
    for func in types.as_slice() {
        let copy = copy_func(alloc, func)?;
        list.push(Shared::new(alloc, copy)?)?;
    }
    Ok(Items::new(list))
}

fn copy_instr(alloc: Global, instr: &Instr) -> Result<Instr, NoMemory>
    ensures { IfOk result (λ copy. copy ≡ instr.now) }
{
    Ok(match instr {
        Instr::Plain(op) => Instr::Plain(*op),
        Instr::I64Const(n) => Instr::I64Const(*n),
        Instr::SelectTyped(types) => Instr::SelectTyped(types.share()?),
        Instr::BrTable(table) => {
            let labels = copy_labels(alloc, &table.labels)?;
            let default = table.default;
            Instr::BrTable(Boxed::new(alloc, BranchTable { labels, default })?)
        }
        Instr::Unreachable => Instr::Unreachable,
        Instr::Block(ty) => Instr::Block(*ty),
        Instr::Loop(ty) => Instr::Loop(*ty),
        Instr::If(ty) => Instr::If(*ty),
        Instr::Else => Instr::Else,
        Instr::End => Instr::End,
        Instr::Br(label) => Instr::Br(*label),
        Instr::BrIf(label) => Instr::BrIf(*label),
        Instr::Return => Instr::Return,
        Instr::Call(function) => Instr::Call(*function),
        Instr::CallIndirect { ty, table } => Instr::CallIndirect {
            ty: *ty,
            table: *table,
        },
    })
}

/// A copy of code.
pub fn copy_instrs(alloc: Global, instrs: &Instrs) -> Result<Instrs, NoMemory>
    ensures { IfOk result (λ copy. copy ≡ instrs.now) }
{
    let mut list = Vec::with_capacity(alloc, instrs.len())?;
    for instr in instrs.as_slice() {
        list.push(copy_instr(alloc, instr)?)?;
    }
    Ok(Items::new(list))
}
