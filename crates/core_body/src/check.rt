//! One pass over code, which finds the least rule that it breaks.

ghost use Rattle.std.specs.Prelude.{◌≡◌, ◌++◌, IfOk, Some, None, if◌then◌else◌, nat_le, sum_by, List};
ghost use Rattle.core_body.specs.Faults.{with_types, first_labels, code_fault, body_fault, expression_fault};
ghost use Rattle.core_body.specs.Context.{Context, type_or_empty};
ghost use Rattle.core_body.specs.Sources.{listed_in};
ghost use Rattle.wasm_ast.specs.declared.module.CoreFunc.{CoreFunc};
ghost use Rattle.core_body.specs.Levels.{state_at};
ghost use Rattle.core_body.specs.Machine.{is_finished};
ghost use Rattle.core_body.specs.declared.levels.Progress.{Progress};
ghost use Rattle.core_body.specs.Views.{context_of, context_at};

use crate::conditions::{breach, labels_behind, lesser};
use crate::levels::Verdict;
use crate::locals::Locals;
use crate::source::{Named, Source};
use crate::spaces::{Scope, Spaces};
use crate::step::{advance, begin};
use std::alloc::Global;
use virt_base::{CoreType, NoMemory};
use wasm_ast::{Body, Instr, LocalRun};

fn with_types(rule: Option<u32>, typed: bool) -> Option<u32>
    ensures { result ≡ with_types rule typed }
{
    if typed { rule } else { lesser(rule, Some(7)) }
}

fn first_labels(in_body: bool) -> usize
    ensures { result ≡ first_labels in_body }
{
    if in_body { 1 } else { 0 }
}

fn is_over(verdict: Verdict) -> bool
    ensures { (c : Context) (p : Progress) → result ≡ is_finished (state_at c verdict p) }
{
    match verdict {
        Verdict::Over => true,
        Verdict::Goes | Verdict::Refused => false,
    }
}

fn check_code(alloc: Global, scope: &Scope<'_>, code: &[Instr]) -> Result<Option<u32>, NoMemory>
    ensures { IfOk result (λ rule. rule ≡ code_fault (context_of scope.now) scope.now.in_body code.now) }
{
    let mut p = begin(scope, alloc);
    let mut verdict = Verdict::Goes;
    let mut rule = None;
    let mut labels = first_labels(scope.in_body);
    let _count = code.len();
    for instr in code {
        rule = lesser(rule, breach(scope, labels, instr));
        labels = labels_behind(labels, instr);
        verdict = advance(scope, alloc, &mut p, verdict, instr)?;
    }
    Ok(with_types(rule, is_over(verdict)))
}

/// The rule on the number of declared locals, where there are more than 50,000.
fn few_locals(runs: &[LocalRun]) -> Option<u32>
    ensures { result ≡ (if nat_le (sum_by (λ r. r.count) runs.now) 50000 then None else Some 11) }
{
    let mut left = 50_000;
    for run in runs {
        if run.count > left {
            return Some(11);
        }
        left -= run.count;
    }
    None
}

/// The names of the lists of a body's type, which is that at an index, or takes and leaves nothing.
fn body_named(ty: Option<u32>) -> Named
    ensures params { (types : List CoreFunc) → listed_in types result.params ≡ (type_or_empty types ty).params }
    ensures results { (types : List CoreFunc) → listed_in types result.results ≡ (type_or_empty types ty).results }
{
    match ty {
        Some(n) => Named {
            params: Source::Params(n),
            results: Source::Results(n),
        },
        None => Named {
            params: Source::Nothing,
            results: Source::Nothing,
        },
    }
}

/// The least rule that the body of a function of the type at an index breaks. Where there is no index, or no type at
/// it, the function takes and leaves nothing.
pub fn check_body(
    alloc: Global,
    spaces: &Spaces<'_>,
    ty: Option<u32>,
    body: &Body,
) -> Result<Option<u32>, NoMemory>
    ensures { IfOk result (λ rule. rule ≡ body_fault (context_at spaces.now) (type_or_empty spaces.now.types.now ty).params (type_or_empty spaces.now.types.now ty).results body.now) }
{
    let named = body_named(ty);
    let locals = Locals::new(alloc, spaces.listed(named.params), body.locals.as_slice())?;
    let scope = Scope {
        spaces: *spaces,
        locals,
        in_body: true,
        due: named.results,
    };
    let rule = check_code(alloc, &scope, body.code.as_slice())?;
    Ok(lesser(few_locals(body.locals.as_slice()), rule))
}

/// The least rule that a constant expression breaks, which has to give one value of this type.
pub fn check_expression(
    alloc: Global,
    spaces: &Spaces<'_>,
    due: CoreType,
    code: &[Instr],
) -> Result<Option<u32>, NoMemory>
    ensures { IfOk result (λ rule. rule ≡ expression_fault (context_at spaces.now) due code.now) }
{
    let scope = Scope {
        spaces: *spaces,
        locals: Locals::none(alloc),
        in_body: false,
        due: Source::Only(due),
    };
    check_code(alloc, &scope, code)
}
