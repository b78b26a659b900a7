//! One step of the pass over code.

ghost use Rattle.std.specs.Prelude.{◌≡◌, ◌≤◌, ◌∷◌, ◌++◌, length, IsTrue, IfOk, List, [], Some, None, OnOk, reverse, false, MatchOption, slice_get, All, if◌then◌else◌, ◌&&◌};
ghost use Rattle.std.specs.Bool.{OnTrue, OnFalse};
ghost use Rattle.std.specs.Option.{option_to_list, option_map};
ghost use Rattle.core_body.specs.Context.{block_type, arrow};
ghost use Rattle.core_body.specs.Shapes.{Missing, AnyOperand, TwoNumbers, OneReference, Fixed, select_shape, indirect_shape};
ghost use Rattle.core_body.specs.Signatures.{taken, shape_at};
ghost use Rattle.core_body.specs.Typing.{operands, label_at as at_label};
ghost use Rattle.core_body.specs.Machine.{pops, State, Running, Finished, Stuck, step, start, next, applied, Goes, Dies, needs_none, same_list, of_shape, of_table, takes_them, each_takes, like, under, all_below};
ghost use Rattle.core_body.specs.Views.{context_of};
ghost use Rattle.core_body.specs.Levels.{results_of, label_of, state_of, Says, level_at, levels_at, other_of, labels_at, params_at, results_at, state_at};
ghost use Rattle.core_body.specs.Sources.{listed, spelled};
ghost use Rattle.core_body.specs.Numbers.{Distinguish};
ghost use Rattle.core_body.specs.Stack.{level_of, below_of};
ghost use Rattle.core_body.specs.Fitting.{row, fits_first, AllFit};
ghost use Rattle.core_body.specs.Groups.{IsOpening};

use crate::levels::{Frame, Kind, Progress, Verdict};
use crate::numbers::{ListNumbers, number_of};
use crate::operand::{Operand, is_number, known_of, reference_of};
use crate::shapes::{Signature, Takes, same_ref, signature_of};
use crate::source::{Named, Source};
use crate::spaces::Scope;
use crate::stack::Stack;
use std::alloc::Global;
use std::collections::BTreeSet;
use virt_base::{CoreType, NoMemory};
use wasm_ast::{BlockType, BranchTable, Instr, Op, RefType};

/// The results of a block's type.
fn block_results(scope: &Scope<'_>, ty: BlockType) -> Source
    ensures { spelled (context_of scope.now) result ≡ results_at (block_type (context_of scope.now) ty) }
{
    let _ = scope;
    match ty {
        BlockType::Empty => Source::Nothing,
        BlockType::Value(t) => Source::Only(t),
        BlockType::Index(n) => Source::Results(n),
    }
}

fn block_params(scope: &Scope<'_>, ty: BlockType) -> Source
    ensures { spelled (context_of scope.now) result ≡ params_at (block_type (context_of scope.now) ty) }
{
    let _ = scope;
    match ty {
        BlockType::Empty | BlockType::Value(_) => Source::Nothing,
        BlockType::Index(n) => Source::Params(n),
    }
}

/// The results of a level.
fn results(scope: &Scope<'_>, kind: Kind) -> Source
    ensures { spelled (context_of scope.now) result ≡ results_of (context_of scope.now) kind }
{
    match kind {
        Kind::Whole => scope.due,
        Kind::Block(ty) | Kind::Loop(ty) | Kind::Then(ty) | Kind::Otherwise(ty) => block_results(
            scope, ty,
        ),
    }
}

/// What a branch to a level takes; none where the level is no target of branches.
fn label(scope: &Scope<'_>, kind: Kind) -> Option<Source>
    ensures { option_map (spelled (context_of scope.now)) result ≡ label_of (context_of scope.now) kind }
{
    match kind {
        Kind::Whole => if scope.in_body { Some(scope.due) } else { None },
        Kind::Loop(ty) => Some(block_params(scope, ty)),
        Kind::Block(ty) | Kind::Then(ty) | Kind::Otherwise(ty) => Some(block_results(scope, ty)),
    }
}

/// An instruction that takes and leaves operands of known types.
fn exchange(
    scope: &Scope<'_>,
    p: &mut Progress,
    takes: Source,
    leaves: Source,
) -> Result<Verdict, NoMemory>
    ensures { IfOk result (λ v. Says v (state_of (context_of scope.now) p.new) (applied (context_of scope.now) (Goes (spelled (context_of scope.now) takes) (spelled (context_of scope.now) leaves)) (state_of (context_of scope.now) p.old))) }
{
    let dead = p.current.dead;
    if p.stack.exchange(scope, dead, takes, leaves)? {
        Ok(Verdict::Goes)
    } else {
        Ok(Verdict::Refused)
    }
}

/// An instruction that takes a number before operands of known types, and leaves such operands.
fn exchange_indexed(
    scope: &Scope<'_>,
    p: &mut Progress,
    takes: Source,
    leaves: Source,
) -> Result<Verdict, NoMemory>
    ensures { IfOk result (λ v. Says v (state_of (context_of scope.now) p.new) (applied (context_of scope.now) (Goes (Operand.Known CoreType.I32 ∷ spelled (context_of scope.now) takes) (spelled (context_of scope.now) leaves)) (state_of (context_of scope.now) p.old))) }
{
    let dead = p.current.dead;
    if p.stack.take(scope, dead, Operand::Known(CoreType::I32)) {
        exchange(scope, p, takes, leaves)
    } else {
        Ok(Verdict::Refused)
    }
}

fn exchange_few(
    scope: &Scope<'_>,
    p: &mut Progress,
    takes: Takes,
    leaves: Option<CoreType>,
) -> Result<Verdict, NoMemory>
    ensures { IfOk result (λ v. Says v (state_of (context_of scope.now) p.new) (applied (context_of scope.now) (Goes (operands (taken takes)) (operands (option_to_list leaves))) (state_of (context_of scope.now) p.old))) }
{
    let dead = p.current.dead;
    if p.stack.take_few(scope, dead, takes) {
        p.stack.push_maybe(scope, leaves)?;
        Ok(Verdict::Goes)
    } else {
        Ok(Verdict::Refused)
    }
}

/// An instruction that takes operands of known types, and never goes on.
fn die(scope: &Scope<'_>, p: &mut Progress, takes: Source) -> Verdict
    ensures { Says result (state_of (context_of scope.now) p.new) (applied (context_of scope.now) (Dies (spelled (context_of scope.now) takes)) (state_of (context_of scope.now) p.old)) }
{
    let dead = p.current.dead;
    if p.stack.take_all(scope, dead, takes) {
        p.stack.clear(scope);
        p.current.dead = true;
        Verdict::Goes
    } else {
        Verdict::Refused
    }
}

fn discard(scope: &Scope<'_>, p: &mut Progress) -> Verdict
    ensures { Says result (state_of (context_of scope.now) p.new) (applied (context_of scope.now) (of_shape (level_of (context_of scope.now) p.old.stack) AnyOperand) (state_of (context_of scope.now) p.old)) }
{
    let dead = p.current.dead;
    if p.stack.discard(scope, dead) {
        Verdict::Goes
    } else {
        Verdict::Refused
    }
}

fn select(scope: &Scope<'_>, p: &mut Progress) -> Result<Verdict, NoMemory>
    ensures { IfOk result (λ v. Says v (state_of (context_of scope.now) p.new) (applied (context_of scope.now) (of_shape (level_of (context_of scope.now) p.old.stack) TwoNumbers) (state_of (context_of scope.now) p.old))) }
{
    let dead = p.current.dead;
    let operand = known_of(p.stack.second(scope), p.stack.third(scope));
    if !is_number(operand) {
        return Ok(Verdict::Refused);
    }
    if p.stack.choose(scope, dead, operand)? {
        Ok(Verdict::Goes)
    } else {
        Ok(Verdict::Refused)
    }
}

fn test_null(scope: &Scope<'_>, p: &mut Progress) -> Result<Verdict, NoMemory>
    ensures { IfOk result (λ v. Says v (state_of (context_of scope.now) p.new) (applied (context_of scope.now) (of_shape (level_of (context_of scope.now) p.old.stack) OneReference) (state_of (context_of scope.now) p.old))) }
{
    match reference_of(p.stack.top(scope)) {
        Some(t) => exchange_few(scope, p, Takes::One(t), Some(CoreType::I32)),
        None => Ok(Verdict::Refused),
    }
}

fn plain(scope: &Scope<'_>, p: &mut Progress, op: Op) -> Result<Verdict, NoMemory>
    ensures { IfOk result (λ v. Says v (state_of (context_of scope.now) p.new) (next (context_of scope.now) (state_of (context_of scope.now) p.old) (Instr.Plain op))) }
{
    match signature_of(scope, op) {
        Signature::Missing => Ok(Verdict::Refused),
        Signature::Fixed(takes, leaves) => exchange_few(scope, p, takes, leaves),
        Signature::AnyOperand => Ok(discard(scope, p)),
        Signature::TwoNumbers => select(scope, p),
        Signature::OneReference => test_null(scope, p),
    }
}

fn typed_select(
    scope: &Scope<'_>,
    p: &mut Progress,
    types: &[CoreType],
) -> Result<Verdict, NoMemory>
    ensures { IfOk result (λ v. Says v (state_of (context_of scope.now) p.new) (applied (context_of scope.now) (of_shape (level_of (context_of scope.now) p.old.stack) (select_shape types.now)) (state_of (context_of scope.now) p.old))) }
{
    match types {
        [t] => exchange_few(scope, p, Takes::Three(*t, *t, CoreType::I32), Some(*t)),
        _ => Ok(Verdict::Refused),
    }
}

fn call(scope: &Scope<'_>, p: &mut Progress, n: u32) -> Result<Verdict, NoMemory>
    ensures { IfOk result (λ v. Says v (state_of (context_of scope.now) p.new) (next (context_of scope.now) (state_of (context_of scope.now) p.old) (Instr.Call n))) }
{
    match scope.function_named(n) {
        Some(f) => exchange(scope, p, f.params, f.results),
        None => Ok(Verdict::Refused),
    }
}

/// The type of the functions that an indirect call can reach, if the call has a type.
fn indirect_type(scope: &Scope<'_>, ty: u32, table: u32) -> Option<Named>
    ensures { MatchOption result (indirect_shape (slice_get scope.now.spaces.tables.now table) (slice_get scope.now.spaces.types.now ty) ≡ Missing) (λ a. indirect_shape (slice_get scope.now.spaces.tables.now table) (slice_get scope.now.spaces.types.now ty) ≡ Fixed (listed (context_of scope.now) a.params ++ CoreType.I32 ∷ []) (listed (context_of scope.now) a.results)) }
{
    let Some(table) = scope.spaces.tables.get(table as usize) else {
        return None;
    };
    let Some(f) = scope.block_named(BlockType::Index(ty)) else {
        return None;
    };
    if same_ref(table.element, RefType::Func) {
        Some(f)
    } else {
        None
    }
}

#[tactic(auto, using(crate::proofs::StackLemmas::operands_indexed))]
fn call_indirect(
    scope: &Scope<'_>,
    p: &mut Progress,
    ty: u32,
    table: u32,
) -> Result<Verdict, NoMemory>
    ensures { IfOk result (λ v. Says v (state_of (context_of scope.now) p.new) (next (context_of scope.now) (state_of (context_of scope.now) p.old) (Instr.CallIndirect ty table))) }
{
    match indirect_type(scope, ty, table) {
        Some(f) => exchange_indexed(scope, p, f.params, f.results),
        None => Ok(Verdict::Refused),
    }
}

fn return_(scope: &Scope<'_>, p: &mut Progress) -> Verdict
    ensures { Says result (state_of (context_of scope.now) p.new) (next (context_of scope.now) (state_of (context_of scope.now) p.old) Instr.Return) }
{
    if scope.in_body {
        die(scope, p, scope.due)
    } else {
        Verdict::Refused
    }
}

/// Opens a block, a loop or an if, whose type is there.
fn enter(scope: &Scope<'_>, p: &mut Progress, kind: Kind, params: Source) -> Result<(), NoMemory>
    ensures { OnOk result (state_of (context_of scope.now) p.new ≡ Running (level_at (context_of scope.now) (record { kind = kind; dead = false; height = 0 }) (spelled (context_of scope.now) params)) (level_at (context_of scope.now) p.old.current (level_of (context_of scope.now) p.old.stack) ∷ levels_at (context_of scope.now) (reverse p.old.outer.items) (below_of p.old.stack))) }
{
    p.outer.push(Frame {
        kind: p.current.kind,
        dead: p.current.dead,
        height: p.stack.height,
    })?;
    p.current = Frame {
        kind,
        dead: false,
        height: 0,
    };
    p.stack.enter(scope);
    p.stack.push_all(scope, params)
}

/// Opens a block, a loop or an if.
fn open(scope: &Scope<'_>, p: &mut Progress, instr: &Instr) -> Result<Verdict, NoMemory>
    requires { IsOpening instr.now }
    ensures { IfOk result (λ v. Says v (state_of (context_of scope.now) p.new) (next (context_of scope.now) (state_of (context_of scope.now) p.old) instr.now)) }
{
    let dead = p.current.dead;
    match instr {
        Instr::Block(ty) => match scope.block_named(*ty) {
            Some(f) if p.stack.take_all(scope, dead, f.params) => {
                enter(scope, p, Kind::Block(*ty), f.params)?;
                Ok(Verdict::Goes)
            }
            _ => Ok(Verdict::Refused),
        },
        Instr::Loop(ty) => match scope.block_named(*ty) {
            Some(f) if p.stack.take_all(scope, dead, f.params) => {
                enter(scope, p, Kind::Loop(*ty), f.params)?;
                Ok(Verdict::Goes)
            }
            _ => Ok(Verdict::Refused),
        },
        Instr::If(ty) => match scope.block_named(*ty) {
            Some(f)
                if p.stack.take(scope, dead, Operand::Known(CoreType::I32))
                    && p.stack.take_all(scope, dead, f.params) => {
                enter(scope, p, Kind::Then(*ty), f.params)?;
                Ok(Verdict::Goes)
            }
            _ => Ok(Verdict::Refused),
        },
        _ => unreachable!(),
    }
}

fn same_operands(scope: &Scope<'_>, a: Source, b: Source) -> bool
    ensures { result ≡ same_list (spelled (context_of scope.now) a) (spelled (context_of scope.now) b) }
{
    scope.same_lists(a, b)
}

/// Whether the level may end without an else.
fn may_end(scope: &Scope<'_>, kind: Kind) -> bool
    ensures { result ≡ needs_none (other_of (context_of scope.now) kind) (results_of (context_of scope.now) kind) }
{
    match kind {
        Kind::Then(ty) => same_operands(scope, block_params(scope, ty), block_results(scope, ty)),
        Kind::Whole | Kind::Block(_) | Kind::Loop(_) | Kind::Otherwise(_) => true,
    }
}

fn end(scope: &Scope<'_>, p: &mut Progress) -> Result<Verdict, NoMemory>
    ensures { IfOk result (λ v. Says v (state_of (context_of scope.now) p.new) (next (context_of scope.now) (state_of (context_of scope.now) p.old) Instr.End)) }
{
    let kind = p.current.kind;
    let dead = p.current.dead;
    let results = results(scope, kind);
    if !p.stack.finish(scope, dead, results) || !may_end(scope, kind) {
        return Ok(Verdict::Refused);
    }
    match p.outer.pop() {
        None => Ok(Verdict::Over),
        Some(frame) => {
            p.stack.leave(scope, frame.height);
            p.current = frame;
            p.stack.push_all(scope, results)?;
            Ok(Verdict::Goes)
        }
    }
}

fn otherwise(scope: &Scope<'_>, p: &mut Progress) -> Result<Verdict, NoMemory>
    ensures { IfOk result (λ v. Says v (state_of (context_of scope.now) p.new) (next (context_of scope.now) (state_of (context_of scope.now) p.old) Instr.Else)) }
{
    let dead = p.current.dead;
    match p.current.kind {
        Kind::Then(ty) => {
            if !p.stack.finish(scope, dead, block_results(scope, ty)) {
                return Ok(Verdict::Refused);
            }
            p.current = Frame {
                kind: Kind::Otherwise(ty),
                dead: false,
                height: 0,
            };
            p.stack.push_all(scope, block_params(scope, ty))?;
            Ok(Verdict::Goes)
        }
        Kind::Whole | Kind::Block(_) | Kind::Loop(_) | Kind::Otherwise(_) => Ok(Verdict::Refused),
    }
}

/// What a branch to the label takes.
fn label_at(scope: &Scope<'_>, p: &Progress, n: u32) -> Option<Source>
    ensures { option_map (spelled (context_of scope.now)) result ≡ at_label (labels_at (context_of scope.now) p.now) n }
{
    let n = n as usize;
    if n == 0 {
        return label(scope, p.current.kind);
    }
    if n > p.outer.len() {
        return None;
    }
    label(scope, p.outer[p.outer.len() - n].kind)
}

fn branch(scope: &Scope<'_>, p: &mut Progress, n: u32) -> Verdict
    ensures { Says result (state_of (context_of scope.now) p.new) (next (context_of scope.now) (state_of (context_of scope.now) p.old) (Instr.Br n)) }
{
    match label_at(scope, p, n) {
        Some(label) => die(scope, p, label),
        None => Verdict::Refused,
    }
}

fn branch_if(scope: &Scope<'_>, p: &mut Progress, n: u32) -> Result<Verdict, NoMemory>
    ensures { IfOk result (λ v. Says v (state_of (context_of scope.now) p.new) (next (context_of scope.now) (state_of (context_of scope.now) p.old) (Instr.BrIf n))) }
{
    match label_at(scope, p, n) {
        Some(label) => exchange_indexed(scope, p, label, label),
        None => Ok(Verdict::Refused),
    }
}

/// Whether the label takes the operands below the top one, as many as the first types, if those fit them. A list of a
/// number that was met needs no second look.
fn label_fits(
    scope: &Scope<'_>,
    p: &Progress,
    first: Source,
    numbers: &[ListNumbers],
    fitting: &mut BTreeSet<usize>,
    n: u32,
) -> Result<bool, NoMemory>
    requires apart { Distinguish scope.now.spaces.types.now numbers.now }
    requires known { AllFit scope.now.spaces.types.now numbers.now (fits_first (context_of scope.now) p.now.stack first) (row (context_of scope.now) p.now.stack first) fitting.old }
    ensures fits { IfOk result (λ fit. (fits_first (context_of scope.now) p.now.stack first && fit) ≡ (fits_first (context_of scope.now) p.now.stack first && takes_them (at_label (labels_at (context_of scope.now) p.now) n) (row (context_of scope.now) p.now.stack first))) }
    ensures known { OnOk result (AllFit scope.now.spaces.types.now numbers.now (fits_first (context_of scope.now) p.now.stack first) (row (context_of scope.now) p.now.stack first) fitting.new) }
{
    let Some(label) = label_at(scope, p, n) else {
        return Ok(false);
    };
    let number = number_of(numbers, label);
    if number == number_of(numbers, first) {
        return Ok(true);
    }
    if fitting.contains(&number) {
        return Ok(true);
    }
    if !p.stack.fits(scope, first, label) {
        return Ok(false);
    }
    fitting.insert(number)?;
    Ok(true)
}

/// Whether each of the labels takes them, if they fit the first types.
fn each_fits(
    scope: &Scope<'_>,
    alloc: Global,
    p: &Progress,
    first: Source,
    labels: &[u32],
) -> Result<bool, NoMemory>
    ensures { IfOk result (λ fit. (fits_first (context_of scope.now) p.now.stack first && fit) ≡ (fits_first (context_of scope.now) p.now.stack first && each_takes (labels_at (context_of scope.now) p.now) (row (context_of scope.now) p.now.stack first) labels.now)) }
{
    let numbers = scope.spaces.types.numbers();
    let mut fitting = BTreeSet::new(alloc);
    for n in labels {
        if !label_fits(scope, p, first, numbers, &mut fitting, *n)? {
            return Ok(false);
        }
    }
    Ok(true)
}

/// A table whose default takes these types: each of its labels has to take them too.
fn branch_like(
    scope: &Scope<'_>,
    alloc: Global,
    p: &mut Progress,
    first: Source,
    table: &BranchTable,
) -> Result<Verdict, NoMemory>
    requires { at_label (labels_at (context_of scope.now) p.old) table.now.default ≡ Some (spelled (context_of scope.now) first) }
    ensures { IfOk result (λ v. Says v (state_of (context_of scope.now) p.new) (applied (context_of scope.now) (of_table (at_label (labels_at (context_of scope.now) p.old) table.now.default) (labels_at (context_of scope.now) p.old) (level_of (context_of scope.now) p.old.stack) (table.now.default ∷ table.now.labels)) (state_of (context_of scope.now) p.old))) }
{
    let dead = p.current.dead;
    if !each_fits(scope, alloc, p, first, table.labels.as_slice())? {
        return Ok(Verdict::Refused);
    }
    if !p.stack.take_indexed(scope, dead, first) {
        return Ok(Verdict::Refused);
    }
    p.stack.clear(scope);
    p.current.dead = true;
    Ok(Verdict::Goes)
}

fn branch_table(
    scope: &Scope<'_>,
    alloc: Global,
    p: &mut Progress,
    table: &BranchTable,
) -> Result<Verdict, NoMemory>
    ensures { IfOk result (λ v. Says v (state_of (context_of scope.now) p.new) (applied (context_of scope.now) (of_table (at_label (labels_at (context_of scope.now) p.old) table.now.default) (labels_at (context_of scope.now) p.old) (level_of (context_of scope.now) p.old.stack) (table.now.default ∷ table.now.labels)) (state_of (context_of scope.now) p.old))) }
{
    match label_at(scope, p, table.default) {
        Some(first) => branch_like(scope, alloc, p, first, table),
        None => Ok(Verdict::Refused),
    }
}

/// What an instruction leads to, from where the pass stands.
fn step(
    scope: &Scope<'_>,
    alloc: Global,
    p: &mut Progress,
    instr: &Instr,
) -> Result<Verdict, NoMemory>
    ensures { IfOk result (λ v. Says v (state_of (context_of scope.now) p.new) (next (context_of scope.now) (state_of (context_of scope.now) p.old) instr.now)) }
{
    match instr {
        Instr::Plain(op) => plain(scope, p, *op),
        Instr::I64Const(_) => exchange_few(scope, p, Takes::Nothing, Some(CoreType::I64)),
        Instr::SelectTyped(types) => typed_select(scope, p, types.get().as_slice()),
        Instr::Unreachable => Ok(die(scope, p, Source::Nothing)),
        Instr::Block(_) | Instr::Loop(_) | Instr::If(_) => open(scope, p, instr),
        Instr::Else => otherwise(scope, p),
        Instr::End => end(scope, p),
        Instr::Br(n) => Ok(branch(scope, p, *n)),
        Instr::BrIf(n) => branch_if(scope, p, *n),
        Instr::BrTable(table) => branch_table(scope, alloc, p, table),
        Instr::Return => Ok(return_(scope, p)),
        Instr::Call(n) => call(scope, p, *n),
        Instr::CallIndirect { ty, table } => call_indirect(scope, p, *ty, *table),
    }
}

/// What an instruction leads to; none goes on after the end, or after one that was refused.
pub fn advance(
    scope: &Scope<'_>,
    alloc: Global,
    p: &mut Progress,
    verdict: Verdict,
    instr: &Instr,
) -> Result<Verdict, NoMemory>
    ensures { IfOk result (λ v. state_at (context_of scope.now) v p.new ≡ next (context_of scope.now) (state_at (context_of scope.now) verdict p.old) instr.now) }
{
    match verdict {
        Verdict::Goes => step(scope, alloc, p, instr),
        Verdict::Over | Verdict::Refused => Ok(Verdict::Refused),
    }
}

/// Where a pass begins.
pub fn begin(scope: &Scope<'_>, alloc: Global) -> Progress
    ensures { state_of (context_of scope.now) result ≡ start (context_of scope.now) }
{
    let _ = scope;
    Progress {
        stack: Stack {
            pieces: Vec::new(alloc),
            height: 0,
        },
        current: Frame {
            kind: Kind::Whole,
            dead: false,
            height: 0,
        },
        outer: Vec::new(alloc),
    }
}
