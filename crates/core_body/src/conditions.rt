//! What an instruction has to keep besides the types of its operands: what it names is there, its alignment, its labels, and its place in
//! a body or a constant expression (core WebAssembly, "Validation", "Instructions").

ghost use Rattle.std.specs.Prelude.{◌≡◌, Some, None, Option, slice_get, if◌then◌else◌, map, ◌∷◌, ◌<◌, ◌^◌, ◌+◌};
ghost use Rattle.core_body.specs.Conditions.{lesser, broken, least, op_conditions, block_conditions, conditions, place_conditions, labels_behind, is_constant, Condition, TypeAt, FunctionAt, TableAt, MemoryAt, GlobalAt, LocalAt, LabelAt, Variable, Constant, Aligned, DataAt, ElementAt, Declared, load_width, store_width, is_imported_constant};
ghost use Rattle.core_body.specs.Views.{context_of};
ghost use Rattle.core_body.specs.Groups.{IsOnTable, IsOnMemory};

use crate::spaces::Scope;
use wasm_ast::{BlockType, BranchTable, Instr, LoadOp, Op, StoreOp};

/// The lesser of two rules.
pub fn lesser(a: Option<u32>, b: Option<u32>) -> Option<u32>
    ensures { result ≡ lesser a b }
{
    match (a, b) {
        (Some(a), Some(b)) => Some(a.min(b)),
        (None, b) => b,
        (a, None) => a,
    }
}

/// The rule, unless it is kept.
pub fn unless(kept: bool, rule: u32) -> Option<u32>
    ensures { result ≡ (if kept then None else Some rule) }
{
    if kept { None } else { Some(rule) }
}

/// The size of what a load reads, as an exponent of 2.
fn load_width(load: LoadOp) -> u32
    ensures { result ≡ load_width load }
{
    match load {
        LoadOp::I32Narrow8S | LoadOp::I32Narrow8U | LoadOp::I64Narrow8S | LoadOp::I64Narrow8U => 0,
        LoadOp::I32Narrow16S | LoadOp::I32Narrow16U | LoadOp::I64Narrow16S | LoadOp::I64Narrow16U =>
            1,
        LoadOp::I32 | LoadOp::I64Narrow32S | LoadOp::I64Narrow32U => 2,
        LoadOp::I64 => 3,
    }
}

fn store_width(store: StoreOp) -> u32
    ensures { result ≡ store_width store }
{
    match store {
        StoreOp::I32Narrow8 | StoreOp::I64Narrow8 => 0,
        StoreOp::I32Narrow16 | StoreOp::I64Narrow16 => 1,
        StoreOp::I32 | StoreOp::I64Narrow32 => 2,
        StoreOp::I64 => 3,
    }
}

impl Scope<'_> {
    ghost use Rattle.core_body.specs.Conditions.{broken, TypeAt, FunctionAt, TableAt, MemoryAt, GlobalAt, LocalAt, LabelAt, Variable, Constant, DataAt, ElementAt, Declared, is_imported_constant};
    ghost use Rattle.core_body.specs.Views.{context_of};

    fn has_type(&self, n: u32) -> Option<u32>
        ensures { result ≡ broken (context_of self.now) (TypeAt n) }
    {
        unless((n as usize) < self.spaces.types.len(), 1)
    }

    fn has_function(&self, n: u32) -> Option<u32>
        ensures { result ≡ broken (context_of self.now) (FunctionAt n) }
    {
        unless((n as usize) < self.spaces.functions.len(), 2)
    }

    fn has_table(&self, n: u32) -> Option<u32>
        ensures { result ≡ broken (context_of self.now) (TableAt n) }
    {
        unless((n as usize) < self.spaces.tables.len(), 3)
    }

    fn has_memory(&self) -> Option<u32>
        ensures { result ≡ broken (context_of self.now) (MemoryAt 0) }
    {
        unless(0 < self.spaces.memories, 4)
    }

    fn has_global(&self, n: u32) -> Option<u32>
        ensures { result ≡ broken (context_of self.now) (GlobalAt n) }
    {
        unless((n as usize) < self.spaces.globals.len(), 5)
    }

    fn has_local(&self, n: u32) -> Option<u32>
        ensures { result ≡ broken (context_of self.now) (LocalAt n) }
    {
        unless(self.locals.get(n).is_some(), 6)
    }

    fn is_variable(&self, n: u32) -> Option<u32>
        ensures { result ≡ broken (context_of self.now) (Variable n) }
    {
        match self.spaces.globals.get(n as usize) {
            Some(g) => unless(g.variable, 8),
            None => None,
        }
    }

    fn has_data(&self, n: u32) -> Option<u32>
        ensures { result ≡ broken (context_of self.now) (DataAt n) }
    {
        match self.spaces.data_count {
            Some(count) => unless(n < count, 14),
            None => Some(14),
        }
    }

    fn has_element(&self, n: u32) -> Option<u32>
        ensures { result ≡ broken (context_of self.now) (ElementAt n) }
    {
        unless((n as usize) < self.spaces.elements.len(), 15)
    }

    fn is_declared(&self, n: u32) -> Option<u32>
        ensures { result ≡ broken (context_of self.now) (Declared n) }
    {
        match self.spaces.refs.get(n as usize) {
            Some(declared) => unless(*declared, 16),
            None => Some(16),
        }
    }

    fn is_imported_constant(&self, n: u32) -> bool
        ensures { result ≡ is_imported_constant (context_of self.now) n }
    {
        match self.spaces.globals.get(n as usize) {
            Some(g) => (n as usize) < self.spaces.imported_globals && !g.variable,
            None => false,
        }
    }
}

fn aligned(scope: &Scope<'_>, align: u32, natural: u32) -> Option<u32>
    ensures { result ≡ broken (context_of scope.now) (Aligned align natural) }
{
    let _ = scope;
    unless(align <= natural, 10)
}

fn label(scope: &Scope<'_>, labels: usize, n: u32) -> Option<u32>
    ensures { result ≡ broken (context_of scope.now) (LabelAt labels n) }
{
    let _ = scope;
    unless((n as usize) < labels, 6)
}

fn op_breach(scope: &Scope<'_>, op: Op) -> Option<u32>
    ensures { result ≡ least (context_of scope.now) (op_conditions op) }
{
    match op {
        Op::Nop
        | Op::Drop
        | Op::Select
        | Op::I32Const(_)
        | Op::Numeric(_)
        | Op::RefNull(_)
        | Op::RefIsNull => None,
        Op::LocalGet(n) | Op::LocalSet(n) | Op::LocalTee(n) => scope.has_local(n),
        Op::GlobalGet(n) => scope.has_global(n),
        Op::GlobalSet(n) => lesser(scope.has_global(n), scope.is_variable(n)),
        Op::RefFunc(n) => scope.has_function(n),
        Op::ElemDrop(n) => scope.has_element(n),
        Op::TableGet(_)
        | Op::TableSet(_)
        | Op::TableInit { .. }
        | Op::TableCopy { .. }
        | Op::TableGrow(_)
        | Op::TableSize(_)
        | Op::TableFill(_) => table_breach(scope, op),
        Op::Load(_, _)
        | Op::Store(_, _)
        | Op::MemorySize
        | Op::MemoryGrow
        | Op::MemoryInit(_)
        | Op::DataDrop(_)
        | Op::MemoryCopy
        | Op::MemoryFill => memory_breach(scope, op),
    }
}

fn table_breach(scope: &Scope<'_>, op: Op) -> Option<u32>
    requires { IsOnTable op }
    ensures { result ≡ least (context_of scope.now) (op_conditions op) }
{
    match op {
        Op::TableGet(n)
        | Op::TableSet(n)
        | Op::TableGrow(n)
        | Op::TableSize(n)
        | Op::TableFill(n) => scope.has_table(n),
        Op::TableInit { segment, table } => lesser(
            scope.has_table(table),
            scope.has_element(segment),
        ),
        Op::TableCopy { to, from } => lesser(scope.has_table(to), scope.has_table(from)),
        _ => unreachable!(),
    }
}

fn memory_breach(scope: &Scope<'_>, op: Op) -> Option<u32>
    requires { IsOnMemory op }
    ensures { result ≡ least (context_of scope.now) (op_conditions op) }
{
    match op {
        Op::Load(load, at) => lesser(
            scope.has_memory(),
            aligned(scope, at.align, load_width(load)),
        ),
        Op::Store(store, at) => lesser(
            scope.has_memory(),
            aligned(scope, at.align, store_width(store)),
        ),
        Op::MemorySize | Op::MemoryGrow | Op::MemoryCopy | Op::MemoryFill => scope.has_memory(),
        Op::MemoryInit(n) => lesser(scope.has_memory(), scope.has_data(n)),
        Op::DataDrop(n) => scope.has_data(n),
        _ => unreachable!(),
    }
}

fn block_breach(scope: &Scope<'_>, ty: BlockType) -> Option<u32>
    ensures { result ≡ least (context_of scope.now) (block_conditions ty) }
{
    match ty {
        BlockType::Index(n) => scope.has_type(n),
        BlockType::Empty | BlockType::Value(_) => None,
    }
}

fn each_label(scope: &Scope<'_>, labels: usize, ns: &[u32]) -> Option<u32>
    ensures { result ≡ least (context_of scope.now) (map (LabelAt labels) ns.now) }
{
    for n in ns {
        if *n as usize >= labels {
            return Some(6);
        }
    }
    None
}

fn table_of_labels(scope: &Scope<'_>, labels: usize, table: &BranchTable) -> Option<u32>
    ensures { result ≡ least (context_of scope.now) (map (LabelAt labels) (table.now.default ∷ table.now.labels)) }
{
    lesser(
        label(scope, labels, table.default),
        each_label(scope, labels, table.labels.as_slice()),
    )
}

/// The least rule that an instruction breaks, but for that on operand types, and those of its place.
fn own_breach(scope: &Scope<'_>, labels: usize, instr: &Instr) -> Option<u32>
    ensures { result ≡ least (context_of scope.now) (conditions labels instr.now) }
{
    match instr {
        Instr::Plain(op) => op_breach(scope, *op),
        Instr::Block(ty) | Instr::Loop(ty) | Instr::If(ty) => block_breach(scope, *ty),
        Instr::Br(n) | Instr::BrIf(n) => label(scope, labels, *n),
        Instr::BrTable(table) => table_of_labels(scope, labels, table),
        Instr::Call(n) => scope.has_function(*n),
        Instr::CallIndirect { ty, table } => lesser(scope.has_type(*ty), scope.has_table(*table)),
        Instr::I64Const(_)
        | Instr::SelectTyped(_)
        | Instr::Unreachable
        | Instr::Else
        | Instr::End
        | Instr::Return => None,
    }
}

fn is_constant(scope: &Scope<'_>, instr: &Instr) -> bool
    ensures { result ≡ is_constant (context_of scope.now) instr.now }
{
    match instr {
        Instr::Plain(Op::I32Const(_) | Op::RefNull(_) | Op::RefFunc(_)) => true,
        Instr::Plain(Op::GlobalGet(n)) => scope.is_imported_constant(*n),
        Instr::I64Const(_) | Instr::End => true,
        _ => false,
    }
}

/// The rule that an instruction breaks because it stands in a body, or in a constant expression.
fn place_breach(scope: &Scope<'_>, instr: &Instr) -> Option<u32>
    ensures { result ≡ least (context_of scope.now) (place_conditions scope.now.in_body instr.now) }
{
    if scope.in_body {
        match instr {
            Instr::Plain(Op::RefFunc(n)) => scope.is_declared(*n),
            _ => None,
        }
    } else {
        unless(is_constant(scope, instr), 9)
    }
}

/// The least rule that an instruction breaks, but for that on operand types.
pub fn breach(scope: &Scope<'_>, labels: usize, instr: &Instr) -> Option<u32>
    ensures { result ≡ lesser (least (context_of scope.now) (conditions labels instr.now)) (least (context_of scope.now) (place_conditions scope.now.in_body instr.now)) }
{
    lesser(own_breach(scope, labels, instr), place_breach(scope, instr))
}

/// How many labels there are after an instruction.
pub fn labels_behind(labels: usize, instr: &Instr) -> usize
    requires { labels + 1 < 2 ^ 64 }
    ensures { result ≡ labels_behind labels instr.now }
{
    match instr {
        Instr::Block(_) | Instr::Loop(_) | Instr::If(_) => labels + 1,
        Instr::End => labels.saturating_sub(1),
        _ => labels,
    }
}
