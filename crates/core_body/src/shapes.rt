//! The types of the instructions that go on to the next (core WebAssembly, "Validation", "Instructions").

ghost use Rattle.std.specs.Prelude.{◌≡◌, ◌∷◌, [], Some, None, Option, MatchOption, slice_get};
ghost use Rattle.core_body.specs.Shapes.{Fixed, Shape, shape, value_of, same_ref, loaded_type, stored_type, of_type, of_numeric, copy_shape, init_shape, global_type, table_type, three};
ghost use Rattle.core_body.specs.Signatures.{shape_at};
ghost use Rattle.core_body.specs.Groups.{IsOnVariable, IsOnTable};
ghost use Rattle.core_body.specs.Views.{context_of};

use crate::spaces::Scope;
use virt_base::CoreType;
use wasm_ast::{LoadOp, Numeric, Op, RefType, StoreOp, numeric_of};

/// What an instruction takes, the last on top.
#[derive(Clone, Copy)]
pub enum Takes {
    Nothing,
    One(CoreType),
    Two(CoreType, CoreType),
    Three(CoreType, CoreType, CoreType),
}

/// The type of an instruction that goes on to the next.
#[derive(Clone, Copy)]
pub enum Signature {
    Missing,
    Fixed(Takes, Option<CoreType>),
    AnyOperand,
    TwoNumbers,
    OneReference,
}

pub fn value_of(t: RefType) -> CoreType
    ensures { result ≡ value_of t }
{
    match t {
        RefType::Func => CoreType::Funcref,
        RefType::Extern => CoreType::Externref,
    }
}

pub fn same_ref(a: RefType, b: RefType) -> bool
    ensures { result ≡ same_ref a b }
{
    match (a, b) {
        (RefType::Func, RefType::Func) | (RefType::Extern, RefType::Extern) => true,
        (RefType::Func, RefType::Extern) | (RefType::Extern, RefType::Func) => false,
    }
}

fn loaded_type(load: LoadOp) -> CoreType
    ensures { result ≡ loaded_type load }
{
    match load {
        LoadOp::I32
        | LoadOp::I32Narrow8S
        | LoadOp::I32Narrow8U
        | LoadOp::I32Narrow16S
        | LoadOp::I32Narrow16U => CoreType::I32,
        LoadOp::I64
        | LoadOp::I64Narrow8S
        | LoadOp::I64Narrow8U
        | LoadOp::I64Narrow16S
        | LoadOp::I64Narrow16U
        | LoadOp::I64Narrow32S
        | LoadOp::I64Narrow32U => CoreType::I64,
    }
}

fn stored_type(store: StoreOp) -> CoreType
    ensures { result ≡ stored_type store }
{
    match store {
        StoreOp::I32 | StoreOp::I32Narrow8 | StoreOp::I32Narrow16 => CoreType::I32,
        StoreOp::I64 | StoreOp::I64Narrow8 | StoreOp::I64Narrow16 | StoreOp::I64Narrow32 =>
            CoreType::I64,
    }
}

fn gives(t: CoreType) -> Signature
    ensures { shape_at result ≡ Fixed [] (t ∷ []) }
{
    Signature::Fixed(Takes::Nothing, Some(t))
}

fn turns(takes: CoreType, leaves: CoreType) -> Signature
    ensures { shape_at result ≡ Fixed (takes ∷ []) (leaves ∷ []) }
{
    Signature::Fixed(Takes::One(takes), Some(leaves))
}

/// A place, a value and a length, or the like.
fn three() -> Signature
    ensures { shape_at result ≡ three }
{
    Signature::Fixed(
        Takes::Three(CoreType::I32, CoreType::I32, CoreType::I32),
        None,
    )
}

fn numeric(n: Option<Numeric>) -> Signature
    ensures { shape_at result ≡ of_numeric n }
{
    match n {
        None => Signature::Missing,
        Some(n) => if n.params == 1 {
            Signature::Fixed(Takes::One(n.from), Some(n.to))
        } else {
            Signature::Fixed(Takes::Two(n.from, n.from), Some(n.to))
        },
    }
}

impl Scope<'_> {
    ghost use Rattle.core_body.specs.Shapes.{global_type, table_type, of_type, copy_shape, init_shape};
    ghost use Rattle.core_body.specs.Views.{context_of};

    fn global(&self, n: u32) -> Option<CoreType>
        ensures { result ≡ global_type (context_of self.now) n }
    {
        match self.spaces.globals.get(n as usize) {
            Some(g) => Some(g.value),
            None => None,
        }
    }

    fn table(&self, n: u32) -> Option<CoreType>
        ensures { result ≡ table_type (context_of self.now) n }
    {
        match self.spaces.tables.get(n as usize) {
            Some(t) => Some(value_of(t.element)),
            None => None,
        }
    }

    fn copies(&self, to: u32, from: u32) -> Signature
        ensures { shape_at result ≡ copy_shape (slice_get self.now.spaces.tables.now to) (slice_get self.now.spaces.tables.now from) }
    {
        let Some(to) = self.spaces.tables.get(to as usize) else {
            return Signature::Missing;
        };
        let Some(from) = self.spaces.tables.get(from as usize) else {
            return Signature::Missing;
        };
        if same_ref(to.element, from.element) {
            three()
        } else {
            Signature::Missing
        }
    }

    fn fills(&self, segment: u32, table: u32) -> Signature
        ensures { shape_at result ≡ init_shape (slice_get self.now.spaces.tables.now table) (slice_get self.now.spaces.elements.now segment) }
    {
        let Some(table) = self.spaces.tables.get(table as usize) else {
            return Signature::Missing;
        };
        let Some(segment) = self.spaces.elements.get(segment as usize) else {
            return three();
        };
        if same_ref(table.element, *segment) {
            three()
        } else {
            Signature::Missing
        }
    }
}

/// The type of an instruction.
pub fn signature_of(scope: &Scope<'_>, op: Op) -> Signature
    ensures { shape_at result ≡ shape (context_of scope.now) op }
{
    use CoreType::{Funcref, I32};
    match op {
        Op::Nop | Op::DataDrop(_) | Op::ElemDrop(_) => Signature::Fixed(Takes::Nothing, None),
        Op::Drop => Signature::AnyOperand,
        Op::Select => Signature::TwoNumbers,
        Op::RefIsNull => Signature::OneReference,
        Op::LocalGet(_) | Op::LocalSet(_) | Op::LocalTee(_) | Op::GlobalGet(_) | Op::GlobalSet(_) =>
            on_variable(scope, op),
        Op::TableGet(_)
        | Op::TableSet(_)
        | Op::TableInit { .. }
        | Op::TableCopy { .. }
        | Op::TableGrow(_)
        | Op::TableSize(_)
        | Op::TableFill(_) => on_table(scope, op),
        Op::Load(load, _) => turns(I32, loaded_type(load)),
        Op::Store(store, _) => Signature::Fixed(Takes::Two(I32, stored_type(store)), None),
        Op::MemorySize | Op::I32Const(_) => gives(I32),
        Op::MemoryGrow => turns(I32, I32),
        Op::Numeric(op) => numeric(numeric_of(op.code())),
        Op::RefNull(t) => gives(value_of(t)),
        Op::RefFunc(_) => gives(Funcref),
        Op::MemoryInit(_) | Op::MemoryCopy | Op::MemoryFill => three(),
    }
}

fn given(t: Option<CoreType>) -> Signature
    ensures { shape_at result ≡ of_type t (λ t. Fixed [] (t ∷ [])) }
{
    match t {
        Some(t) => gives(t),
        None => Signature::Missing,
    }
}

fn set(t: Option<CoreType>) -> Signature
    ensures { shape_at result ≡ of_type t (λ t. Fixed (t ∷ []) []) }
{
    match t {
        Some(t) => Signature::Fixed(Takes::One(t), None),
        None => Signature::Missing,
    }
}

fn teed(t: Option<CoreType>) -> Signature
    ensures { shape_at result ≡ of_type t (λ t. Fixed (t ∷ []) (t ∷ [])) }
{
    match t {
        Some(t) => turns(t, t),
        None => Signature::Missing,
    }
}

fn on_variable(scope: &Scope<'_>, op: Op) -> Signature
    requires { IsOnVariable op }
    ensures { shape_at result ≡ shape (context_of scope.now) op }
{
    match op {
        Op::LocalGet(n) => given(scope.locals.get(n)),
        Op::LocalSet(n) => set(scope.locals.get(n)),
        Op::LocalTee(n) => teed(scope.locals.get(n)),
        Op::GlobalGet(n) => given(scope.global(n)),
        Op::GlobalSet(n) => set(scope.global(n)),
        _ => unreachable!(),
    }
}

fn got_at(t: Option<CoreType>) -> Signature
    ensures { shape_at result ≡ of_type t (λ t. Fixed (CoreType.I32 ∷ []) (t ∷ [])) }
{
    match t {
        Some(t) => turns(CoreType::I32, t),
        None => Signature::Missing,
    }
}

fn set_at(t: Option<CoreType>) -> Signature
    ensures { shape_at result ≡ of_type t (λ t. Fixed (CoreType.I32 ∷ t ∷ []) []) }
{
    match t {
        Some(t) => Signature::Fixed(Takes::Two(CoreType::I32, t), None),
        None => Signature::Missing,
    }
}

fn grown(t: Option<CoreType>) -> Signature
    ensures { shape_at result ≡ of_type t (λ t. Fixed (t ∷ CoreType.I32 ∷ []) (CoreType.I32 ∷ [])) }
{
    match t {
        Some(t) => Signature::Fixed(Takes::Two(t, CoreType::I32), Some(CoreType::I32)),
        None => Signature::Missing,
    }
}

fn sized(t: Option<CoreType>) -> Signature
    ensures { shape_at result ≡ of_type t (λ t. Fixed [] (CoreType.I32 ∷ [])) }
{
    match t {
        Some(_) => gives(CoreType::I32),
        None => Signature::Missing,
    }
}

fn filled(t: Option<CoreType>) -> Signature
    ensures { shape_at result ≡ of_type t (λ t. Fixed (CoreType.I32 ∷ t ∷ CoreType.I32 ∷ []) []) }
{
    match t {
        Some(t) => Signature::Fixed(Takes::Three(CoreType::I32, t, CoreType::I32), None),
        None => Signature::Missing,
    }
}

fn on_table(scope: &Scope<'_>, op: Op) -> Signature
    requires { IsOnTable op }
    ensures { shape_at result ≡ shape (context_of scope.now) op }
{
    match op {
        Op::TableGet(n) => got_at(scope.table(n)),
        Op::TableSet(n) => set_at(scope.table(n)),
        Op::TableGrow(n) => grown(scope.table(n)),
        Op::TableSize(n) => sized(scope.table(n)),
        Op::TableFill(n) => filled(scope.table(n)),
        Op::TableInit { segment, table } => scope.fills(segment, table),
        Op::TableCopy { to, from } => scope.copies(to, from),
        _ => unreachable!(),
    }
}
