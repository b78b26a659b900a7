//! What a segment is made of.

ghost use Rattle.std.specs.Prelude.{◌≡◌, Option, Some, None, List};
ghost use Rattle.std.specs.Option.{option_copied};
ghost use Rattle.core_validate.specs.Items.{table_of, indexes_of, offset_in, exprs_of, memory_of, data_offset};

use wasm_ast::{ConstExpr, Data, Elements};

/// The table that a segment fills.
pub fn table_of(elements: &Elements) -> Option<u32>
    ensures { result ≡ table_of elements.now }
{
    match elements {
        Elements::ActiveFuncs { .. } | Elements::ActiveExprs { .. } => Some(0),
        Elements::ActiveFuncsAt { table, .. } | Elements::ActiveExprsAt { table, .. } => Some(
            *table,
        ),
        Elements::PassiveFuncs { .. }
        | Elements::DeclaredFuncs { .. }
        | Elements::PassiveExprs { .. }
        | Elements::DeclaredExprs { .. } => None,
    }
}

/// The functions of a segment's indexes.
pub fn indexes_of(elements: &Elements) -> &[u32]
    ensures { result.now ≡ indexes_of elements.now }
{
    match elements {
        Elements::ActiveFuncs { funcs, .. }
        | Elements::PassiveFuncs { funcs }
        | Elements::ActiveFuncsAt { funcs, .. }
        | Elements::DeclaredFuncs { funcs } => funcs.as_slice(),
        Elements::ActiveExprs { .. }
        | Elements::PassiveExprs { .. }
        | Elements::ActiveExprsAt { .. }
        | Elements::DeclaredExprs { .. } => &[],
    }
}

/// Where an active segment begins.
pub fn offset_in(elements: &Elements) -> Option<&ConstExpr>
    ensures { option_copied result ≡ offset_in elements.now }
{
    match elements {
        Elements::ActiveFuncs { offset, .. }
        | Elements::ActiveFuncsAt { offset, .. }
        | Elements::ActiveExprs { offset, .. }
        | Elements::ActiveExprsAt { offset, .. } => Some(offset),
        Elements::PassiveFuncs { .. }
        | Elements::DeclaredFuncs { .. }
        | Elements::PassiveExprs { .. }
        | Elements::DeclaredExprs { .. } => None,
    }
}

/// The elements that are expressions.
pub fn exprs_of(elements: &Elements) -> &[ConstExpr]
    ensures { result.now ≡ exprs_of elements.now }
{
    match elements {
        Elements::ActiveExprs { exprs, .. }
        | Elements::PassiveExprs { exprs, .. }
        | Elements::ActiveExprsAt { exprs, .. }
        | Elements::DeclaredExprs { exprs, .. } => exprs.as_slice(),
        Elements::ActiveFuncs { .. }
        | Elements::PassiveFuncs { .. }
        | Elements::ActiveFuncsAt { .. }
        | Elements::DeclaredFuncs { .. } => &[],
    }
}

/// The memory that a segment fills.
pub fn memory_of(segment: &Data) -> Option<u32>
    ensures { result ≡ memory_of segment.now }
{
    match segment {
        Data::Active { .. } => Some(0),
        Data::Passive { .. } => None,
        Data::ActiveAt { memory, .. } => Some(*memory),
    }
}

/// Where an active data segment begins.
pub fn data_offset(segment: &Data) -> Option<&ConstExpr>
    ensures { option_copied result ≡ data_offset segment.now }
{
    match segment {
        Data::Active { offset, .. } | Data::ActiveAt { offset, .. } => Some(offset),
        Data::Passive { .. } => None,
    }
}
