//! The tree of a core module: a list for each section, and the items in them (WebAssembly Core 2.0, section 2.5).

use crate::const_expr::ConstExpr;
use crate::few::Few;
use crate::instr::{Instrs, RefType};
use crate::lean::Lean;
use virt_base::{CoreType, CoreTypes, Items, Text};

/// A function type.
#[derive(Debug, Drop)]
pub struct CoreFunc {
    pub params: CoreTypes,
    pub results: CoreTypes,
}

/// The size of a table or a memory: at least, and at most.
#[derive(Debug, Clone, Copy, PartialEq, Eq)]
pub struct Limits {
    pub min: u32,
    pub max: Option<u32>,
}

/// The type of a table: what it holds, and how many.
#[derive(Debug, Clone, Copy, PartialEq, Eq)]
pub struct TableType {
    pub element: RefType,
    pub limits: Limits,
}

/// The type of a global, which is a variable or a constant.
#[derive(Debug, Clone, Copy, PartialEq, Eq)]
pub struct GlobalType {
    pub value: CoreType,
    pub variable: bool,
}

/// What an import is. A function's type is given by its index.
#[derive(Debug, Clone, Copy, PartialEq, Eq)]
pub enum ImportItem {
    Func(u32),
    Table(TableType),
    Memory(Limits),
    Global(GlobalType),
}

/// An import.
#[derive(Debug, Drop)]
pub struct Import {
    pub module: Text,
    pub name: Text,
    pub item: ImportItem,
}

/// A global and its first value.
#[derive(Debug, Drop)]
pub struct Global {
    pub ty: GlobalType,
    pub init: ConstExpr,
}

/// What an export is, by its index.
#[derive(Debug, Clone, Copy, PartialEq, Eq)]
pub enum ExportItem {
    Func(u32),
    Table(u32),
    Memory(u32),
    Global(u32),
}

/// An export.
#[derive(Debug, Drop)]
pub struct Export {
    pub name: Text,
    pub item: ExportItem,
}

/// Indexes in order.
pub type Indexes = Items<u32>;

/// Expressions in order.
pub type Exprs = Items<ConstExpr>;

/// An element segment, kept as it is spelled: a kind with an index of 0 differs from the kind without the index.
#[derive(Debug, Drop)]
pub enum Elements {
    /// Kind 0: functions for table 0.
    ActiveFuncs {
        offset: ConstExpr,
        funcs: Indexes,
    },
    /// Kind 1.
    PassiveFuncs {
        funcs: Indexes,
    },
    /// Kind 2: functions for the table at an index.
    ActiveFuncsAt {
        table: u32,
        offset: ConstExpr,
        funcs: Indexes,
    },
    /// Kind 3.
    DeclaredFuncs {
        funcs: Indexes,
    },
    /// Kind 4: references to functions for table 0.
    ActiveExprs {
        offset: ConstExpr,
        exprs: Exprs,
    },
    /// Kind 5.
    PassiveExprs {
        ty: RefType,
        exprs: Exprs,
    },
    /// Kind 6: references for the table at an index.
    ActiveExprsAt {
        table: u32,
        offset: ConstExpr,
        ty: RefType,
        exprs: Exprs,
    },
    /// Kind 7.
    DeclaredExprs {
        ty: RefType,
        exprs: Exprs,
    },
}

/// Locals of one type that stand in a row.
#[derive(Debug, Clone, Copy, PartialEq, Eq)]
pub struct LocalRun {
    pub count: u32,
    pub ty: CoreType,
}

/// The body of a function: its locals after the parameters, in runs as they are spelled, and its instructions.
#[derive(Debug, Drop)]
pub struct Body {
    pub locals: Items<LocalRun>,
    pub code: Instrs,
}

/// A data segment, kept as it is spelled.
#[derive(Debug, Drop)]
pub enum Data {
    /// Kind 0: bytes for memory 0.
    Active {
        offset: ConstExpr,
        bytes: Few<u8>,
    },
    /// Kind 1.
    Passive {
        bytes: Few<u8>,
    },
    /// Kind 2: bytes for the memory at an index.
    ActiveAt {
        memory: u32,
        offset: ConstExpr,
        bytes: Few<u8>,
    },
}

/// A core module (WebAssembly Core 2.0, section 2.5): a list for each section. An absent section is an empty list.
#[derive(Debug, Drop)]
pub struct Module {
    pub types: Lean<CoreFunc>,
    pub imports: Lean<Import>,
    pub functions: Lean<u32>,
    pub tables: Lean<TableType>,
    pub memories: Lean<Limits>,
    pub globals: Lean<Global>,
    pub exports: Lean<Export>,
    pub start: Option<u32>,
    pub elements: Lean<Elements>,
    pub data_count: Option<u32>,
    pub code: Lean<Body>,
    pub segments: Lean<Data>,
}
