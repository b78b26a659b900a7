//! The trees of core modules and components, as their binary formats have them.
#![tactic(auto)]

mod apart;
mod bare;
mod boxed;
mod component;
mod const_expr;
mod copies;
mod few;
mod instr;
mod joined_labels;
mod kept_type;
mod lean;
mod maybe_type;
mod module;
mod numeric;
mod section;
mod select_types;
mod shared;

pub use apart::Apart;
pub use boxed::Boxed;
pub use component::{
    Alias, Canon, CanonOption, CaseType, Component, ComponentExport, ComponentImport, CoreArg,
    CoreExport, CoreInstance, CoreSort, ExternDesc, Instance, LabelType, Labels, NamedItem,
    OuterSort, Primitive, Section, Sort, Span, TypeAlias, TypeDef, TypeItem, ValType,
};
pub use const_expr::{Code, ConstExpr};
pub use few::Few;
pub use instr::{BlockType, BranchTable, Instr, Instrs, LoadOp, MemArg, Op, RefType, StoreOp};
pub use kept_type::KeptType;
pub use lean::Lean;
pub use maybe_type::MaybeType;
pub use module::{
    Body, CoreFunc, Data, Elements, Export, ExportItem, Exprs, Global, GlobalType, Import,
    ImportItem, Indexes, Limits, LocalRun, Module, TableType,
};
pub use numeric::{Numeric, NumericOp, numeric_of};
pub use section::CoreSection;
pub use select_types::SelectTypes;
pub use shared::Shared;
