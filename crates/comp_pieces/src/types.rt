//! Which definitions of types may be written (Component Model, Binary.md, "Type Definitions"). Instance types, which have declarations
//! after them, are left to `type_items`.

ghost use Rattle.std.specs.Prelude.{IfOk, IsTrue};
ghost use Rattle.wasm_format.specs.Format.{Format};
ghost use Rattle.comp_grammar.specs.Types.{maybe_type, func_result, destructor};
ghost use Rattle.comp_pieces.specs.Typing.{IsPlainDef};

use crate::fits::{Fit, all_fit, number_fits, text_fits};
use std::alloc::Global;
use virt_base::{NoMemory, Text};
use wasm_ast::{CaseType, KeptType, LabelType, TypeDef, ValType};

impl Fit for Text {
    ghost use Rattle.wasm_format.specs.Format.{Format, name};

    ghost may_be = { name.Fits };

    fn fits(&self) -> bool {
        text_fits(self)
    }
}

impl Fit for ValType {
    ghost use Rattle.wasm_format.specs.Format.{Format};
    ghost use Rattle.comp_grammar.specs.Types.{val_type};

    ghost may_be = { val_type.Fits };

    #[tactic(auto, using(crate::proofs::TypeFits::primitive_law, crate::proofs::TypeFits::index_law))]
    fn fits(&self) -> bool {
        match self {
            ValType::Primitive(_) => true,
            ValType::Index(index) => number_fits(*index),
        }
    }
}

impl Fit for LabelType {
    ghost use Rattle.wasm_format.specs.Format.{Format};
    ghost use Rattle.comp_grammar.specs.Types.{label_type};

    ghost may_be = { label_type.Fits };

    #[tactic(auto, using(crate::proofs::TypeFits::label_law))]
    fn fits(&self) -> bool {
        if !text_fits(&self.label) {
            return false;
        }
        self.ty.fits()
    }
}

#[tactic(auto, using(crate::proofs::TypeFits::absent_law, crate::proofs::TypeFits::present_law))]
fn maybe_fits(ty: &Option<ValType>) -> bool
    ensures { IsTrue result → maybe_type.Fits ty.now }
{
    match ty {
        None => true,
        Some(ty) => ty.fits(),
    }
}

#[tactic(auto, using(crate::proofs::TypeFits::no_answer_law, crate::proofs::TypeFits::answer_law))]
fn answer_fits(ty: &Option<ValType>) -> bool
    ensures { IsTrue result → func_result.Fits ty.now }
{
    match ty {
        None => true,
        Some(ty) => ty.fits(),
    }
}

#[tactic(auto, using(crate::proofs::TypeFits::no_destructor_law, crate::proofs::TypeFits::destructor_law))]
fn destructor_fits(ty: &Option<u32>) -> bool
    ensures { IsTrue result → destructor.Fits ty.now }
{
    match ty {
        None => true,
        Some(func) => number_fits(*func),
    }
}

impl Fit for CaseType {
    ghost use Rattle.wasm_format.specs.Format.{Format};
    ghost use Rattle.comp_grammar.specs.Types.{case_type};

    ghost may_be = { case_type.Fits };

    #[tactic(auto, using(crate::proofs::TypeFits::case_law))]
    fn fits(&self) -> bool {
        if !text_fits(&self.label) {
            return false;
        }
        maybe_fits(&self.ty)
    }
}

/// Definitions that list their parts.
#[tactic(auto, using(crate::proofs::TypeFits::record_plain, crate::proofs::TypeFits::variant_plain, crate::proofs::TypeFits::list_plain, crate::proofs::TypeFits::tuple_plain, crate::proofs::TypeFits::flags_plain, crate::proofs::TypeFits::enum_plain))]
fn listing_fits(def: &TypeDef) -> bool
    ensures { IsTrue result → IsPlainDef def.now }
{
    match def {
        TypeDef::Record { fields } => all_fit(fields.as_slice()),
        TypeDef::Variant { cases } => all_fit(cases.as_slice()),
        TypeDef::List(ty) => ty.fits(),
        TypeDef::Tuple { types } => all_fit(types.as_slice()),
        TypeDef::Flags { labels } => all_fit(labels.as_slice()),
        TypeDef::Enum { labels } => all_fit(labels.as_slice()),
        _ => false,
    }
}

/// Definitions of functions, results and resources.
#[tactic(auto, using(crate::proofs::TypeFits::result_plain, crate::proofs::TypeFits::func_plain, crate::proofs::TypeFits::resource_plain))]
fn answering_fits(def: &TypeDef) -> bool
    ensures { IsTrue result → IsPlainDef def.now }
{
    match def {
        TypeDef::Result { ok, err } => {
            if !maybe_fits(&ok.get()) {
                return false;
            }
            maybe_fits(&err.get())
        }
        TypeDef::Func {
            params,
            result: answer,
        } => {
            if !all_fit(params.as_slice()) {
                return false;
            }
            answer_fits(&answer.get())
        }
        TypeDef::Resource { destructor } => destructor_fits(destructor),
        _ => false,
    }
}

/// True only of definitions that may be written and are none of an instance type.
#[tactic(auto, using(crate::proofs::TypeFits::primitive_plain, crate::proofs::TypeFits::option_plain, crate::proofs::TypeFits::own_plain, crate::proofs::TypeFits::borrow_plain))]
fn def_fits(def: &TypeDef) -> bool
    ensures { IsTrue result → IsPlainDef def.now }
{
    match def {
        TypeDef::Primitive(_) => true,
        TypeDef::Option(ty) => ty.fits(),
        TypeDef::Own(ty) => number_fits(*ty),
        TypeDef::Borrow(ty) => number_fits(*ty),
        _ => {
            if listing_fits(def) {
                return true;
            }
            answering_fits(def)
        }
    }
}

/// The same of a definition as it is kept.
pub fn kept_fits(alloc: Global, kept: &KeptType) -> Result<bool, NoMemory>
    ensures { IfOk result (λ fit. IsTrue fit → IsPlainDef kept.now) }
{
    let def = kept.def(alloc)?;
    Ok(def_fits(&def))
}
