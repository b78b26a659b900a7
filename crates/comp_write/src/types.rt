//! Writers of value types, function types, resources and instance types without their declarations (Component Model, Binary.md, "Type
//! Definitions").

ghost use Rattle.wasm_format.specs.Format.{Format};
ghost use Rattle.comp_grammar.specs.Types.{primitive, val_type, maybe_type, label_type, case_type, func_result, destructor, type_def};

use std::alloc::Global;
use virt_base::NoMemory;
use wasm_ast::{CaseType, KeptType, LabelType, Primitive, TypeDef, ValType};
use wasm_format::{Names, S33Index, U32, Vecs, Writer, put_byte};

/// Primitive types.
#[derive(Clone, Copy)]
struct PrimitiveWriter;

impl Writer for PrimitiveWriter {
    type Value = Primitive;

    ghost format = { λ _. primitive };

    #[tactic(auto, unfolding(comp_grammar::specs::Types::primitive, comp_grammar::specs::Types::primitive_of))]
    fn write(&self, alloc: Global, out: &mut Vec<u8>, value: &Primitive) -> Result<(), NoMemory> {
        match value {
            Primitive::Bool => put_byte(alloc, out, 0x7F),
            Primitive::S8 => put_byte(alloc, out, 0x7E),
            Primitive::U8 => put_byte(alloc, out, 0x7D),
            Primitive::S16 => put_byte(alloc, out, 0x7C),
            Primitive::U16 => put_byte(alloc, out, 0x7B),
            Primitive::S32 => put_byte(alloc, out, 0x7A),
            Primitive::U32 => put_byte(alloc, out, 0x79),
            Primitive::S64 => put_byte(alloc, out, 0x78),
            Primitive::U64 => put_byte(alloc, out, 0x77),
            Primitive::Char => put_byte(alloc, out, 0x74),
            Primitive::String => put_byte(alloc, out, 0x73),
        }
    }
}

/// Value types where one is used.
#[derive(Clone, Copy)]
struct ValTypeWriter;

impl Writer for ValTypeWriter {
    type Value = ValType;

    ghost format = { λ _. val_type };

    #[tactic(auto, unfolding(comp_grammar::specs::Types::val_type))]
    fn write(&self, alloc: Global, out: &mut Vec<u8>, value: &ValType) -> Result<(), NoMemory> {
        match value {
            ValType::Primitive(ty) => PrimitiveWriter.write(alloc, out, ty),
            ValType::Index(index) => S33Index.write(alloc, out, index),
        }
    }
}

/// Value types, or none.
#[derive(Clone, Copy)]
struct MaybeTypeWriter;

impl Writer for MaybeTypeWriter {
    type Value = Option<ValType>;

    ghost format = { λ _. maybe_type };

    #[tactic(auto, unfolding(comp_grammar::specs::Types::maybe_type))]
    fn write(
        &self,
        alloc: Global,
        out: &mut Vec<u8>,
        value: &Option<ValType>,
    ) -> Result<(), NoMemory> {
        match value {
            None => put_byte(alloc, out, 0),
            Some(ty) => {
                put_byte(alloc, out, 1)?;
                ValTypeWriter.write(alloc, out, ty)
            }
        }
    }
}

/// Fields and parameters.
#[derive(Clone, Copy)]
struct LabelTypeWriter;

impl Writer for LabelTypeWriter {
    type Value = LabelType;

    ghost format = { λ _. label_type };

    #[tactic(auto, unfolding(comp_grammar::specs::Types::label_type))]
    fn write(&self, alloc: Global, out: &mut Vec<u8>, value: &LabelType) -> Result<(), NoMemory> {
        Names.write(alloc, out, &value.label)?;
        ValTypeWriter.write(alloc, out, &value.ty)
    }
}

/// Cases of variants, each closed by a 00.
#[derive(Clone, Copy)]
struct CaseTypeWriter;

impl Writer for CaseTypeWriter {
    type Value = CaseType;

    ghost format = { λ _. case_type };

    #[tactic(auto, unfolding(comp_grammar::specs::Types::case_type))]
    fn write(&self, alloc: Global, out: &mut Vec<u8>, value: &CaseType) -> Result<(), NoMemory> {
        Names.write(alloc, out, &value.label)?;
        MaybeTypeWriter.write(alloc, out, &value.ty)?;
        put_byte(alloc, out, 0)
    }
}

/// Results of functions.
#[derive(Clone, Copy)]
struct FuncResultWriter;

impl Writer for FuncResultWriter {
    type Value = Option<ValType>;

    ghost format = { λ _. func_result };

    #[tactic(auto, unfolding(comp_grammar::specs::Types::func_result))]
    fn write(
        &self,
        alloc: Global,
        out: &mut Vec<u8>,
        value: &Option<ValType>,
    ) -> Result<(), NoMemory> {
        match value {
            None => {
                put_byte(alloc, out, 1)?;
                put_byte(alloc, out, 0)
            }
            Some(ty) => {
                put_byte(alloc, out, 0)?;
                ValTypeWriter.write(alloc, out, ty)
            }
        }
    }
}

/// Destructors of resources.
#[derive(Clone, Copy)]
struct DestructorWriter;

impl Writer for DestructorWriter {
    type Value = Option<u32>;

    ghost format = { λ _. destructor };

    #[tactic(auto, unfolding(comp_grammar::specs::Types::destructor))]
    fn write(&self, alloc: Global, out: &mut Vec<u8>, value: &Option<u32>) -> Result<(), NoMemory> {
        match value {
            None => put_byte(alloc, out, 0),
            Some(function) => {
                put_byte(alloc, out, 1)?;
                U32.write(alloc, out, function)
            }
        }
    }
}

/// Definitions of types; of an instance type without its declarations.
#[derive(Clone, Copy)]
struct TypeDefWriter;

impl Writer for TypeDefWriter {
    type Value = TypeDef;

    ghost format = { λ _. type_def };

    #[tactic(auto, unfolding(comp_grammar::specs::Types::type_def, comp_grammar::specs::Types::aggregate_def, comp_grammar::specs::Types::other_def), using(crate::proofs::TypeForms::primitive_fits, crate::proofs::TypeForms::primitive_written))]
    fn write(&self, alloc: Global, out: &mut Vec<u8>, value: &TypeDef) -> Result<(), NoMemory> {
        match value {
            TypeDef::Primitive(ty) => PrimitiveWriter.write(alloc, out, ty),
            TypeDef::Record { fields } => {
                put_byte(alloc, out, 0x72)?;
                Vecs(LabelTypeWriter).write(alloc, out, fields)
            }
            TypeDef::Variant { cases } => {
                put_byte(alloc, out, 0x71)?;
                Vecs(CaseTypeWriter).write(alloc, out, cases)
            }
            TypeDef::List(ty) => {
                put_byte(alloc, out, 0x70)?;
                ValTypeWriter.write(alloc, out, ty)
            }
            TypeDef::Tuple { types } => {
                put_byte(alloc, out, 0x6F)?;
                Vecs(ValTypeWriter).write(alloc, out, types)
            }
            TypeDef::Flags { labels } => {
                put_byte(alloc, out, 0x6E)?;
                Vecs(Names).write(alloc, out, labels)
            }
            TypeDef::Enum { labels } => {
                put_byte(alloc, out, 0x6D)?;
                Vecs(Names).write(alloc, out, labels)
            }
            TypeDef::Option(ty) => {
                put_byte(alloc, out, 0x6B)?;
                ValTypeWriter.write(alloc, out, ty)
            }
            TypeDef::Result { ok, err } => {
                put_byte(alloc, out, 0x6A)?;
                MaybeTypeWriter.write(alloc, out, &ok.get())?;
                MaybeTypeWriter.write(alloc, out, &err.get())
            }
            TypeDef::Own(ty) => {
                put_byte(alloc, out, 0x69)?;
                U32.write(alloc, out, ty)
            }
            TypeDef::Borrow(ty) => {
                put_byte(alloc, out, 0x68)?;
                U32.write(alloc, out, ty)
            }
            TypeDef::Func { params, result } => {
                put_byte(alloc, out, 0x40)?;
                Vecs(LabelTypeWriter).write(alloc, out, params)?;
                FuncResultWriter.write(alloc, out, &result.get())
            }
            TypeDef::Instance { declarations } => {
                put_byte(alloc, out, 0x42)?;
                U32.write(alloc, out, declarations)
            }
            TypeDef::Resource { destructor } => {
                put_byte(alloc, out, 0x3F)?;
                put_byte(alloc, out, 0x7F)?;
                DestructorWriter.write(alloc, out, destructor)
            }
        }
    }
}

/// Definitions as sections keep them.
#[derive(Clone, Copy)]
pub struct KeptTypeWriter;

impl Writer for KeptTypeWriter {
    type Value = KeptType;

    ghost format = { λ _. type_def };

    fn write(&self, alloc: Global, out: &mut Vec<u8>, value: &KeptType) -> Result<(), NoMemory> {
        let def = value.def(alloc)?;
        TypeDefWriter.write(alloc, out, &def)
    }
}
