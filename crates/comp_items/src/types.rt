//! Readers of value types, function types, resources and instance types without their declarations (Component Model, Binary.md, "Type
//! Definitions").

ghost use Rattle.std.specs.Prelude.{◌≡◌, ◌<◌};
ghost use Rattle.virt_base.specs.Place.{place};
ghost use Rattle.wasm_format.specs.Format.{Format};
ghost use Rattle.wasm_format.specs.Reads.{Reads};
ghost use Rattle.comp_grammar.specs.Types.{primitive_of, primitive_type, indexed_type, val_type, maybe_type, label_type, case_type, func_result, destructor, aggregate_def, other_def, type_def};

use crate::externs::lacks;
use std::alloc::Global;
use virt_base::{Cursor, next_byte};
use wasm_ast::{CaseType, KeptType, LabelType, MaybeType, Primitive, TypeDef, ValType};
use wasm_format::{Names, Reader, S33Index, Stop, U32, Vecs, expect_tag, next_is_tag};

/// The primitive type of a tag that was taken.
#[tactic(auto, unfolding(comp_grammar::specs::Types::primitive_of))]
fn primitive_of(c: &mut Cursor<'_>, byte: u8) -> Result<Primitive, Stop>
    requires { 0 < c.old.at }
    ensures input { c.new.bytes ≡ c.old.bytes }
    ensures value { Reads result c.new ((primitive_of byte).read (place c.old)) }
{
    match byte {
        0x7F => Ok(Primitive::Bool),
        0x7E => Ok(Primitive::S8),
        0x7D => Ok(Primitive::U8),
        0x7C => Ok(Primitive::S16),
        0x7B => Ok(Primitive::U16),
        0x7A => Ok(Primitive::S32),
        0x79 => Ok(Primitive::U32),
        0x78 => Ok(Primitive::S64),
        0x77 => Ok(Primitive::U64),
        0x74 => Ok(Primitive::Char),
        0x73 => Ok(Primitive::String),
        _ => Err(lacks(c, byte)),
    }
}

/// The primitive type of a tag, which is the next byte.
#[tactic(auto, unfolding(comp_grammar::specs::Types::primitive))]
fn primitive_type(c: &mut Cursor<'_>) -> Result<ValType, Stop>
    ensures input { c.new.bytes ≡ c.old.bytes }
    ensures value { Reads result c.new (primitive_type.read (place c.old)) }
{
    match next_byte(c) {
        None => Err(Stop::Malformed),
        Some(byte) => Ok(ValType::Primitive(primitive_of(c, byte)?)),
    }
}

/// The type at an index.
fn indexed_type(alloc: Global, c: &mut Cursor<'_>) -> Result<ValType, Stop>
    ensures input { c.new.bytes ≡ c.old.bytes }
    ensures value { Reads result c.new (indexed_type.read (place c.old)) }
{
    let index = S33Index.read(alloc, c)?;
    Ok(ValType::Index(index))
}

/// Value types where they are used.
#[derive(Clone, Copy)]
struct ValTypeReader;

impl Reader for ValTypeReader {
    type Value = ValType;

    ghost format = { λ _. val_type };

    fn read(&self, alloc: Global, c: &mut Cursor<'_>) -> Result<ValType, Stop> {
        match next_is_tag(c) {
            None => Err(Stop::Malformed),
            Some(true) => primitive_type(c),
            Some(false) => indexed_type(alloc, c),
        }
    }
}

/// Value types that may be absent.
#[derive(Clone, Copy)]
struct MaybeTypeReader;

impl Reader for MaybeTypeReader {
    type Value = Option<ValType>;

    ghost format = { λ _. maybe_type };

    #[tactic(auto, unfolding(comp_grammar::specs::Types::maybe_type))]
    fn read(&self, alloc: Global, c: &mut Cursor<'_>) -> Result<Option<ValType>, Stop> {
        match next_byte(c) {
            None => Err(Stop::Malformed),
            Some(0) => Ok(None),
            Some(1) => Ok(Some(ValTypeReader.read(alloc, c)?)),
            Some(byte) => Err(lacks(c, byte)),
        }
    }
}

/// Fields and parameters.
#[derive(Clone, Copy)]
struct LabelTypeReader;

impl Reader for LabelTypeReader {
    type Value = LabelType;

    ghost format = { λ _. label_type };

    #[tactic(auto, unfolding(comp_grammar::specs::Types::label_type))]
    fn read(&self, alloc: Global, c: &mut Cursor<'_>) -> Result<LabelType, Stop> {
        let label = Names.read(alloc, c)?;
        let ty = ValTypeReader.read(alloc, c)?;
        Ok(LabelType { label, ty })
    }
}

/// Cases of variants, each of which a 00 closes.
#[derive(Clone, Copy)]
struct CaseTypeReader;

impl Reader for CaseTypeReader {
    type Value = CaseType;

    ghost format = { λ _. case_type };

    #[tactic(auto, unfolding(comp_grammar::specs::Types::case_type))]
    fn read(&self, alloc: Global, c: &mut Cursor<'_>) -> Result<CaseType, Stop> {
        let label = Names.read(alloc, c)?;
        let ty = MaybeTypeReader.read(alloc, c)?;
        expect_tag(c, 0)?;
        Ok(CaseType { label, ty })
    }
}

/// Results of functions: 00 and a type, or 01 00.
#[derive(Clone, Copy)]
struct FuncResultReader;

impl Reader for FuncResultReader {
    type Value = Option<ValType>;

    ghost format = { λ _. func_result };

    #[tactic(auto, unfolding(comp_grammar::specs::Types::func_result))]
    fn read(&self, alloc: Global, c: &mut Cursor<'_>) -> Result<Option<ValType>, Stop> {
        match next_byte(c) {
            None => Err(Stop::Malformed),
            Some(0) => Ok(Some(ValTypeReader.read(alloc, c)?)),
            Some(1) => {
                expect_tag(c, 0)?;
                Ok(None)
            }
            Some(byte) => Err(lacks(c, byte)),
        }
    }
}

/// Destructors of resources, which may be absent.
#[derive(Clone, Copy)]
struct DestructorReader;

impl Reader for DestructorReader {
    type Value = Option<u32>;

    ghost format = { λ _. destructor };

    #[tactic(auto, unfolding(comp_grammar::specs::Types::destructor))]
    fn read(&self, alloc: Global, c: &mut Cursor<'_>) -> Result<Option<u32>, Stop> {
        match next_byte(c) {
            None => Err(Stop::Malformed),
            Some(0) => Ok(None),
            Some(1) => Ok(Some(U32.read(alloc, c)?)),
            Some(byte) => Err(lacks(c, byte)),
        }
    }
}

/// A definition of tag 6D to 72, which was taken.
#[tactic(auto, unfolding(comp_grammar::specs::Types::aggregate_def))]
fn aggregate_def(alloc: Global, c: &mut Cursor<'_>, byte: u8) -> Result<TypeDef, Stop>
    requires { 0 < c.old.at }
    ensures input { c.new.bytes ≡ c.old.bytes }
    ensures value { Reads result c.new ((aggregate_def byte).read (place c.old)) }
{
    match byte {
        0x72 => Ok(TypeDef::Record {
            fields: Vecs(LabelTypeReader).read(alloc, c)?,
        }),
        0x71 => Ok(TypeDef::Variant {
            cases: Vecs(CaseTypeReader).read(alloc, c)?,
        }),
        0x70 => Ok(TypeDef::List(ValTypeReader.read(alloc, c)?)),
        0x6F => Ok(TypeDef::Tuple {
            types: Vecs(ValTypeReader).read(alloc, c)?,
        }),
        0x6E => Ok(TypeDef::Flags {
            labels: Vecs(Names).read(alloc, c)?,
        }),
        0x6D => Ok(TypeDef::Enum {
            labels: Vecs(Names).read(alloc, c)?,
        }),
        _ => Err(lacks(c, byte)),
    }
}

/// A definition of a lower tag, which was taken.
#[tactic(auto, unfolding(comp_grammar::specs::Types::other_def))]
fn other_def(alloc: Global, c: &mut Cursor<'_>, byte: u8) -> Result<TypeDef, Stop>
    requires { 0 < c.old.at }
    ensures input { c.new.bytes ≡ c.old.bytes }
    ensures value { Reads result c.new ((other_def byte).read (place c.old)) }
{
    match byte {
        0x6B => Ok(TypeDef::Option(ValTypeReader.read(alloc, c)?)),
        0x6A => {
            let ok = MaybeType::new(MaybeTypeReader.read(alloc, c)?);
            let err = MaybeType::new(MaybeTypeReader.read(alloc, c)?);
            Ok(TypeDef::Result { ok, err })
        }
        0x69 => Ok(TypeDef::Own(U32.read(alloc, c)?)),
        0x68 => Ok(TypeDef::Borrow(U32.read(alloc, c)?)),
        0x40 => {
            let params = Vecs(LabelTypeReader).read(alloc, c)?;
            let result = MaybeType::new(FuncResultReader.read(alloc, c)?);
            Ok(TypeDef::Func { params, result })
        }
        0x42 => Ok(TypeDef::Instance {
            declarations: U32.read(alloc, c)?,
        }),
        0x3F => {
            expect_tag(c, 0x7F)?;
            let destructor = DestructorReader.read(alloc, c)?;
            Ok(TypeDef::Resource { destructor })
        }
        _ => Err(lacks(c, byte)),
    }
}

/// Definitions of types; of instance types without their declarations.
#[derive(Clone, Copy)]
struct TypeDefReader;

impl Reader for TypeDefReader {
    type Value = TypeDef;

    ghost format = { λ _. type_def };

    #[tactic(auto, unfolding(comp_grammar::specs::Types::type_def))]
    fn read(&self, alloc: Global, c: &mut Cursor<'_>) -> Result<TypeDef, Stop> {
        match next_byte(c) {
            None => Err(Stop::Malformed),
            Some(byte) => {
                if 0x72 < byte {
                    Ok(TypeDef::Primitive(primitive_of(c, byte)?))
                } else if 0x6C < byte {
                    aggregate_def(alloc, c, byte)
                } else {
                    other_def(alloc, c, byte)
                }
            }
        }
    }
}

/// Definitions as sections keep them.
#[derive(Clone, Copy)]
pub struct KeptTypeReader;

impl Reader for KeptTypeReader {
    type Value = KeptType;

    ghost format = { λ _. type_def };

    fn read(&self, alloc: Global, c: &mut Cursor<'_>) -> Result<KeptType, Stop> {
        let def = TypeDefReader.read(alloc, c)?;
        Ok(KeptType::new(alloc, def)?)
    }
}
