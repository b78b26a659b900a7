//! A value type that may be absent, with one tag for both. Contracts see an option.

ghost use Rattle.std.specs.Prelude.{◌≡◌};

use crate::component::{Primitive, ValType};
use std::marker::Model;

/// An option of a value type has a tag for the option and one for the type; this has one for both.
#[derive(Debug, Drop)]
enum Kept {
    Absent,
    Primitive(Primitive),
    Index(u32),
}

/// A value type that may be absent, which contracts see as an option.
#[derive(Debug, Drop)]
pub struct MaybeType {
    kept: Kept,
}

impl Model for MaybeType {
    ghost use Rattle.std.specs.Prelude.{Option};
    ghost use Rattle.wasm_ast.specs.declared.component.ValType.{ValType};
    ghost use Rattle.wasm_ast.specs.MaybeTypes.{type_kept};

    ghost Value = { Option ValType };

    ghost view = { λ m. type_kept m.kept };
}

impl MaybeType {
    pub fn new(ty: Option<ValType>) -> MaybeType
        ensures { result ≡ ty }
    {
        let kept = match ty {
            None => Kept::Absent,
            Some(ValType::Primitive(primitive)) => Kept::Primitive(primitive),
            Some(ValType::Index(index)) => Kept::Index(index),
        };
        MaybeType { kept }
    }

    pub fn get(&self) -> Option<ValType>
        ensures { result ≡ self.now }
    {
        match &self.kept {
            Kept::Absent => None,
            Kept::Primitive(primitive) => Some(ValType::Primitive(*primitive)),
            Kept::Index(index) => Some(ValType::Index(*index)),
        }
    }
}
