//! The types of a `select` that names them. Up to four stand in the value itself.

ghost use Rattle.std.specs.Prelude.{◌≡◌, IfOk};
ghost use Rattle.wasm_ast.specs.SelectTypes.{select_kept};

use crate::few::Few;
use std::alloc::Global;
use std::marker::Model;
use virt_base::{CoreType, CoreTypes, NoMemory};

/// Four types take no memory of their own either.
#[derive(Debug, Drop)]
enum Kept {
    Four([CoreType; 4]),
    Others(Few<CoreType>),
}

/// The types by which an instruction selects, which contracts see as a list.
#[derive(Debug, Drop)]
pub struct SelectTypes {
    kept: Kept,
}

impl Model for SelectTypes {
    ghost use Rattle.std.specs.Prelude.{List};
    ghost use Rattle.virt_base.specs.declared.core_type.CoreType.{CoreType};
    ghost use Rattle.wasm_ast.specs.SelectTypes.{select_kept};

    ghost Value = { List CoreType };

    ghost view = { λ s. select_kept s.kept };
}

impl SelectTypes {
    /// The list of these types.
    pub fn new(alloc: Global, types: CoreTypes) -> Result<Self, NoMemory>
        ensures { IfOk result (λ s. s ≡ types) }
    {
        let kept = match types.as_slice() {
            [first, second, third, fourth] => Kept::Four([*first, *second, *third, *fourth]),
            _ => Kept::Others(Few::new(alloc, types)?),
        };
        Ok(SelectTypes { kept })
    }

    pub fn as_slice(&self) -> &[CoreType]
        ensures { result.now ≡ self.now }
    {
        match &self.kept {
            Kept::Four(types) => types.as_slice(),
            Kept::Others(types) => types.as_slice(),
        }
    }
}
