//! The short lists of types by which instructions select, each kept once for all the instructions that name it.

ghost use Rattle.std.specs.Prelude.{◌≡◌, ◌∷◌, [], IfOk};

use std::alloc::Global;
use std::marker::Model;
use virt_base::{CoreType, CoreTypes, Items, NoMemory};
use wasm_ast::{SelectTypes, Shared};

/// The list of no type and those of one, each kept once for all the `select`s that name it. Contracts see nothing of them.
#[derive(Drop)]
pub struct SelectLists {
    none: Shared<SelectTypes>,
    i32: Shared<SelectTypes>,
    i64: Shared<SelectTypes>,
    funcref: Shared<SelectTypes>,
    externref: Shared<SelectTypes>,
}

impl Model for SelectLists {
    ghost use Rattle.std.specs.Prelude.{⊤};
    ghost use Rattle.core_read.specs.SelectLists.{AreLists};

    ghost Value = { ⊤ };

    ghost view = { λ _. tt };

    ghost invariant = { λ l. AreLists l.none l.i32 l.i64 l.funcref l.externref };
}

fn list(alloc: Global, types: CoreTypes) -> Result<Shared<SelectTypes>, NoMemory>
    ensures { IfOk result (λ list. list ≡ types) }
{
    let types = SelectTypes::new(alloc, types)?;
    Shared::new(alloc, types)
}

fn list_of(alloc: Global, ty: CoreType) -> Result<Shared<SelectTypes>, NoMemory>
    ensures { IfOk result (λ list. list ≡ ty ∷ []) }
{
    let mut types = Vec::with_capacity(alloc, 1)?;
    types.push(ty)?;
    list(alloc, Items::new(types))
}

impl SelectLists {
    pub fn new(alloc: Global) -> Result<SelectLists, NoMemory> {
        let none = list(alloc, Items::empty(alloc))?;
        let i32 = list_of(alloc, CoreType::I32)?;
        let i64 = list_of(alloc, CoreType::I64)?;
        let funcref = list_of(alloc, CoreType::Funcref)?;
        let externref = list_of(alloc, CoreType::Externref)?;
        Ok(SelectLists {
            none,
            i32,
            i64,
            funcref,
            externref,
        })
    }

    /// The list of these types. A longer one than those that are kept has one owner.
    pub fn of(&self, alloc: Global, types: CoreTypes) -> Result<Shared<SelectTypes>, NoMemory>
        ensures { IfOk result (λ list. list ≡ types) }
    {
        match types.as_slice() {
            [] => self.none.share(),
            [CoreType::I32] => self.i32.share(),
            [CoreType::I64] => self.i64.share(),
            [CoreType::Funcref] => self.funcref.share(),
            [CoreType::Externref] => self.externref.share(),
            _ => list(alloc, types),
        }
    }
}
