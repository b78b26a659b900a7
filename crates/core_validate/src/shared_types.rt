//! The function types in the type of a module. Imports or exports of one type share one copy of it.

ghost use Rattle.std.specs.Prelude.{◌≡◌, IfOk, IfSome, Some, slice_get};

use std::alloc::Global;
use std::collections::BTreeMap;
use std::marker::Model;
use virt_base::{CoreType, CoreTypes, Items, NoMemory};
use wasm_ast::{CoreFunc, Shared};

/// The function types of a module, which contracts see as their list. Each is copied once, where it is first asked for.
#[derive(Drop)]
pub struct SharedTypes<'a> {
    types: &'a [CoreFunc],
    copies: BTreeMap<u32, Shared<CoreFunc>>,
}

impl<'a> Model for SharedTypes<'a> {
    ghost use Rattle.std.specs.Prelude.{List};
    ghost use Rattle.wasm_ast.specs.declared.module.CoreFunc.{CoreFunc};
    ghost use Rattle.core_validate.specs.Copies.{AreCopies};

    ghost Value = { List CoreFunc };

    ghost view = { λ s. s.types.now };

    ghost invariant = { λ s. AreCopies s.types.now s.copies };
}

fn copy_types(alloc: Global, types: &CoreTypes) -> Result<CoreTypes, NoMemory>
    ensures { IfOk result (λ copy. copy ≡ types.now) }
{
    Ok(Items::new(Vec::from_slice(alloc, types.as_slice())?))
}

fn copy_func(alloc: Global, func: &CoreFunc) -> Result<CoreFunc, NoMemory>
    ensures { IfOk result (λ copy. copy ≡ func.now) }
{
    let params = copy_types(alloc, &func.params)?;
    let results = copy_types(alloc, &func.results)?;
    Ok(CoreFunc { params, results })
}

impl<'a> SharedTypes<'a> {
    /// These types, of which none is copied yet.
    pub fn new(alloc: Global, types: &'a [CoreFunc]) -> SharedTypes<'a>
        ensures { result ≡ types.now }
    {
        SharedTypes {
            types,
            copies: BTreeMap::new(alloc),
        }
    }

    fn copied(&self, index: u32) -> Result<Option<Shared<CoreFunc>>, NoMemory>
        ensures { IfOk result (λ kept. IfSome kept (λ ty. slice_get self.now index ≡ Some ty)) }
    {
        match self.copies.get(&index) {
            Some(kept) => Ok(Some(kept.share()?)),
            None => Ok(None),
        }
    }

    fn keep(&mut self, index: u32, ty: Shared<CoreFunc>) -> Result<(), NoMemory>
        requires { slice_get self.old index ≡ Some ty }
        ensures { self.new ≡ self.old }
    {
        self.copies.insert(index, ty)?;
        Ok(())
    }

    /// The type at an index, if it is there.
    pub fn at(&mut self, alloc: Global, index: u32) -> Result<Option<Shared<CoreFunc>>, NoMemory>
        ensures same { self.new ≡ self.old }
        ensures value { IfOk result (λ ty. ty ≡ slice_get self.old index) }
    {
        if let Some(kept) = self.copied(index)? {
            return Ok(Some(kept));
        }
        let types = self.types;
        match types.get(index as usize) {
            None => Ok(None),
            Some(func) => {
                let ty = Shared::new(alloc, copy_func(alloc, func)?)?;
                self.keep(index, ty.share()?)?;
                Ok(Some(ty))
            }
        }
    }
}
