//! Shims: components in the adapter, each of which hands types and functions on under the names of an interface.

use crate::catalogue::Catalogue;
use crate::declare::{Declared, declare_functions, declare_types};
use crate::scope::{Form, Scope};
use crate::standing::Standing;
use crate::world::{declared_at, numbers_at, shown_in};
use adapter_world::{World, WorldImport};
use comp_pieces::write_pieces;
use std::alloc::Global;
use virt_base::NoMemory;
use virt_output::PieceFault;

/// An import of the application, as a shim gives it: the types that it shows and those that it holds, and its functions.
#[derive(Drop)]
pub struct Shown<'a> {
    pub shown: Vec<usize>,
    pub held: Vec<usize>,
    pub functions: Vec<Declared<'a>>,
}

impl<'a> Shown<'a> {
    pub fn new(
        alloc: Global,
        catalogue: &Catalogue,
        world: &'a World,
        import: &WorldImport,
    ) -> Result<Shown<'a>, NoMemory> {
        let shown = shown_in(alloc, catalogue, import)?;
        let functions = declared_at(alloc, world, import.functions.as_slice())?;
        let types = world.types.as_slice();
        let held = numbers_at(alloc, catalogue, types, import.held.as_slice())?;
        Ok(Shown {
            shown,
            held,
            functions,
        })
    }
}

/// A component that hands types and functions on under the names of an interface.
pub fn shim(alloc: Global, catalogue: &Catalogue, of: &Shown<'_>) -> Result<Vec<u8>, PieceFault> {
    let around = Standing::none(alloc, catalogue)?;
    let mut scope = Scope::new(alloc, catalogue, Form::In)?;
    declare_types(&mut scope, catalogue, &around, of.held.as_slice())?;
    declare_functions(&mut scope, catalogue, of.functions.as_slice())?;
    scope.form = Form::Out;
    scope.functions = 0;
    declare_types(&mut scope, catalogue, &around, of.shown.as_slice())?;
    declare_functions(&mut scope, catalogue, of.functions.as_slice())?;
    let pieces = scope.sections.into_pieces();
    write_pieces(alloc, pieces.as_slice())
}
