//! Sections in the making, to which definitions are added one after another.

use std::alloc::Global;
use virt_base::{Items, NoMemory};
use virt_output::Piece;
use wasm_ast::{
    Alias, Canon, ComponentExport, ComponentImport, CoreInstance, Instance, KeptType, TypeDef,
    TypeItem,
};

/// Sections in the making. Definitions of one kind that follow one another share a section.
#[derive(Drop)]
pub struct Sections<'a> {
    alloc: Global,
    pieces: Vec<Piece<'a>>,
}

impl<'a> Sections<'a> {
    pub fn new(alloc: Global) -> Sections<'a> {
        Sections {
            alloc,
            pieces: Vec::new(alloc),
        }
    }

    pub fn into_pieces(self) -> Vec<Piece<'a>> {
        self.pieces
    }

    /// A section as it is.
    pub fn put(&mut self, piece: Piece<'a>) -> Result<(), NoMemory> {
        self.pieces.push(piece)?;
        Ok(())
    }

    fn put_back(&mut self, last: Option<Piece<'a>>) -> Result<(), NoMemory> {
        match last {
            Some(piece) => self.put(piece),
            None => Ok(()),
        }
    }

    pub fn define(&mut self, def: TypeDef) -> Result<(), NoMemory> {
        let item = TypeItem::Define(KeptType::new(self.alloc, def)?);
        match self.pieces.pop() {
            Some(Piece::Types(mut items)) => {
                items.push(item)?;
                self.put(Piece::Types(items))
            }
            last => {
                self.put_back(last)?;
                let mut items = Items::empty(self.alloc);
                items.push(item)?;
                self.put(Piece::Types(items))
            }
        }
    }

    pub fn alias(&mut self, item: Alias) -> Result<(), NoMemory> {
        match self.pieces.pop() {
            Some(Piece::Aliases(mut items)) => {
                items.push(item)?;
                self.put(Piece::Aliases(items))
            }
            last => {
                self.put_back(last)?;
                let mut items = Items::empty(self.alloc);
                items.push(item)?;
                self.put(Piece::Aliases(items))
            }
        }
    }

    pub fn import(&mut self, item: ComponentImport) -> Result<(), NoMemory> {
        match self.pieces.pop() {
            Some(Piece::Imports(mut items)) => {
                items.push(item)?;
                self.put(Piece::Imports(items))
            }
            last => {
                self.put_back(last)?;
                let mut items = Items::empty(self.alloc);
                items.push(item)?;
                self.put(Piece::Imports(items))
            }
        }
    }

    pub fn export(&mut self, item: ComponentExport) -> Result<(), NoMemory> {
        match self.pieces.pop() {
            Some(Piece::Exports(mut items)) => {
                items.push(item)?;
                self.put(Piece::Exports(items))
            }
            last => {
                self.put_back(last)?;
                let mut items = Items::empty(self.alloc);
                items.push(item)?;
                self.put(Piece::Exports(items))
            }
        }
    }

    pub fn canon(&mut self, item: Canon) -> Result<(), NoMemory> {
        match self.pieces.pop() {
            Some(Piece::Canons(mut items)) => {
                items.push(item)?;
                self.put(Piece::Canons(items))
            }
            last => {
                self.put_back(last)?;
                let mut items = Items::empty(self.alloc);
                items.push(item)?;
                self.put(Piece::Canons(items))
            }
        }
    }

    pub fn instance(&mut self, item: Instance) -> Result<(), NoMemory> {
        match self.pieces.pop() {
            Some(Piece::Instances(mut items)) => {
                items.push(item)?;
                self.put(Piece::Instances(items))
            }
            last => {
                self.put_back(last)?;
                let mut items = Items::empty(self.alloc);
                items.push(item)?;
                self.put(Piece::Instances(items))
            }
        }
    }

    pub fn core_instance(&mut self, item: CoreInstance) -> Result<(), NoMemory> {
        match self.pieces.pop() {
            Some(Piece::CoreInstances(mut items)) => {
                items.push(item)?;
                self.put(Piece::CoreInstances(items))
            }
            last => {
                self.put_back(last)?;
                let mut items = Items::empty(self.alloc);
                items.push(item)?;
                self.put(Piece::CoreInstances(items))
            }
        }
    }
}
