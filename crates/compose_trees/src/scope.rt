//! A scope in which types and functions are declared: the type of an imported instance, the adapter, or one side of a shim. The form of the
//! scope says what a declaration adds to it.

use crate::catalogue::Catalogue;
use crate::sections::Sections;
use crate::standing::Standing;
use std::alloc::Global;
use virt_base::{Items, NoMemory, Text};
use wasm_ast::{
    Apart, ComponentExport, ComponentImport, ExternDesc, KeptType, Sort, TypeAlias, TypeDef,
    TypeItem,
};

/// Where types and functions are declared.
#[derive(Clone, Copy, PartialEq, Eq)]
pub enum Form {
    /// The type of an instance that is imported.
    Instance,
    /// The adapter, whose functions are lifted after all else.
    Adapter,
    /// What a shim imports.
    In,
    /// What a shim exports.
    Out,
}

/// A scope in which types and functions are declared.
#[derive(Drop)]
pub struct Scope<'a> {
    pub form: Form,
    pub alloc: Global,
    /// What an instance type declares.
    pub declared: Items<TypeItem>,
    /// The sections of a component.
    pub sections: Sections<'a>,
    /// Where types stand.
    pub standing: Standing,
    /// The next index of a type.
    pub types: u32,
    /// How many types were put.
    pub put: u32,
    /// How many functions were put.
    pub functions: u32,
    /// The types of the functions that are to be lifted.
    pub lifted: Vec<u32>,
}

impl<'a> Scope<'a> {
    /// A scope in which nothing stands.
    pub fn new(alloc: Global, catalogue: &Catalogue, form: Form) -> Result<Scope<'a>, NoMemory> {
        Ok(Scope {
            form,
            alloc,
            declared: Items::empty(alloc),
            sections: Sections::new(alloc),
            standing: Standing::none(alloc, catalogue)?,
            types: 0,
            put: 0,
            functions: 0,
            lifted: Vec::new(alloc),
        })
    }

    /// The next index of a type, which is taken by that.
    pub fn next_type(&mut self) -> u32 {
        let index = self.types;
        self.types = index.saturating_add(1);
        index
    }

    /// Adds a definition: its index.
    pub fn define(&mut self, def: TypeDef) -> Result<u32, NoMemory> {
        match self.form {
            Form::Instance => {
                let item = TypeItem::Define(KeptType::new(self.alloc, def)?);
                self.declared.push(item)?;
            }
            Form::Adapter | Form::In | Form::Out => self.sections.define(def)?,
        }
        Ok(self.next_type())
    }

    /// Adds an alias of a type of the scope around an instance type: its index.
    pub fn alias_outer(&mut self, index: u32) -> Result<u32, NoMemory> {
        let alias = TypeAlias::Outer { count: 1, index };
        self.declared.push(TypeItem::Alias(alias))?;
        Ok(self.next_type())
    }

    /// Puts a type under its name, where the type has an index; a kind without one is fresh. The index from now on.
    pub fn put_type(&mut self, name: &Text, index: Option<u32>) -> Result<u32, NoMemory> {
        let desc = match index {
            Some(index) => ExternDesc::TypeEq(index),
            None => ExternDesc::Resource,
        };
        match self.form {
            Form::Instance => self.declare(name, desc)?,
            Form::Adapter => return Ok(index.unwrap_or(u32::MAX)),
            Form::In => self.import_type(desc)?,
            Form::Out => self.export(name, Sort::Type, index.unwrap_or(u32::MAX), None)?,
        }
        Ok(self.next_type())
    }

    /// Puts a function of a type under its name, or under its number.
    pub fn put_function(&mut self, name: &Text, number: u32, ty: u32) -> Result<(), NoMemory> {
        let desc = ExternDesc::Func(ty);
        match self.form {
            Form::Instance => self.declare(name, desc)?,
            Form::Adapter => self.lift(ty)?,
            Form::In => self.import_function(number, desc)?,
            Form::Out => self.export(name, Sort::Func, self.functions, Some(desc))?,
        }
        self.functions = self.functions.saturating_add(1);
        Ok(())
    }

    fn declare(&mut self, name: &Text, desc: ExternDesc) -> Result<(), NoMemory> {
        let name = Apart::new(self.alloc, name.copy(self.alloc)?)?;
        self.declared.push(TypeItem::Export { name, desc })
    }

    fn lift(&mut self, ty: u32) -> Result<(), NoMemory> {
        self.lifted.push(ty)?;
        Ok(())
    }

    fn import_type(&mut self, desc: ExternDesc) -> Result<(), NoMemory> {
        let name = type_name(self.alloc, self.put)?;
        self.put = self.put.saturating_add(1);
        self.sections.import(ComponentImport { name, desc })
    }

    fn import_function(&mut self, number: u32, desc: ExternDesc) -> Result<(), NoMemory> {
        let name = function_name(self.alloc, number)?;
        self.sections.import(ComponentImport { name, desc })
    }

    fn export(
        &mut self,
        name: &Text,
        sort: Sort,
        index: u32,
        desc: Option<ExternDesc>,
    ) -> Result<(), NoMemory> {
        let name = name.copy(self.alloc)?;
        self.sections.export(ComponentExport {
            name,
            sort,
            index,
            desc,
        })
    }
}

/// The name under which a shim imports a type.
pub fn type_name(alloc: Global, place: u32) -> Result<Text, NoMemory> {
    Ok(Text::from_string(format!(in alloc; "t{place}")?))
}

/// The name under which a shim imports a function.
pub fn function_name(alloc: Global, number: u32) -> Result<Text, NoMemory> {
    Ok(Text::from_string(format!(in alloc; "f{number}")?))
}
