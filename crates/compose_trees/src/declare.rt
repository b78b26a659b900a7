//! Types and functions of interfaces, declared in a scope one after another.

use crate::catalogue::{Catalogue, ListedType};
use crate::queue::Queue;
use crate::scope::{Form, Scope};
use crate::standing::Standing;
use crate::types::{definition, function_type};
use std::alloc::Global;
use virt_base::{NoMemory, Text};
use wasi_table::{Meaning, NamedFunc};

/// A function that is declared: its number, its interface, and the names of its parameters.
#[derive(Clone, Copy)]
pub struct Declared<'a> {
    pub number: u32,
    pub interface: u32,
    pub function: &'a NamedFunc,
    pub params: &'a [Text],
}

/// Declares types in order. Where one stands already its index is given: in an instance type that of the scope around it, in what a
/// shim exports that of what came in, unless the type names another one.
pub fn declare_types(
    scope: &mut Scope<'_>,
    catalogue: &Catalogue,
    around: &Standing,
    numbers: &[usize],
) -> Result<(), NoMemory> {
    for number in numbers {
        if let Some(listed) = catalogue.get(*number) {
            declare_type(scope, catalogue, around, *number, listed)?;
        }
    }
    Ok(())
}

fn declare_type(
    scope: &mut Scope<'_>,
    catalogue: &Catalogue,
    around: &Standing,
    number: usize,
    listed: &ListedType,
) -> Result<(), NoMemory> {
    let index = match given(scope, around, number, listed)? {
        Some(index) => Some(index),
        None => defined(scope, catalogue, listed)?,
    };
    let put = scope.put_type(&listed.named.name, index)?;
    scope.standing.set(number, put);
    Ok(())
}

/// The index that a type has already.
fn given(
    scope: &mut Scope<'_>,
    around: &Standing,
    number: usize,
    listed: &ListedType,
) -> Result<Option<u32>, NoMemory> {
    match scope.form {
        Form::Instance => match around.get(number) {
            Some(index) => Ok(Some(scope.alias_outer(index)?)),
            None => Ok(None),
        },
        Form::In => Ok(None),
        Form::Adapter => Ok(scope.standing.get(number)),
        Form::Out => {
            if listed.parts.is_empty() {
                Ok(scope.standing.get(number))
            } else {
                Ok(None)
            }
        }
    }
}

/// The index of a value type's definition; a kind has none.
fn defined(
    scope: &mut Scope<'_>,
    catalogue: &Catalogue,
    listed: &ListedType,
) -> Result<Option<u32>, NoMemory> {
    match &listed.named.meaning {
        Meaning::Kind(_) => Ok(None),
        Meaning::Value(ty) => {
            let mut queue = Queue::new(catalogue, listed.parts.as_slice());
            let def = definition(scope, &mut queue, ty)?;
            Ok(Some(scope.define(def)?))
        }
    }
}

/// Declares functions in order: the types of all, then each is put.
pub fn declare_functions(
    scope: &mut Scope<'_>,
    catalogue: &Catalogue,
    functions: &[Declared<'_>],
) -> Result<(), NoMemory> {
    let mut types = Vec::new(scope.alloc);
    for function in functions {
        types.push(declare_function(scope, catalogue, *function)?)?;
    }
    put_functions(scope, functions, types.as_slice())
}

fn put_functions(
    scope: &mut Scope<'_>,
    functions: &[Declared<'_>],
    types: &[u32],
) -> Result<(), NoMemory> {
    for (place, function) in functions.iter().enumerate() {
        let ty = type_at(types, place);
        scope.put_function(&function.function.name, function.number, ty)?;
    }
    Ok(())
}

fn type_at(types: &[u32], place: usize) -> u32 {
    match types.get(place) {
        Some(ty) => *ty,
        None => u32::MAX,
    }
}

/// Defines the type of a function: its index.
fn declare_function(
    scope: &mut Scope<'_>,
    catalogue: &Catalogue,
    function: Declared<'_>,
) -> Result<u32, NoMemory> {
    let alloc = scope.alloc;
    let numbers = names_of(alloc, catalogue, function)?;
    let mut queue = Queue::new(catalogue, numbers.as_slice());
    function_type(scope, &mut queue, &function.function.ty, function.params)
}

/// The numbers of the types with which a function's type is written, in order.
pub fn names_of(
    alloc: Global,
    catalogue: &Catalogue,
    function: Declared<'_>,
) -> Result<Vec<usize>, NoMemory> {
    catalogue.numbers(
        alloc,
        function.interface,
        function.function.names.as_slice(),
    )
}
