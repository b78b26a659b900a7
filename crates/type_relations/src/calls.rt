//! The type of a function with other resources, over a table of its own.

#![tactic(auto, using(wit_types::proofs::PlainLemmas::plains))]

ghost use Rattle.std.specs.Prelude.{◌≡◌, IfOk, OnOk};
ghost use Rattle.wit_types.specs.Plain.{fields_of, plain_func, plain_result};
ghost use Rattle.comp_types.specs.Substitution.{partner_in, func_with};
ghost use Rattle.type_table.specs.Tables.{IsSound, HasParts, HasAnswer, HasFunc, Grew};

use comp_types::{KnownFunc, Substitution};
use std::alloc::Global;
use std::rc::Rc;
use type_table::{Making, TypeTable};
use virt_base::NoMemory;
use wit_types::{Field, FuncType, WitType};

fn add_params(alloc: Global, types: &mut TypeTable, params: &[Field]) -> Result<(), NoMemory>
    ensures { OnOk result (IsSound types.old → IsSound types.new × HasParts types.new (fields_of params.now)) }
{
    for param in params {
        types.add_whole(alloc, &param.ty)?;
    }
    Ok(())
}

fn add_answer(
    alloc: Global,
    types: &mut TypeTable,
    answer: &Option<WitType>,
) -> Result<(), NoMemory>
    ensures { OnOk result (IsSound types.old → Grew types.old types.new × HasAnswer types.new (plain_result answer.now)) }
{
    match answer {
        None => Ok(()),
        Some(ty) => {
            types.add_whole(alloc, ty)?;
            Ok(())
        }
    }
}

/// A table with the types of a function.
fn table_of(alloc: Global, ty: &FuncType) -> Result<TypeTable, NoMemory>
    ensures { IfOk result (λ types. HasFunc types (plain_func ty.now)) }
{
    let mut types = TypeTable::none(alloc);
    add_params(alloc, &mut types, &ty.params.items)?;
    add_answer(alloc, &mut types, &ty.result)?;
    Ok(types)
}

/// The type of a function with other resources, where no table is at hand.
pub fn func_alone(
    alloc: Global,
    ty: &Rc<KnownFunc>,
    by: &Substitution,
) -> Result<Rc<KnownFunc>, NoMemory>
    ensures { IfOk result (λ new. new.value ≡ func_with (partner_in by.now) ty.now.value) }
{
    let table = table_of(alloc, ty.ty())?;
    let mut making = Making::new(alloc, table, by);
    let new = making.func_with(alloc, ty)?;
    Ok(new)
}
