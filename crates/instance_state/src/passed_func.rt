//! How the parameters of a function pass, as one record, and how its result does, as a tuple of it.

#![tactic(auto)]

ghost use Rattle.std.specs.Prelude.{◌≡◌, ◌<◌, IfOk};
ghost use Rattle.wit_types.specs.Plain.{plain, plain_func, types_of};
ghost use Rattle.wit_types.specs.Limits.{all_parts};
ghost use Rattle.comp_worlds.specs.Passing.{answer_parts};
ghost use Rattle.wit_types.specs.Plain.{plain_result};
ghost use Rattle.instance_state.specs.Functions.{IsPassedAs};

use crate::passed_type::PassedType;
use std::alloc::Global;
use std::rc::Rc;
use virt_base::NoMemory;
use wit_types::{FuncType, Types, WitType, copy_func};

/// The types by which the parameters of a function and its result pass.
#[derive(Debug, Drop)]
pub struct PassedFunc {
    pub params: PassedType,
    pub result: PassedType,
}

/// The type of the result alone, or none.
fn result_types(alloc: Global, answer: Option<WitType>) -> Result<Types, NoMemory>
    ensures { IfOk result (λ types. types_of types.items.items ≡ answer_parts (plain_result answer)) }
{
    let mut items = Vec::new(alloc);
    if let Some(ty) = answer {
        items.push(ty)?;
    }
    Ok(Types { items })
}

impl PassedFunc {
    /// Parameters pass as a record with their names, and a result as a tuple of it. The types in them are shared.
    pub fn new(alloc: Global, func: &FuncType) -> Result<PassedFunc, NoMemory>
        requires params { all_parts (plain_func func.now).params < 1000000 }
        requires result { all_parts (answer_parts (plain_func func.now).answer) < 1000000 }
        ensures { IfOk result (λ passed. IsPassedAs passed (plain_func func.now)) }
    {
        let FuncType { params, result } = copy_func(alloc, func)?;
        let answer = result_types(alloc, result)?;
        let params = WitType::Record(Rc::new(alloc, params)?);
        let result = WitType::Tuple(Rc::new(alloc, answer)?);
        Ok(PassedFunc {
            params: PassedType::params(params),
            result: PassedType::result(result),
        })
    }
}
