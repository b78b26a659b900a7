//! Flat values as values of core types, as core functions take them.

#![tactic(auto)]

ghost use Rattle.std.specs.Prelude.{◌≡◌, IfOk};
ghost use Rattle.abi_store.specs.Plan.{core_value as value_of, core_values as values_of};
ghost use Rattle.abi_store.specs.Slots.{known};

use crate::target::CoreValues;
use core_store::CoreValue;
use std::alloc::Global;
use virt_base::{CoreType, Items, NoMemory};

fn core_value(ty: CoreType, number: u64) -> CoreValue
    ensures { result ≡ value_of ty number }
{
    match ty {
        CoreType::I64 => CoreValue::I64(number),
        CoreType::I32 | CoreType::Funcref | CoreType::Externref => {
            CoreValue::I32((number % 0x1_0000_0000) as u32)
        }
    }
}

/// Flat values of these core types.
pub fn core_values(
    alloc: Global,
    types: &[CoreType],
    numbers: &[u64],
) -> Result<CoreValues, NoMemory>
    ensures { IfOk result (λ vs. vs ≡ values_of types.now (known numbers.now)) }
{
    let mut values = Vec::new(alloc);
    for index in 0..usize::min(types.len(), numbers.len()) {
        values.push(core_value(types[index], numbers[index]))?;
    }
    Ok(Items::new(values))
}
