//! The type by which a function is called, with the resources of the group in the place of those of the component.

ghost use Rattle.std.specs.Prelude.{◌≡◌, IfOk};
ghost use Rattle.comp_types.specs.Substitution.{partner_in, func_with};

use comp_types::{KnownFunc, Substitution};
use instance_state::CallType;
use std::alloc::Global;
use std::rc::Rc;
use type_relations::func_alone;
use virt_base::NoMemory;

/// The type of calls of a function. One of more than 1,000,000 parts, which no valid component has, counts as no memory.
pub fn call_type(alloc: Global, func: Rc<KnownFunc>) -> Result<CallType, NoMemory>
    ensures { IfOk result (λ ty. ty ≡ func.value) }
{
    if func.facts().parts() > 1_000_000 {
        return Err(NoMemory);
    }
    CallType::new(alloc, func)
}

/// The same of the function with other resources.
pub fn call_type_with(
    alloc: Global,
    ty: &Rc<KnownFunc>,
    by: &Substitution,
) -> Result<CallType, NoMemory>
    ensures { IfOk result (λ new. new ≡ func_with (partner_in by.now) ty.now.value) }
{
    let func = func_alone(alloc, ty, by)?;
    call_type(alloc, func)
}
