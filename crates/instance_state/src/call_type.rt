//! The type of a function as calls use it: how its parameters and its result pass.

ghost use Rattle.std.specs.Prelude.{◌≡◌, ◌≤◌, length, IfOk};
ghost use Rattle.abi_layout.specs.Functions.{core_params};
ghost use Rattle.comp_facts.specs.Measures.{func_parts};
ghost use Rattle.instance_state.specs.Functions.{IsPassedAs};

use crate::PassedFunc;
use comp_types::KnownFunc;
use std::alloc::Global;
use std::marker::Model;
use std::rc::Rc;
use virt_base::NoMemory;

/// The type of a function, as calls use it.
#[derive(Debug, Drop)]
pub struct CallType {
    func: Rc<KnownFunc>,
    passed: PassedFunc,
    flat: usize,
}

impl Model for CallType {
    ghost use Rattle.wit_types.specs.Plain.{PlainFunc};
    ghost use Rattle.instance_state.specs.Calls.{IsCallOf};
    ghost use Rattle.comp_types.specs.Codes.{func_code};

    ghost Value = { PlainFunc };

    ghost coded = { func_code };

    ghost view = { λ c. c.func.value };

    ghost invariant = { λ c. IsCallOf c.func.value c.passed c.flat };
}

impl CallType {
    /// The type of calls of a function.
    pub fn new(alloc: Global, func: Rc<KnownFunc>) -> Result<CallType, NoMemory>
        requires { func_parts func.value ≤ 1000000 }
        ensures { IfOk result (λ ty. ty ≡ func.value) }
    {
        let passed = PassedFunc::new(alloc, func.ty())?;
        let facts = func.facts();
        let flat = if facts.params_spill() {
            1
        } else {
            facts.params.fields.count as usize
        };
        Ok(CallType { func, passed, flat })
    }

    /// The type of the function itself.
    pub fn func(&self) -> &KnownFunc
        ensures { result.now ≡ self.now }
    {
        &self.func
    }

    /// How its parameters and its result pass.
    pub fn passed(&self) -> &PassedFunc
        ensures { IsPassedAs result.now self.now }
    {
        &self.passed
    }

    /// How many core parameters stand before the place of a result that goes through memory.
    pub fn flat_params(&self) -> usize
        ensures { result ≡ length (core_params self.now) }
    {
        self.flat
    }
}
