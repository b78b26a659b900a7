//! A function that a component imports. Its calls share its names and types.

ghost use Rattle.std.specs.Prelude.{◌≡◌, IfOk};
ghost use Rattle.wit_types.specs.PlainValue.{plain_values};
ghost use Rattle.host_port.specs.Calls.{plain_call};

use crate::call_type::CallType;
use host_port::{HostCall, HostFunc};
use std::alloc::Global;
use std::marker::Model;
use std::rc::Rc;
use virt_base::{NoMemory, Text};
use wit_types::{FuncType, Values, copy_func};

/// A function that the component imports: by itself, without an interface, or in an imported instance.
#[derive(Debug, Drop)]
pub struct Import {
    func: Rc<HostFunc>,
    ty: CallType,
}

impl Model for Import {
    ghost use Rattle.std.specs.Prelude.{◌≡◌};
    ghost use Rattle.comp_worlds.specs.Groups.{Import as GroupImport};
    ghost use Rattle.instance_state.specs.Imports.{import_code, import_of};

    ghost Value = { GroupImport };

    ghost coded = { import_code };

    ghost view = { λ i. import_of i.func.value };

    ghost invariant = { λ i. (import_of i.func.value).ty ≡ i.ty };
}

impl Import {
    /// The import of a function by its names: its interface is empty where it stands by itself.
    pub fn new(
        alloc: Global,
        interface: &Text,
        function: &Text,
        ty: CallType,
    ) -> Result<Import, NoMemory>
        ensures { IfOk result (λ import. import ≡ record { interface = interface.now; function = function.now; ty = ty }) }
    {
        let FuncType { params, result } = copy_func(alloc, ty.func().ty())?;
        let func = HostFunc {
            interface: interface.copy(alloc)?,
            function: function.copy(alloc)?,
            params,
            result,
        };
        let func = Rc::new(alloc, func)?;
        Ok(Import { func, ty })
    }

    /// The type by which its calls pass values.
    pub fn ty(&self) -> &CallType
        ensures { result.now ≡ self.now.ty }
    {
        &self.ty
    }

    /// A call of it. The call shares its names and types.
    pub fn call(&self, args: Values) -> Result<HostCall, NoMemory>
        ensures { IfOk result (λ call. plain_call call ≡ record { interface = self.now.interface; function = self.now.function; params = self.now.ty.params; args = plain_values args; answer = self.now.ty.answer }) }
    {
        let func = self.func.clone()?;
        Ok(HostCall { func, args })
    }
}
