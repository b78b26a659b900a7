//! Scripts that are read, and lines that are printed.

use crate::headings::last_function;
use host_port::{HostCall, HostFunc, Observation};
use host_script::{Calls, ExportType, ExportTypes, Script, ScriptFault, read_script};
use script_lines::print_observation;
use std::alloc::Global;
use std::rc::Rc;
use std::test::Fail;
use wasi_table::Interface;
use wit_types::{FuncType, Values, WitType, copy_func};

/// The functions of an interface, as those that can be called.
pub fn exports_of(alloc: Global, interface: &Interface) -> Result<ExportTypes, Fail> {
    let mut exports = ExportTypes::none(alloc);
    for function in interface.functions.as_slice() {
        exports.push(ExportType {
            name: function.name.copy(alloc)?,
            ty: copy_func(alloc, &function.ty)?,
        })?;
    }
    Ok(exports)
}

/// The script with these answers and one call, of the last function with these arguments.
pub fn script_of(
    alloc: Global,
    interface: &Interface,
    answers: &str,
    args: &str,
) -> Result<Result<Script, ScriptFault>, Fail> {
    let name = last_function(interface)?.name.as_str();
    let json = format!(in alloc; "{{\"answers\":[{answers}],\"calls\":[[\"{name}\",[{args}]]]}}")?;
    let exports = exports_of(alloc, interface)?;
    Ok(read_script(alloc, json.as_bytes(), &exports))
}

/// The arguments of the last call.
pub fn args_in(calls: Calls) -> Result<Values, Fail> {
    let mut calls = calls.into_vec();
    match calls.pop() {
        Some(call) => Ok(call.args),
        None => Err(Fail::from("no call")),
    }
}

/// The path of a fault after `at|`.
pub fn fault_in_words(alloc: Global, fault: &ScriptFault) -> Result<String, Fail> {
    match fault {
        ScriptFault::BadScript(path) => {
            let mut text = String::from_str(alloc, "at|")?;
            text.push_str(path.as_str())?;
            Ok(text)
        }
        ScriptFault::NoMemory => Err(Fail::from("no memory")),
    }
}

/// A call of the last function with these arguments.
pub fn call_of(alloc: Global, interface: &Interface, args: Values) -> Result<HostCall, Fail> {
    let called = last_function(interface)?;
    let interface = interface.name.copy(alloc)?;
    let function = called.name.copy(alloc)?;
    let FuncType { params, result } = copy_func(alloc, &called.ty)?;
    let func = HostFunc {
        interface,
        function,
        params,
        result,
    };
    Ok(HostCall {
        func: Rc::new(alloc, func)?,
        args,
    })
}

/// The line of an observation without its end.
pub fn line(
    alloc: Global,
    observation: &Observation,
    ty: Option<&WitType>,
) -> Result<String, Fail> {
    let mut line = String::from_utf8(print_observation(alloc, observation, ty)?)?;
    match line.pop() {
        Some('\n') => Ok(line),
        _ => Err(Fail::from("no end of line")),
    }
}
