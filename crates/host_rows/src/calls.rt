//! Calls and drops that rows spell.
//!
//! A call is a function's name and its arguments, as JSON: `poll [[0]]`; that of a method stands without `[method]`. In front of the name may stand an
//! interface and `#`: one with its version, which is called as it stands, or the end of its name. After the name may stand `=` and another
//! function, whose types the call has: `wasi:a/b@0.2.0#f=poll [[0]]`.

use crate::interfaces::{function_in, home_of, versioned};
use crate::texts::halves;
use host_port::{HostCall, HostFunc, Resource};
use host_script::{Call, ExportType, ExportTypes, Script, ScriptFault, read_script};
use std::alloc::Global;
use std::rc::Rc;
use std::test::Fail;
use virt_base::Text;
use wasi_table::{Interface, NamedFunc};
use wit_types::{FuncType, Values, copy_func};

/// The script of these answers and calls.
pub fn script_of(
    alloc: Global,
    exports: &ExportTypes,
    answers: &str,
    calls: &str,
) -> Result<Script, Fail> {
    let json = format!(in alloc; "{{\"answers\":[{answers}],\"calls\":[{calls}]}}")?;
    match read_script(alloc, json.as_bytes(), exports) {
        Ok(script) => Ok(script),
        Err(_) => Err(Fail::from("no script")),
    }
}

fn first_args(calls: Vec<Call>) -> Result<Values, Fail> {
    match calls.into_iter().next() {
        Some(call) => Ok(call.args),
        None => Err(Fail::from("no call")),
    }
}

/// Arguments of a function's types.
fn args_of(alloc: Global, ty: &FuncType, args: &str) -> Result<Values, Fail> {
    let mut exports = ExportTypes::none(alloc);
    exports.push(ExportType {
        name: Text::from_str(alloc, "f")?,
        ty: copy_func(alloc, ty)?,
    })?;
    let call = format!(in alloc; "[\"f\",{args}]")?;
    let script = script_of(alloc, &exports, "", call.as_str())?;
    first_args(script.calls.into_vec())
}

/// The name as it is listed.
fn listed(alloc: Global, name: &str) -> Result<String, Fail> {
    Ok(if name.contains('.') {
        format!(in alloc; "[method]{name}")?
    } else {
        String::from_str(alloc, name)?
    })
}

/// The interface and the name, where a name may stand alone.
fn apart(name: &str) -> (&str, &str) {
    match name.split_once('#') {
        Some(parts) => parts,
        None => ("", name),
    }
}

/// The function of a name, and its interface.
fn named<'a>(
    alloc: Global,
    interfaces: &'a [Interface],
    name: &str,
) -> Result<(&'a Interface, &'a NamedFunc), Fail> {
    let (interface, name) = apart(name);
    let (end, _) = halves(interface, "@");
    function_in(interfaces, end, listed(alloc, name)?.as_str())
}

/// The interface and the name that a call has.
fn called_as(alloc: Global, interfaces: &[Interface], called: &str) -> Result<(Text, Text), Fail> {
    let (interface, name) = apart(called);
    let interface = if interface.contains('@') {
        Text::from_str(alloc, interface)?
    } else {
        versioned(alloc, named(alloc, interfaces, called)?.0)?
    };
    Ok((interface, Text::from_string(listed(alloc, name)?)))
}

/// A call of these names and types.
fn made(alloc: Global, names: (Text, Text), ty: &FuncType, args: &str) -> Result<HostCall, Fail> {
    let args = args_of(alloc, ty, args)?;
    let FuncType { params, result } = copy_func(alloc, ty)?;
    let (interface, function) = names;
    let func = HostFunc {
        interface,
        function,
        params,
        result,
    };
    Ok(HostCall {
        func: Rc::new(alloc, func)?,
        args,
    })
}

pub fn call_of(alloc: Global, interfaces: &[Interface], spelled: &str) -> Result<HostCall, Fail> {
    let (names, args) = halves(spelled, " ");
    let (called, typed) = halves(names, "=");
    let typed = if typed.is_empty() { called } else { typed };
    let function = named(alloc, interfaces, typed)?.1;
    made(
        alloc,
        called_as(alloc, interfaces, called)?,
        &function.ty,
        args,
    )
}

/// A resource by its name, or by an interface with its version, `#` and its name.
pub fn resource_of(
    alloc: Global,
    interfaces: &[Interface],
    spelled: &str,
) -> Result<Resource, Fail> {
    let (interface, name) = apart(spelled);
    Ok(Resource {
        interface: if interface.is_empty() {
            versioned(alloc, home_of(interfaces, name)?)?
        } else {
            Text::from_str(alloc, interface)?
        },
        name: Text::from_str(alloc, name)?,
    })
}
