//! The listed interfaces, by the names that rows give.

use std::alloc::Global;
use std::test::Fail;
use virt_base::{NoMemory, Text};
use wasi_listed::{INTERFACES, describe};
use wasi_table::{Interface, NamedFunc};

pub fn described(alloc: Global) -> Result<Vec<Interface>, NoMemory> {
    let mut interfaces = Vec::new(alloc);
    for number in 0..INTERFACES {
        interfaces.push(describe(alloc, number)?)?;
    }
    Ok(interfaces)
}

/// The name with the first version, as `wasi:io/poll@0.2.0`.
pub fn versioned(alloc: Global, interface: &Interface) -> Result<Text, Fail> {
    let name = interface.name.as_str();
    Ok(Text::from_string(format!(in alloc; "{name}@0.2.0")?))
}

/// The number of the interface whose name ends so.
pub fn number_of(interfaces: &[Interface], end: &str) -> Result<u32, Fail> {
    match interfaces
        .iter()
        .position(|i| i.name.as_str().ends_with(end))
    {
        Some(place) => Ok(u32::try_from(place)?),
        None => Err(Fail::from("no interface")),
    }
}

/// The interface that defines a resource.
pub fn home_of<'a>(interfaces: &'a [Interface], resource: &str) -> Result<&'a Interface, Fail> {
    for interface in interfaces {
        if interface
            .types
            .as_slice()
            .iter()
            .any(|t| t.name.as_str() == resource)
        {
            return Ok(interface);
        }
    }
    Err(Fail::from("no resource"))
}

/// The first function of a name, in an interface whose name ends so; and that interface.
pub fn function_in<'a>(
    interfaces: &'a [Interface],
    end: &str,
    name: &str,
) -> Result<(&'a Interface, &'a NamedFunc), Fail> {
    for interface in interfaces {
        let found = interface
            .functions
            .as_slice()
            .iter()
            .find(|f| f.name.as_str() == name);
        if let Some(function) = found
            && interface.name.as_str().ends_with(end)
        {
            return Ok((interface, function));
        }
    }
    Err(Fail::from("no function"))
}
