//! The listed interfaces with their versions, in which functions, kinds and resources are found by name.

ghost use Rattle.std.specs.Prelude.{◌≡◌, ◌<◌, IfOk, IfSome, length, option_map};
ghost use Rattle.std.specs.List.{find};
ghost use Rattle.std.specs.Option.{option_copied};
ghost use Rattle.std.specs.Str.{bytes_eq};
ghost use Rattle.wit_types.specs.Plain.{plain_func};
ghost use Rattle.reference_step.specs.Listed.{interface_named, interface_numbered, kind_named, listed_function};
ghost use Rattle.ref_answers.specs.Versions.{IsSmall, plain_found, resource_in, version_in};

use crate::described::described;
use crate::names::{cut, place_named};
use crate::resources::{home_of, kind_named, name_of, stands_in, versioned};
use host_port::Resource;
use std::alloc::Global;
use std::marker::Model;
use virt_base::{NoMemory, Text};
use wasi_listed::INTERFACES;
use wasi_table::{Interface, NamedFunc};

/// The listed interfaces, each with the version under which it is listed.
///
/// Contracts see the versions by the numbers of interfaces.
#[derive(Debug, Drop)]
pub struct ListedTable {
    versions: Vec<Text>,
    interfaces: Vec<Interface>,
}

impl Model for ListedTable {
    ghost use Rattle.std.specs.Prelude.{List};
    ghost use Rattle.wit_types.specs.Plain.{Name};
    ghost use Rattle.ref_answers.specs.Versions.{AreListed};

    ghost Value = { List Name };

    ghost view = { λ t. t.versions.items };

    ghost invariant = { λ t. AreListed t.versions.items t.interfaces.items };
}

/// A listed function, and the number of its interface.
#[derive(Debug, Clone, Copy)]
pub struct Found<'a> {
    pub interface: u32,
    pub function: &'a NamedFunc,
}

fn function_by<'a>(functions: &'a [NamedFunc], name: &str) -> Option<&'a NamedFunc>
    ensures { option_copied result ≡ find (λ f. bytes_eq f.name name.now) functions.now }
{
    functions.iter().find(|f| f.name.as_str() == name)
}

impl ListedTable {
    /// The table of all listed interfaces under these versions.
    pub fn new(alloc: Global, versions: Vec<Text>) -> Result<ListedTable, NoMemory>
        requires { length versions.items ≡ 27 }
        ensures { IfOk result (λ t. t ≡ versions.items) }
    {
        let interfaces = described(alloc)?;
        Ok(ListedTable {
            versions,
            interfaces,
        })
    }

    /// The number of the interface with a name without version.
    fn number(&self, name: &str) -> Option<u32>
        ensures value { result ≡ interface_numbered name.now }
        ensures bound { IfSome result (λ number. number < 27) }
    {
        match place_named(&self.interfaces, name) {
            Some(place) => Some(place as u32),
            None => None,
        }
    }

    /// The number of the interface of a name with the version under which it is listed.
    fn interface(&self, name: &str) -> Option<u32>
        ensures value { result ≡ interface_named (version_in self.now) name.now }
        ensures bound { IfSome result (λ number. number < 27) }
    {
        let (before, version) = cut(name);
        let number = self.number(before)?;
        if self.versions[number as usize].as_str() == version {
            Some(number)
        } else {
            None
        }
    }

    /// The listed function with these names, the first of them with its version.
    pub fn function(&self, interface: &str, name: &str) -> Option<Found<'_>>
        ensures value { option_map plain_found result ≡ listed_function (version_in self.now) interface.now name.now }
        // Its types are small enough to be noted.
        ensures small { IfSome result (λ f. IsSmall (plain_func f.function.now.ty)) }
    {
        let number = self.interface(interface)?;
        let functions = self.interfaces[number as usize].functions.as_slice();
        match function_by(functions, name) {
            Some(function) => Some(Found {
                interface: number,
                function,
            }),
            None => None,
        }
    }

    /// The kind of a resource, by any listed interface in which its name stands.
    pub fn kind(&self, resource: &Resource) -> Option<u32>
        ensures value { result ≡ kind_named (version_in self.now) resource.now }
        ensures bound { IfSome result (λ kind. kind < 14) }
    {
        let number = self.interface(resource.interface.as_str())?;
        let name = resource.name.as_str();
        if stands_in(name, &self.interfaces[number as usize]) {
            kind_named(name)
        } else {
            None
        }
    }

    /// The resource of a kind, by the interface that defines it.
    pub fn resource(&self, alloc: Global, kind: u32) -> Result<Resource, NoMemory>
        requires { kind < 14 }
        ensures { IfOk result (λ r. r ≡ resource_in (version_in self.now) kind) }
    {
        let home = home_of(kind) as usize;
        let interface = versioned(alloc, &self.interfaces[home].name, &self.versions[home])?;
        let name = Text::from_str(alloc, name_of(kind))?;
        Ok(Resource { interface, name })
    }
}
