//! Which names of an interface are among some.

ghost use Rattle.std.specs.Prelude.{◌≡◌, ◌++◌, IfOk, OnOk, map};
ghost use Rattle.std.specs.List.{flat_map};
ghost use Rattle.wasi_table.specs.Plain.{plain_named, PlainNamed};
ghost use Rattle.wasi_table.specs.declared.interface.Use.{Use};
ghost use Rattle.adapter_world.specs.Names.{if_among};

use crate::reach::is_among;
use crate::type_names::TypeName;
use std::alloc::Global;
use virt_base::{Items, NoMemory, Text};
use wasi_table::{NamedType, Use};
use wit_types::Labels;

fn push_if_among(
    alloc: Global,
    among: &[TypeName],
    interface: u32,
    name: &Text,
    shown: &mut Labels,
) -> Result<(), NoMemory>
    ensures { OnOk result (shown.new ≡ shown.old ++ if_among among.now interface name.now) }
{
    if is_among(among, interface, name) {
        let name = name.copy(alloc)?;
        shown.push(name)
    } else {
        Ok(())
    }
}

/// Those of the types that an interface uses that are among these.
pub fn shown_uses(
    alloc: Global,
    among: &[TypeName],
    interface: u32,
    uses: &[Use],
) -> Result<Labels, NoMemory>
    ensures { IfOk result (λ shown. shown ≡ flat_map (λ (u : Use). if_among among.now interface u.name) uses.now) }
{
    let mut shown = Items::empty(alloc);
    for i in 0..uses.len() {
        push_if_among(alloc, among, interface, &uses[i].name, &mut shown)?;
    }
    Ok(shown)
}

/// Those of an interface's own types that are among these.
pub fn shown_types(
    alloc: Global,
    among: &[TypeName],
    interface: u32,
    types: &[NamedType],
) -> Result<Labels, NoMemory>
    ensures { IfOk result (λ shown. shown ≡ flat_map (λ (t : PlainNamed). if_among among.now interface t.name) (map plain_named types.now)) }
{
    let mut shown = Items::empty(alloc);
    for i in 0..types.len() {
        push_if_among(alloc, among, interface, &types[i].name, &mut shown)?;
    }
    Ok(shown)
}
