//! The functions of a component that can be called, by the names that scripts call them by.

ghost use Rattle.std.specs.Prelude.{◌≡◌, ◌++◌, ◌∷◌, [], IfOk, OnOk};
ghost use Rattle.comp_types.specs.Views.{entries_of, item_of};
ghost use Rattle.host_script.specs.Script.{exports_seen};
ghost use Rattle.component_judge.specs.Callable.{callable, functions_of, inner_functions, inner_name, one_function};

use comp_signature::ComponentType;
use comp_types::{InstanceEntry, ItemType, KnownFunc};
use host_script::{ExportType, ExportTypes};
use std::alloc::Global;
use virt_base::{NoMemory, Text};
use wit_types::copy_func;

fn push(
    alloc: Global,
    exports: &mut ExportTypes,
    name: Text,
    ty: &KnownFunc,
) -> Result<(), NoMemory>
    ensures { OnOk result (exports_seen exports.new ≡ exports_seen exports.old ++ (name, ty.now) ∷ []) }
{
    let ty = copy_func(alloc, ty.ty())?;
    exports.push(ExportType { name, ty })?;
    Ok(())
}

/// The name of a function of an instance.
fn inner_name(alloc: Global, instance: &Text, name: &Text) -> Result<Text, NoMemory>
    ensures { IfOk result (λ inner. inner ≡ inner_name instance.now name.now) }
{
    let mut chars = instance.copy(alloc)?.into_string();
    chars.push_str("#")?;
    chars.push_str(name.as_str())?;
    Ok(Text::from_string(chars))
}

fn push_inner(
    alloc: Global,
    exports: &mut ExportTypes,
    instance: &Text,
    entry: &InstanceEntry,
) -> Result<(), NoMemory>
    ensures { OnOk result (exports_seen exports.new ≡ exports_seen exports.old ++ one_function (inner_name instance.now entry.now.name) (item_of entry.now.ty)) }
{
    match &entry.ty {
        ItemType::Func(ty) => {
            let name = inner_name(alloc, instance, &entry.name)?;
            push(alloc, exports, name, ty)
        }
        ItemType::Instance(_) => Ok(()),
        ItemType::Kind(_) => Ok(()),
    }
}

fn push_instance(
    alloc: Global,
    exports: &mut ExportTypes,
    instance: &Text,
    entries: &[InstanceEntry],
) -> Result<(), NoMemory>
    ensures { OnOk result (exports_seen exports.new ≡ exports_seen exports.old ++ inner_functions instance.now (entries_of entries.now)) }
{
    for entry in entries {
        push_inner(alloc, exports, instance, entry)?;
    }
    Ok(())
}

fn push_functions(
    alloc: Global,
    exports: &mut ExportTypes,
    entry: &InstanceEntry,
) -> Result<(), NoMemory>
    ensures { OnOk result (exports_seen exports.new ≡ exports_seen exports.old ++ functions_of entry.now.name (item_of entry.now.ty)) }
{
    match &entry.ty {
        ItemType::Func(ty) => {
            let name = entry.name.copy(alloc)?;
            push(alloc, exports, name, ty)
        }
        ItemType::Instance(ty) => push_instance(alloc, exports, &entry.name, ty.entries.as_slice()),
        ItemType::Kind(_) => Ok(()),
    }
}

/// The functions that can be called from outside: exported functions by their names, and functions of exported instances by the
/// instance's name, `#` and their own, each in written order.
pub fn callable(alloc: Global, ty: &ComponentType) -> Result<ExportTypes, NoMemory>
    ensures { IfOk result (λ exports. exports_seen exports ≡ callable ty.now.exports) }
{
    let entries = ty.exports.as_slice();
    let mut exports = ExportTypes::none(alloc);
    for entry in entries {
        push_functions(alloc, &mut exports, entry)?;
    }
    Ok(exports)
}
