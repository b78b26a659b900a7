//! Whether the indexes that core instances, instances and aliases name are there (Component Model, Explainer.md, "Index Spaces").

ghost use Rattle.std.specs.Prelude.{◌≡◌, nat_lt};
ghost use Rattle.std.specs.List.{list_all};
ghost use Rattle.comp_types.specs.Rules.{alias_stands, core_instance_stands, core_item_stands, instance_stands, item_stands};

use crate::types::{is_below, outer_stands};
use comp_types::Lengths;
use wasm_ast::{Alias, CoreArg, CoreExport, CoreInstance, CoreSort, Instance, NamedItem, Sort};

fn core_item_stands(lengths: &Lengths, sort: CoreSort, index: u32) -> bool
    ensures { result ≡ core_item_stands lengths.now sort index }
{
    match sort {
        CoreSort::Func => is_below(index, lengths.core_functions),
        CoreSort::Table => is_below(index, lengths.core_tables),
        CoreSort::Memory => is_below(index, lengths.core_memories),
        CoreSort::Global => is_below(index, lengths.core_globals),
    }
}

/// The index of an item.
pub fn item_stands(lengths: &Lengths, sort: Sort, index: u32) -> bool
    ensures { result ≡ item_stands lengths.now sort index }
{
    match sort {
        Sort::Func => is_below(index, lengths.functions),
        Sort::Type => is_below(index, lengths.types),
        Sort::Instance => is_below(index, lengths.instances),
    }
}

fn core_args_stand(lengths: &Lengths, args: &[CoreArg]) -> bool
    ensures { result ≡ list_all (λ a. nat_lt a.instance lengths.now.core_instances) args.now }
{
    args.iter()
        .all(|a| is_below(a.instance, lengths.core_instances))
}

fn core_exports_stand(lengths: &Lengths, exports: &[CoreExport]) -> bool
    ensures { result ≡ list_all (λ e. core_item_stands lengths.now e.sort e.index) exports.now }
{
    exports
        .iter()
        .all(|e| core_item_stands(lengths, e.sort, e.index))
}

fn items_stand(lengths: &Lengths, items: &[NamedItem]) -> bool
    ensures { result ≡ list_all (λ i. item_stands lengths.now i.sort i.index) items.now }
{
    items.iter().all(|i| item_stands(lengths, i.sort, i.index))
}

/// The indexes of a core instance.
pub fn core_instance_stands(lengths: &Lengths, instance: &CoreInstance) -> bool
    ensures { result ≡ core_instance_stands lengths.now instance.now }
{
    match instance {
        CoreInstance::Instantiate { module, args } => {
            is_below(*module, lengths.core_modules) && core_args_stand(lengths, args.as_slice())
        }
        CoreInstance::Inline { exports } => core_exports_stand(lengths, exports.as_slice()),
    }
}

/// The indexes of an instance.
pub fn instance_stands(lengths: &Lengths, instance: &Instance) -> bool
    ensures { result ≡ instance_stands lengths.now instance.now }
{
    match instance {
        Instance::Instantiate { component, args } => {
            is_below(*component, lengths.components) && items_stand(lengths, args.as_slice())
        }
        Instance::Inline { exports } => items_stand(lengths, exports.as_slice()),
    }
}

/// The index of an alias, with the scope to which it leads if it is an outer one.
pub fn alias_stands(lengths: &Lengths, scope: Option<Lengths>, alias: &Alias) -> bool
    ensures { result ≡ alias_stands lengths.now scope alias.now }
{
    match alias {
        Alias::Export {
            sort: _,
            instance,
            name: _,
        } => is_below(*instance, lengths.instances),
        Alias::CoreExport {
            sort: _,
            instance,
            name: _,
        } => is_below(*instance, lengths.core_instances),
        Alias::Outer {
            sort,
            count: _,
            index,
        } => outer_stands(*sort, *index, scope),
    }
}
