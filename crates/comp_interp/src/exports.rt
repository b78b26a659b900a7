//! The exported function of a name, and where calls of it lead.

ghost use Rattle.std.specs.Prelude.{◌≡◌, List, Some, IfOk, option_map, option_copied, option_and_then};
ghost use Rattle.comp_link.specs.Linking.{Givens as GroupGivens, target_in, exported as exported_by};
ghost use Rattle.instance_state.specs.Targets.{target_of as target_of_group};
ghost use Rattle.instance_making.specs.Made.{IsSame, Holds, AreMade};
ghost use Rattle.instance_making.specs.Named.{found};
ghost use Rattle.comp_interp.specs.Names.{cut, function_in as function_of, instance_in as instance_of};

use instance_making::{Given, Givens, MadeInstances};
use instance_state::Target;
use std::alloc::Global;
use virt_base::{NoMemory, Text};

/// The names of a function that is called from outside.
#[derive(Drop)]
struct Names {
    /// That of the instance in which it is; empty where the component itself exports it.
    interface: Text,
    function: Text,
}

/// What stands before the first `#` of a name, and after it; where it has none, all stands after.
fn cut(name: &str) -> (&str, &str)
    ensures { (result.0.now, result.1.now) ≡ cut name.now }
{
    match name.split_once('#') {
        None => ("", name),
        Some(parts) => parts,
    }
}

/// A name is that of an exported instance, `#` and the function's own, or the function's own alone.
fn names_in(alloc: Global, name: &Text) -> Result<Names, NoMemory>
    ensures { IfOk result (λ names. (names.interface, names.function) ≡ cut name.now) }
{
    let (interface, function) = cut(name.as_str());
    Ok(Names {
        interface: Text::from_str(alloc, interface)?,
        function: Text::from_str(alloc, function)?,
    })
}

fn function_in(item: Option<&Given>) -> Option<&Target>
    ensures { option_map (λ t. t.now) result ≡ function_of (option_copied item.entry) }
{
    match item {
        None => None,
        Some(Given::Func(target)) => Some(target),
        Some(Given::Instance(_)) => None,
        Some(Given::Resource(_)) => None,
        Some(Given::Type) => None,
    }
}

/// What an exported instance exports.
fn instance_in<'a>(made: &'a MadeInstances, item: Option<&Given>) -> Option<&'a Givens>
    ensures { option_map (λ i. i.now) result ≡ instance_of made.now.items (option_copied item.entry) }
{
    match item {
        Some(Given::Instance(number)) => made.get(*number),
        None => None,
        Some(Given::Func(_)) => None,
        Some(Given::Resource(_)) => None,
        Some(Given::Type) => None,
    }
}

fn exported<'a>(made: &'a MadeInstances, exports: &'a Givens, names: &Names) -> Option<&'a Target>
    ensures { (before : List GroupGivens) (givens : GroupGivens) → AreMade made.now.items before → Holds before exports.now givens →
        option_map (λ t. target_of_group t.now) result ≡ target_in (exported_by givens names.now.interface names.now.function) }
{
    if names.interface.as_str().is_empty() {
        return function_in(exports.get(&names.function));
    }
    let items = instance_in(made, exports.get(&names.interface))?;
    function_in(items.get(&names.function))
}

/// Where calls of an exported function lead.
pub fn target_of(
    alloc: Global,
    made: &MadeInstances,
    exports: &Givens,
    name: &Text,
) -> Result<Option<Target>, NoMemory>
    ensures { IfOk result (λ target. (before : List GroupGivens) (givens : GroupGivens) → AreMade made.now.items before → Holds before exports.now givens →
        option_map target_of_group target ≡ target_in (exported_by givens (cut name.now).0 (cut name.now).1)) }
{
    let names = names_in(alloc, name)?;
    match exported(made, exports, &names) {
        None => Ok(None),
        Some(target) => Ok(Some(target.share()?)),
    }
}
