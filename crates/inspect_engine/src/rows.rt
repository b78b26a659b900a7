//! An imported function as a row of the report: its name, its interface, and what becomes of its calls.

ghost use Rattle.std.specs.Prelude.{◌≡◌, ◌++◌, ◌<◌, IfOk, OnOk, map};
ghost use Rattle.wasi_table.specs.Plain.{plain_interface, plain_named_func};
ghost use Rattle.wasi_listed.specs.Listed.{described};
ghost use Rattle.inspect_engine.specs.Rows.{fate_under, if_asked, name_in, row, rows, rows_from, rows_of};

use crate::fate::{Fate, fate_of};
use adapter_world::{import_name, is_asked};
use policy_data::Policy;
use std::alloc::Global;
use virt_base::{Items, NoMemory, Text};
use wasi_listed::{INTERFACES, describe};
use wasi_match::ListedUse;
use wasi_table::NamedFunc;

/// An imported function.
#[derive(Debug, Drop)]
pub struct Row {
    /// The name of the import, `#`, and the function's own name.
    pub name: Text,
    /// The number of the interface.
    pub interface: u32,
    /// What becomes of its calls, where there is a policy.
    pub fate: Option<Fate>,
}

/// Imported functions in the order of their numbers.
pub type Rows = Items<Row>;

/// A name in an import: the import's, `#`, and its own.
fn name_in(alloc: Global, import: &Text, name: &Text) -> Result<Text, NoMemory>
    ensures { IfOk result (λ text. text ≡ name_in import.now name.now) }
{
    let mut text = String::from_str(alloc, import.as_str())?;
    text.push_str("#")?;
    text.push_str(name.as_str())?;
    Ok(Text::from_string(text))
}

fn fate_under(
    policy: &Option<Policy>,
    uses: &[ListedUse],
    interface: u32,
    place: usize,
    function: &NamedFunc,
) -> Option<Fate>
    ensures { result ≡ fate_under policy.now uses.now interface place (plain_named_func function.now) }
{
    match policy {
        None => None,
        Some(policy) => Some(fate_of(policy, uses, interface, place, function)),
    }
}

/// The row of the function at a place of an interface.
fn row_of(
    alloc: Global,
    policy: &Option<Policy>,
    uses: &[ListedUse],
    at: (u32, usize),
    import: &Text,
    function: &NamedFunc,
) -> Result<Row, NoMemory>
    ensures { IfOk result (λ one. one ≡ row policy.now uses.now at.0 import.now at.1 (plain_named_func function.now)) }
{
    let name = name_in(alloc, import, &function.name)?;
    Ok(Row {
        name,
        interface: at.0,
        fate: fate_under(policy, uses, at.0, at.1, function),
    })
}

fn push_if_asked(
    alloc: Global,
    policy: &Option<Policy>,
    uses: &[ListedUse],
    at: (u32, usize),
    import: &Text,
    function: &NamedFunc,
    rows: &mut Rows,
) -> Result<(), NoMemory>
    ensures { OnOk result (rows.new ≡ rows.old ++ if_asked policy.now uses.now at.0 import.now at.1 (plain_named_func function.now)) }
{
    if is_asked(uses, at.0, at.1) {
        let row = row_of(alloc, policy, uses, at, import, function)?;
        rows.push(row)
    } else {
        Ok(())
    }
}

fn push_functions(
    alloc: Global,
    policy: &Option<Policy>,
    uses: &[ListedUse],
    interface: u32,
    import: &Text,
    functions: &[NamedFunc],
    rows: &mut Rows,
) -> Result<(), NoMemory>
    ensures { OnOk result (rows.new ≡ rows.old ++ rows_from policy.now uses.now interface import.now 0 (map plain_named_func functions.now)) }
{
    for place in 0..functions.len() {
        let at = (interface, place);
        push_if_asked(alloc, policy, uses, at, import, &functions[place], rows)?;
    }
    Ok(())
}

/// Adds the imported functions of an interface.
fn push_interface(
    alloc: Global,
    policy: &Option<Policy>,
    uses: &[ListedUse],
    number: u32,
    rows: &mut Rows,
) -> Result<(), NoMemory>
    requires { number < INTERFACES }
    ensures { OnOk result (rows.new ≡ rows.old ++ rows_of policy.now uses.now number (described number)) }
{
    let interface = describe(alloc, number)?;
    let import = import_name(alloc, uses, number, &interface.name)?;
    let functions = interface.functions.as_slice();
    push_functions(alloc, policy, uses, number, &import, functions, rows)
}

/// What is imported, function by function.
#[tactic(auto, using(adapter_world::proofs::Below::counting), unfolding(crate::specs::Rows::rows))]
pub fn rows_for(
    alloc: Global,
    policy: &Option<Policy>,
    uses: &[ListedUse],
) -> Result<Rows, NoMemory>
    ensures { IfOk result (λ found. found ≡ rows policy.now uses.now) }
{
    let mut rows = Items::empty(alloc);
    for number in 0..INTERFACES {
        push_interface(alloc, policy, uses, number, &mut rows)?;
    }
    Ok(rows)
}
