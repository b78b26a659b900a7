//! Keys of tables (TOML 1.0) and their paths: the value at a key, the refusal of unknown keys, and faults at a path.

ghost use Rattle.std.specs.Prelude.{◌≡◌, map, option_map, Err};
ghost use Rattle.std.specs.List.{list_any};
ghost use Rattle.std.specs.Str.{bytes_eq};
ghost use Rattle.toml.specs.Data.{get_member};
ghost use Rattle.toml.specs.View.{table_view, view};
ghost use Rattle.policy_toml.specs.Reading.{Gives};
ghost use Rattle.policy_toml.specs.Keys.{below, nth, first_unknown, known_keys, IsText};
ghost use Rattle.policy_data.specs.declared.fault.ReadPolicyFault.TheVariants.{BadKey, BadValue, BadName, OverLimit};

use policy_data::ReadPolicyFault;
use std::alloc::Global;
use toml::{Table, Value};
use virt_base::Text;

/// The value of a table at a key.
pub fn member_of<'a>(table: &'a Table, key: &str) -> Option<&'a Value>
    ensures { option_map (λ v. view v.now) result ≡ get_member key.now (table_view table.now) }
{
    table.get(key)
}

fn is_listed(key: &str, known: &[&str]) -> bool
    ensures { result ≡ list_any (λ k. bytes_eq key.now k.now) known.now }
{
    known.iter().any(|k| key == *k)
}

fn first_unknown<'a>(table: &'a Table, known: &[&str]) -> Option<&'a str>
    ensures { option_map (λ s. s.now) result ≡ first_unknown (map (λ k. k.now) known.now) (table_view table.now) }
{
    for (key, _) in table {
        if !is_listed(key.as_str(), known) {
            return Some(key.as_str());
        }
    }
    None
}

/// Refuses a key of the table at a path that is not among those that are known.
pub fn known_keys(
    alloc: Global,
    path: &str,
    known: &[&str],
    table: &Table,
) -> Result<(), ReadPolicyFault>
    ensures { Gives (known_keys path.now (map (λ k. k.now) known.now) (table_view table.now)) result }
{
    match first_unknown(table, known) {
        None => Ok(()),
        Some(key) => bad_key(alloc, path, key),
    }
}

fn bad_key(alloc: Global, path: &str, key: &str) -> Result<(), ReadPolicyFault>
    ensures { Gives (Err (BadKey (below path.now key.now))) result }
{
    let path = path_of(alloc, path, key)?;
    Err(ReadPolicyFault::BadKey(path))
}

pub fn bad_value<T>(alloc: Global, path: &str) -> Result<T, ReadPolicyFault>
    ensures { Gives (Err (BadValue path.now)) result }
{
    let path = Text::from_str(alloc, path)?;
    Err(ReadPolicyFault::BadValue(path))
}

pub fn bad_name<T>(alloc: Global, path: &str) -> Result<T, ReadPolicyFault>
    ensures { Gives (Err (BadName path.now)) result }
{
    let path = Text::from_str(alloc, path)?;
    Err(ReadPolicyFault::BadName(path))
}

pub fn over_limit<T>(alloc: Global, path: &str, value: u64) -> Result<T, ReadPolicyFault>
    ensures { Gives (Err (OverLimit path.now value)) result }
{
    let path = Text::from_str(alloc, path)?;
    Err(ReadPolicyFault::OverLimit(path, value))
}

/// The path of a key below a path, which is empty at the top.
pub fn path_of(alloc: Global, path: &str, key: &str) -> Result<Text, ReadPolicyFault>
    ensures { IsText (below path.now key.now) result }
{
    if path.is_empty() {
        return Ok(Text::from_str(alloc, key)?);
    }
    let Ok(chars) = format!(in alloc; "{path}.{key}") else {
        return Err(ReadPolicyFault::NoMemory);
    };
    Ok(Text::from_string(chars))
}

/// The path of an item of the array at a path.
pub fn nth_of(alloc: Global, path: &str, index: usize) -> Result<Text, ReadPolicyFault>
    ensures { IsText (nth path.now index) result }
{
    let Ok(chars) = format!(in alloc; "{path}[{index}]") else {
        return Err(ReadPolicyFault::NoMemory);
    };
    Ok(Text::from_string(chars))
}
