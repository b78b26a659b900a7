//! The traits by which values and tables of a TOML document (TOML 1.0) are read, and what is common to their readers: keys that may be
//! absent, keys that have to be there, and tables with known keys alone.

ghost use Rattle.std.specs.Prelude.{◌≡◌, List, ℕ, Result, map};
ghost use Rattle.toml.specs.Data.{Data, Members};
ghost use Rattle.toml.specs.View.{table_view, view};
ghost use Rattle.policy_toml.specs.Reading.{Gives};
ghost use Rattle.policy_toml.specs.Keys.{optional, required, part, table_in};
ghost use Rattle.policy_data.specs.declared.fault.ReadPolicyFault.{ReadPolicyFault};

use crate::keys::{bad_value, known_keys, member_of, path_of};
use policy_data::ReadPolicyFault;
use std::alloc::Global;
use toml::{Table, Value};

/// Reads the value at a path.
pub trait Reader {
    type Item: Drop;

    /// What it stands for, or its first fault.
    ghost reads: { Self → List ℕ → Data → Result Self.Item ReadPolicyFault };

    fn read(&self, alloc: Global, path: &str, value: &Value) -> Result<Self::Item, ReadPolicyFault>
        ensures { Gives (reads self.now path.now (view value.now)) result };
}

/// The value at a key, or another where the key is absent.
pub fn optional<R: Reader>(
    alloc: Global,
    path: &str,
    key: &str,
    other: R::Item,
    reader: &R,
    table: &Table,
) -> Result<R::Item, ReadPolicyFault>
    ensures { Gives (optional path.now key.now other (R.reads reader.now) (table_view table.now)) result }
{
    match member_of(table, key) {
        None => Ok(other),
        Some(value) => {
            let path = path_of(alloc, path, key)?;
            reader.read(alloc, path.as_str(), value)
        }
    }
}

/// The value at a key that has to be there.
pub fn required<R: Reader>(
    alloc: Global,
    path: &str,
    key: &str,
    reader: &R,
    table: &Table,
) -> Result<R::Item, ReadPolicyFault>
    ensures { Gives (required path.now key.now (R.reads reader.now) (table_view table.now)) result }
{
    let path = path_of(alloc, path, key)?;
    match member_of(table, key) {
        None => bad_value(alloc, path.as_str()),
        Some(value) => reader.read(alloc, path.as_str(), value),
    }
}

/// Reads the values of a table at a path.
pub trait TableReader {
    type Item: Drop;

    /// The keys that it may have.
    ghost known: { Self → List (List ℕ) };

    /// What its values stand for, or their first fault.
    ghost fields: { Self → List ℕ → Members → Result Self.Item ReadPolicyFault };

    fn known(&self) -> &'static [&'static str]
        ensures { map (λ k. k.now) result.now ≡ known self.now };

    fn fields(
        &self,
        alloc: Global,
        path: &str,
        table: &Table,
    ) -> Result<Self::Item, ReadPolicyFault>
        ensures { Gives (fields self.now path.now (table_view table.now)) result };
}

/// A table without other keys than those that are known.
#[derive(Drop)]
pub struct Known<R>(pub R);

impl<R: TableReader> Reader for Known<R> {
    type Item = R::Item;

    ghost reads = { λ s. table_in (R.known s.0) (R.fields s.0) };

    fn read(&self, alloc: Global, path: &str, value: &Value) -> Result<R::Item, ReadPolicyFault> {
        let table = match value.as_table() {
            Some(table) => table,
            None => return bad_value(alloc, path),
        };
        known_keys(alloc, path, self.0.known(), table)?;
        self.0.fields(alloc, path, table)
    }
}

/// The table at a key of the document, which is empty where the key is absent.
pub fn part<R: TableReader + Drop>(
    alloc: Global,
    key: &str,
    reader: R,
    table: &Table,
) -> Result<R::Item, ReadPolicyFault>
    ensures { Gives (part key.now (R.known reader) (R.fields reader) (table_view table.now)) result }
{
    match member_of(table, key) {
        None => {
            let empty = Table::new(alloc);
            reader.fields(alloc, key, &empty)
        }
        Some(value) => Known(reader).read(alloc, key, value),
    }
}
