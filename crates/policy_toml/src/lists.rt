//! Readers of arrays (TOML 1.0) with a greatest number of items, where an item may depend on those before it.

ghost use Rattle.std.specs.Prelude.{◌≡◌, List as Listed, ℕ, Result, []};
ghost use Rattle.toml.specs.Data.{Data};
ghost use Rattle.toml.specs.View.{array_view, table_view, view};
ghost use Rattle.policy_toml.specs.Reading.{Gives, each_item};
ghost use Rattle.policy_toml.specs.Values.{list_in, each, item_count, member_count};
ghost use Rattle.policy_data.specs.declared.fault.ReadPolicyFault.{ReadPolicyFault};

use crate::keys::{bad_value, nth_of, over_limit};
use crate::reader::Reader;
use policy_data::ReadPolicyFault;
use std::alloc::Global;
use toml::value::Array;
use toml::{Table, Value};
use virt_base::Items;

/// Reads an item of the list at a path, beside the items before it.
pub trait ItemReader {
    type Item: Drop;

    /// What it stands for, or its first fault.
    ghost reads_item: { Self → Listed ℕ → Listed Self.Item → Data → Result Self.Item ReadPolicyFault };

    fn read_item(
        &self,
        alloc: Global,
        path: &str,
        seen: &Items<Self::Item>,
        value: &Value,
    ) -> Result<Self::Item, ReadPolicyFault>
        ensures { Gives (reads_item self.now path.now seen.now (view value.now)) result };
}

/// An item that is read like a value alone.
#[derive(Drop)]
pub struct Each<R>(pub R);

impl<R: Reader> ItemReader for Each<R> {
    type Item = R::Item;

    ghost reads_item = { λ s. each (R.reads s.0) };

    fn read_item(
        &self,
        alloc: Global,
        path: &str,
        seen: &Items<R::Item>,
        value: &Value,
    ) -> Result<R::Item, ReadPolicyFault> {
        let path = nth_of(alloc, path, seen.len())?;
        self.0.read(alloc, path.as_str(), value)
    }
}

/// An array of at most `greatest` items.
#[derive(Drop)]
pub struct List<I> {
    pub greatest: usize,
    pub item: I,
}

impl<I: ItemReader> Reader for List<I> {
    type Item = Items<I::Item>;

    ghost reads = { λ s. list_in s.greatest (I.reads_item s.item) };

    fn read(
        &self,
        alloc: Global,
        path: &str,
        value: &Value,
    ) -> Result<Items<I::Item>, ReadPolicyFault> {
        let array = match value.as_array() {
            Some(array) => array,
            None => return bad_value(alloc, path),
        };
        let count = item_count(array);
        if count > self.greatest {
            return over_limit(alloc, path, count as u64);
        }
        each_item(alloc, path, &self.item, array)
    }
}

fn each_item<I: ItemReader>(
    alloc: Global,
    path: &str,
    reader: &I,
    array: &Array,
) -> Result<Items<I::Item>, ReadPolicyFault>
    ensures { Gives (each_item (I.reads_item reader.now path.now) [] (array_view array.now)) result }
{
    let mut items = Items::empty(alloc);
    for value in array {
        let item = reader.read_item(alloc, path, &items, value)?;
        items.push(item)?;
    }
    Ok(items)
}

/// How many items an array has.
pub fn item_count(array: &Array) -> usize
    ensures { result ≡ item_count (array_view array.now) }
{
    array.len()
}

/// How many keys a table has.
pub fn member_count(table: &Table) -> usize
    ensures { result ≡ member_count (table_view table.now) }
{
    table.len()
}
