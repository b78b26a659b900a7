//! What a file that a policy writes out holds: a table with exactly one of the keys `text`, `hex` and `file`.

ghost use Rattle.toml.specs.View.{view};
ghost use Rattle.policy_toml.specs.Reading.{Gives};
ghost use Rattle.policy_toml.specs.Contents.{content_keys, content_of, hex_in};

use crate::keys::{bad_value, member_of, path_of};
use crate::reader::TableReader;
use crate::values::any_text;
use policy_data::{Content, ReadPolicyFault};
use policy_text::hex_bytes;
use std::alloc::Global;
use toml::{Table, Value};
use virt_base::{Bytes, copy_bytes};

fn hex_in(alloc: Global, path: &str, value: &Value) -> Result<Bytes, ReadPolicyFault>
    ensures { Gives (hex_in path.now (view value.now)) result }
{
    let digits = match value.as_str() {
        Some(digits) => digits,
        None => return bad_value(alloc, path),
    };
    match hex_bytes(alloc, digits.as_bytes())? {
        Some(bytes) => Ok(bytes),
        None => bad_value(alloc, path),
    }
}

/// What a file holds.
#[derive(Drop)]
pub struct ContentReader;

impl TableReader for ContentReader {
    type Item = Content;

    ghost known = { λ _. content_keys };

    ghost fields = { λ _. content_of };

    fn known(&self) -> &'static [&'static str] {
        &["text", "hex", "file"]
    }

    fn fields(&self, alloc: Global, path: &str, table: &Table) -> Result<Content, ReadPolicyFault> {
        match (
            member_of(table, "text"),
            member_of(table, "hex"),
            member_of(table, "file"),
        ) {
            (Some(value), None, None) => {
                let path = path_of(alloc, path, "text")?;
                let text = any_text(alloc, path.as_str(), value)?;
                Ok(Content::Bytes(copy_bytes(alloc, text.bytes())?))
            }
            (None, Some(value), None) => {
                let path = path_of(alloc, path, "hex")?;
                let bytes = hex_in(alloc, path.as_str(), value)?;
                Ok(Content::Bytes(bytes))
            }
            (None, None, Some(value)) => {
                let path = path_of(alloc, path, "file")?;
                let name = any_text(alloc, path.as_str(), value)?;
                Ok(Content::File(name))
            }
            _ => bad_value(alloc, path),
        }
    }
}
