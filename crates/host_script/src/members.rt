//! Objects with just one member, by which variants and results are written.

ghost use Rattle.std.specs.Prelude.{string_bytes};
ghost use Rattle.serde_json.specs.View.{view, members_view};
ghost use Rattle.host_port.specs.Untyped.{choice_in, ok_or_err};
ghost use Rattle.host_script.specs.Json.{untyped, untyped_members};
ghost use Rattle.host_script.specs.Reads.{Gives, member_in, only_one, number_of_end};

use crate::values_fault::ReadValueFault;
use serde_json::{Map, Value as Json};

fn only_member(members: Map<String, Json>) -> Result<(String, Json), ReadValueFault>
    ensures { Gives (λ m. (string_bytes m.0, untyped (view m.1))) (only_one (untyped_members (members_view members.entries))) result }
{
    let mut others = members;
    let Some(member) = others.pop_first() else {
        return Err(ReadValueFault::NotOfType);
    };
    if others.is_empty() {
        Ok(member)
    } else {
        Err(ReadValueFault::NotOfType)
    }
}

/// The name and the value of an object's only member.
pub fn member_in(json: Json) -> Result<(String, Json), ReadValueFault>
    ensures { Gives (λ m. (string_bytes m.0, untyped (view m.1))) (member_in (untyped (view json))) result }
{
    match json {
        Json::Object(members) => only_member(members),
        Json::Null | Json::Bool(_) | Json::Number(_) | Json::String(_) | Json::Array(_) => Err(
            ReadValueFault::NotOfType,
        ),
    }
}

/// The value after `ok` or `err`, which is an object's only member, and whether it is `ok`.
pub fn end_in(json: Json) -> Result<(bool, Json), ReadValueFault>
    ensures { Gives (λ end. (number_of_end end.0, untyped (view end.1))) (choice_in ok_or_err (untyped (view json))) result }
{
    let (name, json) = member_in(json)?;
    if name.as_str() == "ok" {
        Ok((true, json))
    } else if name.as_str() == "err" {
        Ok((false, json))
    } else {
        Err(ReadValueFault::NotOfType)
    }
}
