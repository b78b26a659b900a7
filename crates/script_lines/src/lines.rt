//! The line of an observation: one compact array of JSON (RFC 8259), ended by an LF.

ghost use Rattle.std.specs.Prelude.{◌≡◌, [], ◌∷◌, ◌++◌, None, IfOk, OnOk};
ghost use Rattle.json.specs.Token.{Token, string as text_token, end_array};
ghost use Rattle.host_port.specs.Calls.{Called, Dropped, Returned, plain_call, plain_observation, plain_option};
ghost use Rattle.wit_types.specs.PlainValue.{plain_value};
ghost use Rattle.script_lines.specs.Lines.{line, line_text, value_shown, type_of};
ghost use Rattle.script_lines.specs.Added.{Adds, AddsData, AddsItems};

use crate::writing::{write_args, write_value};
use host_port::{HostCall, Observation, Resource};
use json::Writer;
use std::alloc::Global;
use virt_base::NoMemory;
use wit_types::{Value, WitType};

/// Most lines are shorter.
const ROOM: usize = 256;

fn write_call(alloc: Global, call: &HostCall, out: &mut Writer) -> Result<(), NoMemory>
    ensures { OnOk result (AddsItems out.old out.new (line None (Called (plain_call call.now)))) }
{
    out.string("call")?;
    out.string(call.func.interface.as_str())?;
    out.string(call.func.function.as_str())?;
    out.begin_array()?;
    write_args(alloc, &call.func.params, &call.args, out)?;
    out.end_array()?;
    Ok(())
}

fn write_drop(resource: &Resource, id: u32, out: &mut Writer) -> Result<(), NoMemory>
    ensures { OnOk result (AddsItems out.old out.new (line None (Dropped resource.now id))) }
{
    out.string("drop")?;
    out.string(resource.interface.as_str())?;
    out.string(resource.name.as_str())?;
    out.u64(u64::from(id))?;
    out.end_array()?;
    Ok(())
}

fn write_returned(
    alloc: Global,
    ty: Option<&WitType>,
    value: &Value,
    out: &mut Writer,
) -> Result<(), NoMemory>
    ensures { OnOk result (AddsData out.old out.new (value_shown (type_of ty.entry) (plain_value value.now))) }
{
    match ty {
        None => {
            out.null()?;
            Ok(())
        }
        Some(ty) => write_value(alloc, ty, value, out),
    }
}

/// A line that is one word.
fn write_word(word: &str, out: &mut Writer) -> Result<(), NoMemory>
    ensures { OnOk result (Adds out.old out.new (text_token word.now ∷ end_array ∷ [])) }
{
    out.string(word)?;
    out.end_array()?;
    Ok(())
}

fn write_return(
    alloc: Global,
    ty: Option<&WitType>,
    value: &Option<Value>,
    out: &mut Writer,
) -> Result<(), NoMemory>
    ensures { OnOk result (AddsItems out.old out.new (line (type_of ty.entry) (Returned (plain_option value.now)))) }
{
    match value {
        None => write_word("return", out),
        Some(value) => {
            out.string("return")?;
            write_returned(alloc, ty, value, out)?;
            out.end_array()?;
            Ok(())
        }
    }
}

/// The words of a line, and the bracket after them.
fn write_words(
    alloc: Global,
    observation: &Observation,
    returned: Option<&WitType>,
    out: &mut Writer,
) -> Result<(), NoMemory>
    ensures { OnOk result (AddsItems out.old out.new (line (type_of returned.entry) (plain_observation observation.now))) }
{
    match observation {
        Observation::Called(call) => write_call(alloc, call, out),
        Observation::Dropped(resource, id) => write_drop(resource, *id, out),
        Observation::Returned(value) => write_return(alloc, returned, value, out),
        Observation::Trapped => write_word("trap", out),
        Observation::ScriptEnded => write_word("script-ended", out),
        Observation::BadAnswer => write_word("bad-answer", out),
        Observation::Spent => write_word("spent", out),
        Observation::TooDeep => write_word("too-deep", out),
    }
}

/// The line of what is seen, with room after it.
fn fresh_line(
    alloc: Global,
    observation: &Observation,
    returned: Option<&WitType>,
) -> Result<Vec<u8>, NoMemory>
    ensures { IfOk result (λ bytes. bytes.items ≡ line_text (type_of returned.entry) (plain_observation observation.now)) }
{
    let mut out = Writer::new(Vec::with_capacity(alloc, ROOM)?);
    out.begin_array()?;
    write_words(alloc, observation, returned, &mut out)?;
    let mut bytes = out.into_inner();
    bytes.push(b'\n')?;
    Ok(bytes)
}

/// Adds the line of what is seen to a text: one compact JSON array (RFC 8259) with an LF after it. A call is
/// `["call",INTERFACE,FUNCTION,[V, ..]]`, a drop `["drop",INTERFACE,RESOURCE,ID]`, a return `["return",V]` or `["return"]`; an end is
/// `["trap"]`, `["script-ended"]`, `["bad-answer"]`, `["spent"]` or `["too-deep"]`. A returned value has the type that is given. Keys
/// of objects stand in byte order, and in place of what is not of its type stands null.
pub fn append_line(
    alloc: Global,
    text: Vec<u8>,
    observation: &Observation,
    returned: Option<&WitType>,
) -> Result<Vec<u8>, NoMemory>
    ensures { IfOk result (λ longer. longer.items ≡ text.items ++ line_text (type_of returned.entry) (plain_observation observation.now)) }
{
    // A writer fills room ahead by what stands in front of it, so it does not write after a long text.
    let line = fresh_line(alloc, observation, returned)?;
    let mut longer = text;
    longer.extend_from_slice(line.as_slice())?;
    Ok(longer)
}

/// The line of what is seen, as `append_line` writes it. It has no more room than it needs.
pub fn print_observation(
    alloc: Global,
    observation: &Observation,
    returned: Option<&WitType>,
) -> Result<Vec<u8>, NoMemory>
    ensures { IfOk result (λ bytes. bytes.items ≡ line_text (type_of returned.entry) (plain_observation observation.now)) }
{
    let line = fresh_line(alloc, observation, returned)?;
    Ok(Vec::from_slice(alloc, line.as_slice())?)
}
