//! What a host answers that has a script before it, and what is seen of it.

use crate::rows::{Kind, hold, same};
use crate::scripts::{args_in, call_of, line, script_of};
use crate::texts::halves;
use host_port::{Answer, Host, HostCall, Observation, Resource, copy_call};
use host_script::{Script, ScriptHost};
use std::alloc::Global;
use std::test::Fail;
use virt_base::Text;
use wasi_table::Interface;
use wit_types::WitType;

/// Adds the line of what the host answers, where a call from outside would end by it.
fn ask(
    alloc: Global,
    host: &mut ScriptHost,
    call: HostCall,
    lines: &mut String,
) -> Result<(), Fail> {
    let func = call.func.clone()?;
    let seen = match host.call(alloc, call)? {
        Answer::Value(value) => Observation::Returned(value),
        Answer::Trap => Observation::Trapped,
        Answer::Ended => Observation::ScriptEnded,
        Answer::Bad => Observation::BadAnswer,
    };
    push_line(alloc, &seen, func.result.as_ref(), lines)
}

fn push_line(
    alloc: Global,
    observation: &Observation,
    ty: Option<&WitType>,
    lines: &mut String,
) -> Result<(), Fail> {
    lines.push_str(line(alloc, observation, ty)?.as_str())?;
    lines.push(' ')?;
    Ok(())
}

fn drop_handle(
    alloc: Global,
    host: &mut ScriptHost,
    interface: &Text,
    name: &str,
    number: &str,
) -> Result<(), Fail> {
    let resource = Resource {
        interface: interface.copy(alloc)?,
        name: Text::from_str(alloc, name)?,
    };
    host.drop_handle(alloc, &resource, number.parse::<u32>()?)?;
    Ok(())
}

/// Adds the lines of all that was seen of a host.
fn push_seen(alloc: Global, host: &ScriptHost, lines: &mut String) -> Result<(), Fail> {
    for observation in host.observations().as_slice() {
        push_line(alloc, observation, None, lines)?;
    }
    Ok(())
}

/// What comes of an act: `call`; `seen`; or `NAME NUMBER`, which drops a handle.
fn act(
    alloc: Global,
    host: &mut ScriptHost,
    call: &HostCall,
    what: &str,
    lines: &mut String,
) -> Result<(), Fail> {
    match what.split_once(' ') {
        Some((name, number)) => drop_handle(alloc, host, &call.func.interface, name, number),
        None if what == "seen" => push_seen(alloc, host, lines),
        None => ask(alloc, host, copy_call(alloc, call)?, lines),
    }
}

/// The lines of what comes of acts.
fn acted(
    alloc: Global,
    host: &mut ScriptHost,
    call: &HostCall,
    acts: &str,
) -> Result<String, Fail> {
    let mut lines = String::new(alloc);
    for what in acts.split(", ") {
        act(alloc, host, call, what, &mut lines)?;
    }
    let _blank = lines.pop();
    Ok(lines)
}

/// The same of acts on a host with a script before it, where calls are as the script's last one.
fn played(
    alloc: Global,
    interface: &Interface,
    script: Script,
    acts: &str,
) -> Result<String, Fail> {
    let Script { answers, calls } = script;
    let mut host = ScriptHost::new(answers);
    let call = call_of(alloc, interface, args_in(calls)?)?;
    acted(alloc, &mut host, &call, acts)
}

/// `ANSWERS | ACTS`: the lines of what comes of acts on a host with these answers before it.
pub fn answered(alloc: Global, interface: &Interface, input: &str) -> Result<String, Fail> {
    let (answers, acts) = halves(input, " | ");
    let script = script_of(alloc, interface, answers, "")??;
    played(alloc, interface, script, acts)
}

/// An answer without a value is right exactly for a function without result. Each call takes the next answer, whatever it was; a drop
/// takes none, and is seen between the calls.
const ANSWERS: &str = r#"# i: no result;function f
{} | call, call => ["return"] ["script-ended"]
{"value":null} | call, call => ["bad-answer"] ["script-ended"]
{"value":1} | call, call => ["bad-answer"] ["script-ended"]
"trap" | call, call => ["trap"] ["script-ended"]
# i: a number;function f -> u64
{} | call, call => ["bad-answer"] ["script-ended"]
{"value":"x"} | call, call => ["bad-answer"] ["script-ended"]
{"value":7} | call, call => ["return",7] ["script-ended"]
{"value":7.0} | call, call => ["bad-answer"] ["script-ended"]
"trap" | call, call => ["trap"] ["script-ended"]
# i: bytes;function f -> list u8
{"value":[1,2]} | call, call => ["return",[1,2]] ["script-ended"]
{"value":[1,256]} | call, call => ["bad-answer"] ["script-ended"]
{"value":[65,61,49,10]} | call => ["return",[65,61,49,10]]
# i: a number of four bytes;function f -> u32
{"value":7} | call => ["return",7]
# i: an option;function f -> option u8
{"value":null} | call => ["return",null]
# i: answers in order;function f -> u8
{"value":1},"trap",{"value":"x"},{"value":2} | call, call, call, call, call => ["return",1] ["trap"] ["bad-answer"] ["return",2] ["script-ended"]
# i: of a key that comes twice the last value is read, and space and escapes say nothing;function f -> u64
{"value":1,"value":2} | call, call => ["return",2] ["script-ended"]
{ "\u0076alue" : 18446744073709551615 } , "tr\u0061p" | call, call => ["return",18446744073709551615] ["trap"]
# i: a text with escapes;function f -> string
{"value":"\u000a\"\\\u00e9"} | call => ["return","\n\"\\é"]
# i: seen in order;function f
"trap",{} | call, r 4294967295, call, seen => ["trap"] ["return"] ["call","i","f",[]] ["drop","i","r",4294967295] ["call","i","f",[]]
# wasi:io/streams@0.2.0: a drop;function f
 | output-stream 3, seen => ["drop","wasi:io/streams@0.2.0","output-stream",3]"#;

#[test]
fn hosts_answer(rt: HostRuntime) -> Result<(), Fail> {
    hold(&rt, rt.alloc(), Kind::Answered, ANSWERS)
}

#[test]
fn lines_of_limits(rt: HostRuntime) -> Result<(), Fail> {
    let spent = line(rt.alloc(), &Observation::Spent, None)?;
    same(&rt, spent.as_str(), "[\"spent\"]", "no step is left")?;
    let deep = line(rt.alloc(), &Observation::TooDeep, None)?;
    same(&rt, deep.as_str(), "[\"too-deep\"]", "too many calls")
}
