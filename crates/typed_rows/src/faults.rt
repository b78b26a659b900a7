//! Faults of scripts with their paths, in their order.

use crate::headings::read;
use crate::rows::{Kind, hold, same};
use crate::scripts::{exports_of, fault_in_words};
use crate::texts::written_out;
use host_script::read_script;
use std::alloc::Global;
use std::test::Fail;
use wasi_table::Interface;

/// The fault of a script, or `fine` where there is none.
pub fn judged(alloc: Global, interface: &Interface, script: &str) -> Result<String, Fail> {
    let json = written_out(alloc, script)?;
    match read_script(alloc, json.as_bytes(), &exports_of(alloc, interface)?) {
        Ok(_) => Ok(String::from_str(alloc, "fine")?),
        Err(fault) => fault_in_words(alloc, &fault),
    }
}

/// Of answers and calls the first at fault. An answer is `"trap"`, `{}` or `{"value":V}`, a call `[NAME,[V, ..]]` with a name that can
/// be called and arguments of its types. Of arrays in one another 127 are read, and 128 are no JSON.
const SCRIPTS: &str = r#"# i: what is no JSON, or no object, has the empty path;function f -> u32
{ => at|
[] => at|
null => at|
1 => at|
"x" => at|
{"answers":[],"calls":[]} x => at|
{"answers":[],"calls":[],} => at|
{"answers":[01],"calls":[]} => at|
{"answers":[1e999],"calls":[]} => at|
{"answers":["\ud800"],"calls":[]} => at|
 => at|
# i: an unknown key comes first, the least in byte order, then answers, then calls;function f -> u32
{"answers":[],"calls":[],"x":1,"b":2} => at|b
{"x":1,"answers":1} => at|x
{"answerz":[],"Calls":[]} => at|Calls
{"":1,"a":1} => at|
{} => at|answers
{"calls":1} => at|answers
{"answers":{},"calls":1} => at|answers
{"answers":null,"calls":[]} => at|answers
{"answers":[1]} => at|calls
{"answers":[1],"calls":{}} => at|calls
{"calls":[],"answers":[1],"answers":[]} => fine
{"answers":[],"calls":[],"calls":1} => at|calls
{"calls":[["f",[]]],"answers":["trap",{"value":[1.5]}]} => fine
{"calls":[["f",[1]]],"answers":["trap"]} => at|calls[0]
# i: answers come before calls;function f -> u32
{"answers":[1],"calls":[]} => at|answers[0]
{"answers":["trap",{},{"value":[1.5]},"Trap"],"calls":[1]} => at|answers[3]
{"answers":[{"value":1,"x":1}],"calls":[]} => at|answers[0]
{"answers":[{"Value":1}],"calls":[]} => at|answers[0]
{"answers":[{},null],"calls":[]} => at|answers[1]
{"answers":[{},[]],"calls":[]} => at|answers[1]
{"answers":["trap",{},{"value":null}],"calls":[]} => fine
{"answers":[{},{},{},{},{},{},{},{},{},{},""],"calls":[]} => at|answers[10]
# i: calls of functions with arguments of their types;function f -> u32
{"answers":[],"calls":[["f",[1]]]} => at|calls[0]
{"answers":[],"calls":[["g",[]]]} => at|calls[0]
{"answers":[],"calls":[["f",[]],["f"]]} => at|calls[1]
{"answers":[],"calls":[["f",[],[]]]} => at|calls[0]
{"answers":[],"calls":[[]]} => at|calls[0]
{"answers":[],"calls":[[[],"f"]]} => at|calls[0]
{"answers":[],"calls":[["f",{}]]} => at|calls[0]
{"answers":[],"calls":[{"f":[]}]} => at|calls[0]
{"answers":[],"calls":["f"]} => at|calls[0]
{"answers":[],"calls":[["F",[]]]} => at|calls[0]
{"answers":[],"calls":[["f",[]],["f",[]]]} => fine
# i: as many arguments as parameters;function a:b/c#f u8 string;function f -> u32
{"answers":[],"calls":[["a:b/c#f",[1,"x"]],["f",[]]]} => fine
{"answers":[],"calls":[["a:b/c#f",[1]]]} => at|calls[0]
{"answers":[],"calls":[["a:b/c#f",[1,"x",1]]]} => at|calls[0]
{"answers":[],"calls":[["f",[]],["a:b/c#f",["x",1]]]} => at|calls[1]
{"answers":[],"calls":[["a:b/c#f",[]]]} => at|calls[0]
{"answers":[],"calls":[["a:b/c",[1,"x"]]]} => at|calls[0]
# i: a name is found whole, whatever other names begin with it;function f u8;function f-g string;function f-g-h;function e u8 u8
{"answers":[],"calls":[["f",[1]],["f-g",["x"]],["f-g-h",[]],["e",[1,2]]]} => fine
{"answers":[],"calls":[["f-g",[1]]]} => at|calls[0]
{"answers":[],"calls":[["f-g-h",["x"]]]} => at|calls[0]
{"answers":[],"calls":[["f",["x"]]]} => at|calls[0]
{"answers":[],"calls":[["e",[1,2]],["f-",[1]]]} => at|calls[1]
{"answers":[],"calls":[["",[1]]]} => at|calls[0]
# i: of two functions with one name the first is called;function f u8;function g;function f string
{"answers":[],"calls":[["g",[]],["f",[1]]]} => fine
{"answers":[],"calls":[["g",[]],["f",["x"]]]} => at|calls[1]
# i: arrays in one another, of which the innermost has no value;function f
{"answers":[{"value":`1*[``1*]`}],"calls":[]} => fine
{"answers":[{"value":`124*[``124*]`}],"calls":[]} => fine
{"answers":[{"value":`125*[``125*]`}],"calls":[]} => at|"#;

/// A mark of the byte order is no JSON.
const MARKED: &str = "\
# i: marked;function f -> u32
\u{feff}{\"answers\":[],\"calls\":[]} => at|";

#[test]
fn scripts_are_judged(rt: HostRuntime) -> Result<(), Fail> {
    hold(&rt, rt.alloc(), Kind::Judged, SCRIPTS)?;
    hold(&rt, rt.alloc(), Kind::Judged, MARKED)
}

#[test]
fn space_around_scripts(rt: HostRuntime) -> Result<(), Fail> {
    let interface = read(rt.alloc(), "i", "space;function f -> u32")?;
    let script = "\t{\"answers\":[],\"calls\":[]}\n";
    let found = judged(rt.alloc(), &interface, script)?;
    same(&rt, found.as_str(), "fine", script)
}
