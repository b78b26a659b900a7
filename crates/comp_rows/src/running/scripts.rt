//! Scripts for a component: which are taken, and why others are not.

use crate::rows::{same, sides};
use crate::running::in_words;
use crate::spelling::{SEVEN, component_of};
use crate::words::said;
use comp_signature::ComponentType;
use component_judge::{judge_component, judge_script};
use std::alloc::Global;
use std::process::Abort;
use std::test::Fail;

/// What is said of a script for a component of this type.
fn said_of(alloc: Global, ty: &ComponentType, json: &str) -> Result<String, Fail> {
    match judge_script(alloc, ty, json.as_bytes()) {
        Ok(_) => said(alloc, "runs"),
        Err(refusal) => in_words(alloc, &refusal),
    }
}

/// Each row: a script for the component of these sections, and what is said of it.
fn scripts_hold(rt: &impl Abort, alloc: Global, sections: &str, rows: &str) -> Result<(), Fail> {
    let bytes = component_of(alloc, sections)?;
    let Ok(judged) = judge_component(alloc, bytes.as_slice()) else {
        return Err(Fail::from("no component"));
    };
    for row in rows.lines() {
        let (json, wanted) = sides(row)?;
        same(rt, json, said_of(alloc, &judged.ty, json)?.as_str(), wanted);
    }
    Ok(())
}

const FUNCTIONS: &str = r#"{"answers":[],"calls":[["f",[]]]} => runs
{"answers":[],"calls":[["f",[]],["f",[]]]} => runs
{"answers":[],"calls":[["f",[1]]]} => at calls[0]
{"answers":[],"calls":[["f",[]],["g",[]]]} => at calls[1]
{ => at "#;

/// The sections of a component with an exported instance `i` in which `f` answers 7.
const SEVEN_IN_AN_INSTANCE: &str =
    "01220061736d010000000105016000017f03020100070501016600000a0601040041070b020401000000060701000001000166070501400000790806010000000000050801010100016601000b0701000169050000";

/// A function of an exported instance has the instance's name, `#` and its own.
const FUNCTIONS_OF_INSTANCES: &str = r##"{"answers":[],"calls":[["i#f",[]]]} => runs
{"answers":[],"calls":[["f",[]]]} => at calls[0]
{"answers":[],"calls":[["i",[]]]} => at calls[0]
{"answers":[],"calls":[["i#g",[]]]} => at calls[0]"##;

#[test]
fn exported_functions(rt: HostRuntime) -> Result<(), Fail> {
    scripts_hold(&rt, rt.alloc(), SEVEN, FUNCTIONS)?;
    scripts_hold(
        &rt,
        rt.alloc(),
        SEVEN_IN_AN_INSTANCE,
        FUNCTIONS_OF_INSTANCES,
    )
}
