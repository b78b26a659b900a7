//! A script is judged for a component: its calls are of functions that can be called, with arguments of their types.

ghost use Rattle.std.specs.Prelude.{◌≡◌, IfOk};
ghost use Rattle.host_script.specs.Script.{AreTyped, exports_seen};
ghost use Rattle.component_judge.specs.Callable.{callable};
ghost use Rattle.component_judge.specs.Scripts.{JudgesScript};

use crate::callable;
use crate::limits::{SCRIPT_BYTES, within};
use crate::refusal::Refusal;
use comp_signature::ComponentType;
use host_script::{ExportTypes, Script, ScriptFault, read_script};
use std::alloc::Global;

/// A script for a component, and the functions of the component that can be called.
#[derive(Drop)]
pub struct Scripted {
    pub script: Script,
    pub functions: ExportTypes,
}

/// The script that the bytes are for a component of this type.
pub fn judge_script(alloc: Global, ty: &ComponentType, json: &[u8]) -> Result<Scripted, Refusal>
    ensures due { JudgesScript ty.now.exports json.now result }
    // The arguments of each call are of its function's parameters.
    ensures typed { IfOk result (λ scripted. AreTyped (callable ty.now.exports) scripted.script.calls) }
    ensures functions { IfOk result (λ scripted. exports_seen scripted.functions ≡ callable ty.now.exports) }
{
    within(alloc, "script-bytes", SCRIPT_BYTES, json.len() as u64)?;
    let functions = callable(alloc, ty)?;
    match read_script(alloc, json, &functions) {
        Ok(script) => Ok(Scripted { script, functions }),
        Err(ScriptFault::BadScript(path)) => Err(Refusal::BadScript(path)),
        Err(ScriptFault::NoMemory) => Err(Refusal::NoMemory),
    }
}
