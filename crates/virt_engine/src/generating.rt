//! `gen`: a component is generated, wrapped and run.

ghost use Rattle.std.specs.Prelude.{◌≡◌, IfOk, Ok, string_bytes};
ghost use Rattle.policy_data.specs.Limits.{KeepsLimits};
ghost use Rattle.policy_toml.specs.Policy.{IsWellFormed};
ghost use Rattle.generated.specs.Generated.{generated, policy_text};
ghost use Rattle.generated.specs.Scripts.{script_text};
ghost use Rattle.host_script.specs.Script.{AreTyped, exports_seen};
ghost use Rattle.component_judge.specs.Applications.{JudgesApplication};
ghost use Rattle.component_judge.specs.Callable.{callable};
ghost use Rattle.component_judge.specs.Components.{Judges};
ghost use Rattle.component_judge.specs.Scripts.{JudgesScript};
ghost use Rattle.virt_engine.specs.Command.{gen_by};
ghost use Rattle.virt_engine.specs.Generating.{GenRan, HasLine, IsMade, IsWrapped, RunsGenerated, gen_text};
ghost use Rattle.virt_engine.specs.Shown.{IsShown};

use crate::finishing::finish;
use crate::plan::{Ready, ready_for};
use crate::policy::policy_in;
use crate::running::put_shown;
use crate::status::Status;
use crate::tally::Tally;
use crate::{Shown, run_component};
use comp_interp::RunEnd;
use comp_signature::ComponentType;
use component_judge::{Application, Fetched, Purpose, Scripted, judge_application, judge_script};
use generated::{generated_component, generated_policy, generated_script};
use host_script::{Script, ScriptHost};
use outside::{Files, Sink};
use policy_data::Policy;
use reference_host::Referenced;
use std::alloc::{AllocError, Global};
use tree_table::Trees;
use virt_base::{NoMemory, Text};
use virt_words::GenWords;

/// The most steps of the run.
const STEPS: u64 = 1_000_000_000;

/// What is generated is refused by nobody. That is not proved: a refusal counts as running out of memory.
fn policy(alloc: Global) -> Result<Policy, NoMemory>
    ensures well_formed { IfOk result (IsWellFormed policy_text) }
    ensures limits { IfOk result KeepsLimits }
{
    let text = generated_policy(alloc)?;
    match policy_in(alloc, text.as_bytes()) {
        Ok(policy) => Ok(policy),
        Err(_) => Err(NoMemory),
    }
}

fn application(alloc: Global, purpose: Purpose, bytes: &[u8]) -> Result<Application, NoMemory>
    ensures listed { IfOk result (λ application. JudgesApplication purpose bytes.now (Ok application)) }
    ensures runs { purpose ≡ Purpose.Run → IfOk result (λ application. Judges bytes.now (Ok application.judged)) }
{
    match judge_application(alloc, purpose, bytes) {
        Ok(application) => Ok(application),
        Err(_) => Err(NoMemory),
    }
}

fn scripted(alloc: Global, functions: u32, ty: &ComponentType) -> Result<Scripted, NoMemory>
    ensures due { IfOk result (λ scripted. JudgesScript ty.now.exports (script_text functions) (Ok scripted)) }
    ensures typed { IfOk result (λ scripted. AreTyped (callable ty.now.exports) scripted.script.calls) }
    ensures functions { IfOk result (λ scripted. exports_seen scripted.functions ≡ callable ty.now.exports) }
{
    let json = generated_script(alloc, functions)?;
    match judge_script(alloc, ty, json.as_bytes()) {
        Ok(scripted) => Ok(scripted),
        Err(_) => Err(NoMemory),
    }
}

/// The parts of the output of a generated component.
fn wrapped(alloc: Global, functions: u32, out: &Text) -> Result<Ready, NoMemory>
    ensures { IfOk result (IsWrapped functions out.now) }
{
    let policy = policy(alloc)?;
    let bytes = generated_component(alloc, functions)?;
    let application = application(alloc, Purpose::Virt, bytes.as_slice())?;
    let trees = Trees::empty(alloc);
    let fetched = Fetched { bytes, application };
    let ready = ready_for(alloc, &policy, &trees, fetched, out)?;
    Ok(ready)
}

/// The run of a generated component: each function is called once, over the policy's reference host, which asks the script.
fn run_generated(alloc: Global, functions: u32) -> Result<Shown, NoMemory>
    ensures ends { IfOk result IsShown }
    ensures runs { IfOk result (RunsGenerated functions) }
{
    let policy = policy(alloc)?;
    let bytes = generated_component(alloc, functions)?;
    let application = application(alloc, Purpose::Run, bytes.as_slice())?;
    let scripted = scripted(alloc, functions, &application.judged.ty)?;
    let Application { judged, listed } = application;
    let Scripted {
        script,
        functions: exports,
    } = scripted;
    let Script { answers, calls } = script;
    let trees = Trees::empty(alloc);
    let host = Referenced::new(alloc, policy, trees, &listed, ScriptHost::new(answers))?;
    let shown = run_component(alloc, judged, &exports, host, calls.as_slice(), STEPS)?;
    Ok(shown)
}

/// The line of a run of which each call returned.
fn gen_line(alloc: Global, functions: u32, tally: Tally) -> Result<String, AllocError>
    ensures { IfOk result (λ text. string_bytes text ≡ gen_text functions tally) }
{
    let Tally { calls, sum } = tally;
    format!(in alloc; "gen {functions}: {calls} host calls, {functions} returns, sum {sum}\n")
}

/// What a call of `gen` comes to before it writes.
#[derive(Drop)]
enum Made {
    /// Each call returned: the output is to be written.
    Whole(Ready),
    /// One did not: nothing is written.
    Ended(Shown),
}

/// The output with the run's own line.
fn with_line(alloc: Global, functions: u32, wrapped: Ready, tally: Tally) -> Result<Ready, NoMemory>
    ensures { IfOk result (HasLine functions tally wrapped) }
{
    let line = gen_line(alloc, functions, tally)?;
    let Ready {
        front,
        app,
        back,
        fault,
        fault_line,
        ..
    } = wrapped;
    Ok(Ready {
        front,
        app,
        back,
        done_line: line,
        fault,
        fault_line,
    })
}

/// The generated component of that many functions, wrapped and run.
fn make(alloc: Global, functions: u64, out: &Text) -> Result<Made, NoMemory>
    ensures { IfOk result (IsMade functions out.now) }
{
    let Ok(functions) = u32::try_from(functions) else {
        return Err(NoMemory);
    };
    let wrapped = wrapped(alloc, functions, out)?;
    let shown = run_generated(alloc, functions)?;
    match shown.end {
        RunEnd::Returned(_) => {
            let ready = with_line(alloc, functions, wrapped, shown.tally)?;
            Ok(Made::Whole(ready))
        }
        _ => Ok(Made::Ended(shown)),
    }
}

/// Makes a component, wraps it, runs it, writes the output and puts one line. Where a call doesn't return nothing is written, and the
/// lines of the run are put.
pub fn run_gen<F: Files, S: Sink>(
    alloc: Global,
    task: &GenWords,
    files: &mut F,
    out: &mut S,
) -> Status
    ensures { GenRan (gen_by task.now) (F.state files.old) (F.state files.new) (S.state out.old) (S.state out.new) result }
{
    match make(alloc, task.functions, &task.out) {
        Ok(Made::Whole(ready)) => finish(ready, &task.out, files, out),
        Ok(Made::Ended(shown)) => put_shown(&shown, out),
        Err(NoMemory) => Status::NoMemory,
    }
}
