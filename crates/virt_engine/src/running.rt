//! The command `run`: a component over a script alone, or over the reference host of a policy, which asks the script.

ghost use Rattle.virt_engine.specs.Command.{told_by};
ghost use Rattle.virt_engine.specs.Runs.{PutsShown, RunsBy, ShowsAlone, ShowsUnder, ShowsTask};

use crate::ends::ended_as;
use crate::policy::fetch_policy;
use crate::report::refuse;
use crate::status::Status;
use crate::trees::make_trees;
use crate::{Shown, run_component};
use component_judge::{Inputs, ListedInputs, Scripted, fetch_inputs, fetch_listed};
use host_script::{Script, ScriptHost};
use outside::{Files, Sink};
use reference_host::Referenced;
use std::alloc::Global;
use virt_base::Text;
use virt_words::RunWords;

/// Puts the lines of a run that is over.
pub fn put_shown<S: Sink>(shown: &Shown, out: &mut S) -> Status
    ensures { PutsShown shown.now (S.state out.old) (S.state out.new) result }
{
    match shown.lines.put(out) {
        Ok(()) => ended_as(&shown.end),
        Err(_) => Status::SinkFault,
    }
}

/// Runs a component over a script alone.
fn show_alone<F: Files>(alloc: Global, task: &RunWords, files: &mut F) -> Result<Shown, Status>
    ensures { ShowsAlone (told_by task.now) (F.state files.old) (F.state files.new) result }
{
    let inputs = fetch_inputs(alloc, &task.component, &task.script, files)?;
    let Inputs { judged, scripted } = inputs;
    let Scripted { script, functions } = scripted;
    let Script { answers, calls } = script;
    let host = ScriptHost::new(answers);
    let shown = run_component(
        alloc,
        judged,
        &functions,
        host,
        calls.as_slice(),
        task.steps,
    )?;
    Ok(shown)
}

/// Runs a component over the reference host of a policy, which asks a script.
fn show_under<F: Files>(
    alloc: Global,
    task: &RunWords,
    policy: &Text,
    files: &mut F,
) -> Result<Shown, Status>
    ensures { ShowsUnder (told_by task.now) policy.now (F.state files.old) (F.state files.new) result }
{
    let policy = fetch_policy(alloc, policy, files)?;
    let inputs = fetch_listed(alloc, &task.component, &task.script, files)?;
    let trees = make_trees(alloc, &policy, files)?;
    let ListedInputs { inputs, listed } = inputs;
    let Inputs { judged, scripted } = inputs;
    let Scripted { script, functions } = scripted;
    let Script { answers, calls } = script;
    let host = Referenced::new(alloc, policy, trees, &listed, ScriptHost::new(answers))?;
    let shown = run_component(
        alloc,
        judged,
        &functions,
        host,
        calls.as_slice(),
        task.steps,
    )?;
    Ok(shown)
}

fn show_task<F: Files>(alloc: Global, task: &RunWords, files: &mut F) -> Result<Shown, Status>
    ensures { ShowsTask (told_by task.now) (F.state files.old) (F.state files.new) result }
{
    match &task.policy {
        None => show_alone(alloc, task, files),
        Some(policy) => show_under(alloc, task, policy, files),
    }
}

/// Runs a component over a script, under a policy where one is named. All lines are made before the first is put.
pub fn run_task<F: Files, S: Sink>(
    alloc: Global,
    task: &RunWords,
    files: &mut F,
    out: &mut S,
) -> Status
    ensures { RunsBy (told_by task.now) (F.state files.old) (F.state files.new) (S.state out.old) (S.state out.new) result }
{
    match show_task(alloc, task, files) {
        Ok(shown) => put_shown(&shown, out),
        Err(status) => refuse(alloc, status, out),
    }
}
