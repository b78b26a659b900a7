//! The files of a component and of a script, fetched and judged, for each command that takes them.

ghost use Rattle.component_judge.specs.Inputs.{FetchesApplication, FetchesComponent, FetchesInputs, FetchesListed, FetchesScript, FetchesWrapped};

use crate::fetching::fetch;
use crate::limits::{APPLICATION_BYTES, COMPONENT_BYTES, Purpose, SCRIPT_BYTES};
use crate::unready::Unready;
use crate::{Application, Judged, Scripted, judge_application, judge_component, judge_script};
use comp_signature::ComponentType;
use outside::Files;
use std::alloc::Global;
use virt_base::Text;
use wasi_match::Listed;

/// What a run begins with.
#[derive(Drop)]
pub struct Inputs {
    pub judged: Judged,
    pub scripted: Scripted,
}

/// What a run under a policy begins with, beside the policy: what the component imports of the listed interfaces, too.
#[derive(Drop)]
pub struct ListedInputs {
    pub inputs: Inputs,
    pub listed: Listed,
}

/// The component of a file. Its bytes are let go.
fn fetch_component<F: Files>(alloc: Global, name: &Text, files: &mut F) -> Result<Judged, Unready>
    ensures { FetchesComponent name.now (F.state files.old) (F.state files.new) result }
{
    let bytes = fetch(alloc, name, "component-bytes", COMPONENT_BYTES, files)?;
    match judge_component(alloc, bytes.as_slice()) {
        Ok(judged) => Ok(judged),
        Err(refusal) => Err(Unready::Refused(refusal)),
    }
}

/// An application that is to be wrapped, with its bytes.
#[derive(Drop)]
pub struct Fetched {
    pub bytes: Vec<u8>,
    pub application: Application,
}

/// The listed component of a file that is to be wrapped.
pub fn fetch_wrapped<F: Files>(
    alloc: Global,
    name: &Text,
    files: &mut F,
) -> Result<Fetched, Unready>
    ensures { FetchesWrapped name.now (F.state files.old) (F.state files.new) result }
{
    let bytes = fetch(alloc, name, "application-bytes", APPLICATION_BYTES, files)?;
    match judge_application(alloc, Purpose::Virt, bytes.as_slice()) {
        Ok(application) => Ok(Fetched { bytes, application }),
        Err(refusal) => Err(Unready::Refused(refusal)),
    }
}

/// The listed component of a file that is to be run. Its bytes are let go.
fn fetch_application<F: Files>(
    alloc: Global,
    name: &Text,
    files: &mut F,
) -> Result<Application, Unready>
    ensures { FetchesApplication name.now (F.state files.old) (F.state files.new) result }
{
    let bytes = fetch(alloc, name, "component-bytes", COMPONENT_BYTES, files)?;
    match judge_application(alloc, Purpose::Run, bytes.as_slice()) {
        Ok(application) => Ok(application),
        Err(refusal) => Err(Unready::Refused(refusal)),
    }
}

/// The script of a file, for a component of this type. Its bytes are let go.
fn fetch_script<F: Files>(
    alloc: Global,
    name: &Text,
    ty: &ComponentType,
    files: &mut F,
) -> Result<Scripted, Unready>
    ensures { FetchesScript ty.now.exports name.now (F.state files.old) (F.state files.new) result }
{
    let json = fetch(alloc, name, "script-bytes", SCRIPT_BYTES, files)?;
    match judge_script(alloc, ty, json.as_slice()) {
        Ok(scripted) => Ok(scripted),
        Err(refusal) => Err(Unready::Refused(refusal)),
    }
}

/// Reads a component and a script for it, and refuses what can not be run: first the component's file, then what it holds, then the
/// script's file, and then the script.
pub fn fetch_inputs<F: Files>(
    alloc: Global,
    component: &Text,
    script: &Text,
    files: &mut F,
) -> Result<Inputs, Unready>
    ensures { FetchesInputs component.now script.now (F.state files.old) (F.state files.new) result }
{
    let judged = fetch_component(alloc, component, files)?;
    let scripted = fetch_script(alloc, script, &judged.ty, files)?;
    Ok(Inputs { judged, scripted })
}

/// The same of a run under a policy: the component has to be listed.
pub fn fetch_listed<F: Files>(
    alloc: Global,
    component: &Text,
    script: &Text,
    files: &mut F,
) -> Result<ListedInputs, Unready>
    ensures { FetchesListed component.now script.now (F.state files.old) (F.state files.new) result }
{
    let application = fetch_application(alloc, component, files)?;
    let scripted = fetch_script(alloc, script, &application.judged.ty, files)?;
    let Application { judged, listed } = application;
    Ok(ListedInputs {
        inputs: Inputs { judged, scripted },
        listed,
    })
}
