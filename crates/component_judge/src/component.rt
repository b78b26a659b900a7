//! The bytes of a component, judged: their length, their reading, how much code they hold, validity, and whether the component can be run.

#![tactic(auto, using(crate::proofs::Judging::nested))]

ghost use Rattle.std.specs.Prelude.{length};
ghost use Rattle.comp_grammar.specs.Trees.{plain};
ghost use Rattle.component_judge.specs.Components.{Reads, HasFewBytes, HasFewCode, HasLittleCode, Validates, Judges, JudgesSound};

use crate::code_bytes;
use crate::limits::{APPLICATION_BYTES, CODE_BYTES, COMPONENT_BYTES, Purpose, too_nested, within};
use crate::refusal::Refusal;
use crate::types::test_type;
use comp_read::{CompReadFault, read_component};
use comp_signature::ComponentType;
use comp_validate::{CompFault, validate};
use std::alloc::Global;
use virt_base::AppFault;
use wasm_ast::Component;

/// A sound component, and its type.
#[derive(Drop)]
pub struct Judged {
    pub component: Component,
    pub ty: ComponentType,
}

/// Refuses a component with too many bytes.
fn test_length(alloc: Global, purpose: Purpose, bytes: &[u8]) -> Result<(), Refusal>
    ensures { HasFewBytes purpose (length bytes.now) result }
{
    let len = bytes.len() as u64;
    match purpose {
        Purpose::Virt => within(alloc, "application-bytes", APPLICATION_BYTES, len),
        Purpose::Run => within(alloc, "component-bytes", COMPONENT_BYTES, len),
    }
}

/// The component that the bytes spell.
fn read(alloc: Global, bytes: &[u8]) -> Result<Component, Refusal>
    ensures { Reads bytes.now result }
{
    match read_component(alloc, bytes) {
        Ok(component) => Ok(component),
        Err(CompReadFault::Malformed(at)) => Err(Refusal::Refused(AppFault::Malformed(at))),
        Err(CompReadFault::Unsupported(at, byte)) => {
            Err(Refusal::Refused(AppFault::Unsupported(at, byte)))
        }
        Err(CompReadFault::TooNested(depth)) => Err(too_nested(alloc, depth)),
        Err(CompReadFault::NoMemory) => Err(Refusal::NoMemory),
    }
}

/// Refuses a component to be run with too much code.
fn test_code_run(alloc: Global, bytes: &[u8], component: &Component) -> Result<(), Refusal>
    ensures { HasLittleCode bytes.now (plain component.now) result }
{
    within(
        alloc,
        "code-bytes",
        CODE_BYTES,
        code_bytes(bytes, component),
    )
}

/// Refuses a component with too much code, where that is limited.
fn test_code(
    alloc: Global,
    purpose: Purpose,
    bytes: &[u8],
    component: &Component,
) -> Result<(), Refusal>
    ensures { HasFewCode purpose bytes.now (plain component.now) result }
{
    match purpose {
        Purpose::Virt => Ok(()),
        Purpose::Run => test_code_run(alloc, bytes, component),
    }
}

/// The type of a valid component.
fn type_of(alloc: Global, component: &Component) -> Result<ComponentType, Refusal>
    ensures { Validates (plain component.now) result }
{
    match validate(alloc, component) {
        Ok(ty) => Ok(ty),
        Err(CompFault::Invalid(rule, section)) => {
            Err(Refusal::Refused(AppFault::Invalid(rule, section)))
        }
        Err(CompFault::NoMemory) => Err(Refusal::NoMemory),
    }
}

/// The component that the bytes spell, with its type, where it is valid and keeps the limits. Its length, its reading, how much code it
/// holds and its validity are asked in this order, and the first fault is the answer.
pub fn sound_component(alloc: Global, purpose: Purpose, bytes: &[u8]) -> Result<Judged, Refusal>
    ensures { JudgesSound purpose bytes.now result }
{
    test_length(alloc, purpose, bytes)?;
    let component = read(alloc, bytes)?;
    test_code(alloc, purpose, bytes, &component)?;
    let ty = type_of(alloc, &component)?;
    Ok(Judged { component, ty })
}

/// The component that the bytes spell, with its type, where a host that answers by a script can run it: after what every component is
/// asked, its imports and then its exports. Each import has to be an instance of functions and types, and no export may hold a
/// resource type or a handle.
pub fn judge_component(alloc: Global, bytes: &[u8]) -> Result<Judged, Refusal>
    ensures { Judges bytes.now result }
{
    let judged = sound_component(alloc, Purpose::Run, bytes)?;
    test_type(alloc, &judged.ty)?;
    Ok(judged)
}
