//! What was made is checked.

ghost use Rattle.std.specs.Prelude.{IfOk, OnOk, Ok, map};
ghost use Rattle.comp_grammar.specs.Trees.{plain};
ghost use Rattle.comp_write.specs.Copying.{SpellsBare};
ghost use Rattle.adapter_world.specs.Names.{named};
ghost use Rattle.comp_validate.specs.Answer.{Answers};
ghost use Rattle.compose.specs.Composed.{IsAdapter};
ghost use Rattle.compose.specs.Assembled.{IsRight};

use crate::fault::ComposeFault;
use adapter_world::{NeededInterface, are_needed};
use comp_joined::is_joining;
use comp_pair::same_exports;
use comp_read::{CompReadFault, read_component};
use comp_signature::ComponentType;
use comp_types::InstanceEntries;
use comp_validate::{CompFault, validate};
use std::alloc::Global;
use wasm_ast::Component;

/// The type of a component that was made.
fn type_of(alloc: Global, component: &Component) -> Result<ComponentType, ComposeFault>
    ensures { IfOk result (λ ty. Answers (plain component.now) (Ok ty)) }
{
    match validate(alloc, component) {
        Ok(ty) => Ok(ty),
        Err(CompFault::NoMemory) => Err(ComposeFault::NoMemory),
        Err(CompFault::Invalid(_, _)) => Err(ComposeFault::Unsound),
    }
}

#[tactic(auto, using(crate::proofs::CheckLaws::read_spelled))]
fn read(alloc: Global, bytes: &[u8]) -> Result<Component, ComposeFault>
    ensures { IfOk result (λ component. SpellsBare 0 (plain component) bytes.now) }
{
    match read_component(alloc, bytes) {
        Ok(component) => Ok(component),
        Err(CompReadFault::NoMemory) => Err(ComposeFault::NoMemory),
        Err(_) => Err(ComposeFault::Unsound),
    }
}

/// The adapter that bytes spell, which is valid by itself and imports exactly what is needed.
pub fn adapter_in(
    alloc: Global,
    needed: &[NeededInterface],
    bytes: &[u8],
) -> Result<Component, ComposeFault>
    ensures spelled { IfOk result (λ component. SpellsBare 0 (plain component) bytes.now) }
    ensures right { IfOk result (λ component. IsAdapter (map named needed.now) (plain component)) }
{
    let component = read(alloc, bytes)?;
    let adapter = type_of(alloc, &component)?;
    if !are_needed(alloc, needed, &adapter)? {
        return Err(ComposeFault::Unsound);
    }
    Ok(component)
}

/// The output is valid, imports exactly what is needed, exports what the application exports, and joins the two components in it.
pub fn check(
    alloc: Global,
    needed: &[NeededInterface],
    exports: &InstanceEntries,
    output: &Component,
) -> Result<(), ComposeFault>
    ensures { OnOk result (IsRight (map named needed.now) exports.now (plain output.now)) }
{
    let ty = type_of(alloc, output)?;
    if !are_needed(alloc, needed, &ty)? {
        return Err(ComposeFault::Unsound);
    }
    if !same_exports(alloc, &ty.exports, exports)? {
        return Err(ComposeFault::Unsound);
    }
    if !is_joining(output) {
        return Err(ComposeFault::Unsound);
    }
    Ok(())
}
