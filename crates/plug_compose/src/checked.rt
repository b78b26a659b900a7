//! What was made is checked.

ghost use Rattle.std.specs.Prelude.{◌≡◌, IfOk, Ok};
ghost use Rattle.comp_grammar.specs.Trees.{plain};
ghost use Rattle.comp_validate.specs.Answer.{Answers};
ghost use Rattle.comp_signature.specs.Signatures.{component_signature};
ghost use Rattle.wasi_match.specs.Listed.{IsListed};
ghost use Rattle.plug_compose.specs.Plugged.{IsRight};

use crate::fault::PlugFault;
use crate::merged::same_uses;
use comp_joined::is_joining;
use comp_pair::same_exports;
use comp_signature::ComponentType;
use comp_types::InstanceEntries;
use comp_validate::{CompFault, validate};
use std::alloc::Global;
use wasi_match::{Listed, ListedUse, MatchFault, match_imports};
use wasm_ast::Component;

/// The type of a component that was made.
fn type_of(alloc: Global, component: &Component) -> Result<ComponentType, PlugFault>
    ensures { IfOk result (λ ty. Answers (plain component.now) (Ok ty)) }
{
    match validate(alloc, component) {
        Ok(ty) => Ok(ty),
        Err(CompFault::NoMemory) => Err(PlugFault::NoMemory),
        Err(CompFault::Invalid(_, _)) => Err(PlugFault::Unsound),
    }
}

/// What a component of this type asks of the host.
fn listed_in(alloc: Global, ty: &ComponentType) -> Result<Listed, PlugFault>
    ensures { IfOk result (λ listed. IsListed (component_signature ty.now) listed.uses) }
{
    match match_imports(alloc, ty) {
        Ok(listed) => Ok(listed),
        Err(MatchFault::NoMemory) => Err(PlugFault::NoMemory),
        Err(_) => Err(PlugFault::Unsound),
    }
}

/// The whole is valid and listed, asks for exactly this of the host, exports exactly this, and joins the two components in it. Its type,
/// and what it asks for.
#[tactic(auto, using(crate::proofs::CheckLaws::is_right))]
pub fn check(
    alloc: Global,
    whole: &Component,
    imported: &[ListedUse],
    exports: &InstanceEntries,
) -> Result<(ComponentType, Listed), PlugFault>
    ensures { IfOk result (λ p. IsRight (plain whole.now) exports.now imported.now p.0 p.1) }
{
    let ty = type_of(alloc, whole)?;
    let listed = listed_in(alloc, &ty)?;
    if !same_uses(listed.uses.as_slice(), imported) {
        return Err(PlugFault::Unsound);
    }
    if !same_exports(alloc, &ty.exports, exports)? {
        return Err(PlugFault::Unsound);
    }
    if !is_joining(whole) {
        return Err(PlugFault::Unsound);
    }
    Ok((ty, listed))
}
