//! Two components become one: the first is put in front of the second with the sections around them, and what was made is checked.

ghost use Rattle.std.specs.Prelude.{◌≡◌, ◌++◌, ◌<◌, ◌^◌, IfOk, length};
ghost use Rattle.comp_grammar.specs.Trees.{plain};
ghost use Rattle.comp_write.specs.Copying.{SpellsBare};
ghost use Rattle.comp_signature.specs.Signatures.{component_signature};
ghost use Rattle.plug_compose.specs.Merged.{merged_uses};
ghost use Rattle.plug_compose.specs.Sources.{host_uses};
ghost use Rattle.plug_compose.specs.Plugged.{HoldsBoth, IsPlugged, bytes_around};

use crate::around::{Around, Pair, sections_around};
use crate::checked::check;
use crate::fault::PlugFault;
use crate::merged::{all_uses, whole_uses};
use crate::plugged::{Half, Plugged};
use comp_pair::{Assembled, assemble, front_of};
use plug_match::{First, Second};
use std::alloc::Global;
use virt_base::NoMemory;
use wasi_match::ListedUses;
use wasm_ast::Component;

/// What both components ask of the host together.
fn imported(alloc: Global, asked: &First, joined: &Second) -> Result<ListedUses, NoMemory>
    ensures { IfOk result (λ uses. uses ≡ merged_uses asked.now.uses (host_uses joined.now.sources)) }
{
    let uses = all_uses(alloc, asked.uses.as_slice(), joined.sources.as_slice())?;
    whole_uses(alloc, uses.as_slice())
}

/// How many bytes there are, where 32 bits can say it.
fn size_of(bytes: &[u8]) -> Result<u32, PlugFault>
    ensures { IfOk result (λ size. size ≡ length bytes.now) }
{
    match u32::try_from(bytes.len()) {
        Ok(size) => Ok(size),
        Err(_) => Err(PlugFault::TooLong),
    }
}

/// Both components in one, with these sections around them.
#[tactic(auto, using(crate::proofs::PlugLaws::holds_both))]
fn put_together(
    alloc: Global,
    around: Around,
    first: Component,
    first_bytes: &[u8],
    second: Component,
    second_bytes: &[u8],
) -> Result<Assembled, PlugFault>
    requires first { SpellsBare 0 (plain first) first_bytes.now }
    requires second { SpellsBare 0 (plain second) second_bytes.now }
    ensures { IfOk result (HoldsBoth (plain first) (plain second) first_bytes.now second_bytes.now) }
{
    let size = size_of(second_bytes)?;
    let Around {
        imports,
        between,
        behind,
    } = around;
    let front = front_of(alloc, imports, first, first_bytes, between)?;
    let assembled = assemble(alloc, front, second, size, behind)?;
    Ok(assembled)
}

/// The bytes of the whole.
fn bytes_of(front: Vec<u8>, second: &[u8], back: &[u8]) -> Result<Vec<u8>, PlugFault>
    ensures { IfOk result (λ bytes. bytes.items ≡ front.items ++ (second.now ++ back.now)) }
{
    let mut bytes = front;
    bytes.extend_from_slice(second)?;
    bytes.extend_from_slice(back)?;
    Ok(bytes)
}

/// One component of two: the first is instantiated over the host, the second over what the first exports and the host. Of each the
/// component and its bytes are given, and what each asks for.
///
/// What was made is checked: it is a valid component, which imports exactly what either asks of the host, exports what the second
/// exports, and joins the two.
#[tactic(auto, using(crate::proofs::PlugLaws::is_plugged))]
pub fn plug(
    alloc: Global,
    first: Half,
    asked: &First,
    second: Half,
    joined: &Second,
) -> Result<Plugged, PlugFault>
    requires first { SpellsBare 0 (plain first.component) first.bytes.items }
    requires second { SpellsBare 0 (plain second.component) second.bytes.items }
    ensures { IfOk result (IsPlugged (plain first.component) (plain second.component) (component_signature second.ty).exports (merged_uses asked.now.uses (host_uses joined.now.sources)) first.bytes.items second.bytes.items) }
{
    let imported = imported(alloc, asked, joined)?;
    let pair = Pair {
        first: &first.ty,
        uses: asked.uses.as_slice(),
        second: &second.ty,
        sources: joined.sources.as_slice(),
    };
    let around = sections_around(alloc, &pair, imported.as_slice())?;
    let Half {
        component: inner,
        ty: _,
        bytes: first_bytes,
    } = first;
    let Half {
        component,
        ty: second_ty,
        bytes: second_bytes,
    } = second;
    let assembled = put_together(
        alloc,
        around,
        inner,
        first_bytes.as_slice(),
        component,
        second_bytes.as_slice(),
    )?;
    let Assembled { whole, front, back } = assembled;
    let (ty, listed) = check(alloc, &whole, imported.as_slice(), &second_ty.exports)?;
    let bytes = bytes_of(front, second_bytes.as_slice(), back.as_slice())?;
    Ok(Plugged {
        bytes,
        component: whole,
        ty,
        listed,
    })
}
