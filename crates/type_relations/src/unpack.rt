//! Pairs of resources that were found inside two instance types, as they are outside: declared resources meet one to one, the others are
//! handed out.

ghost use Rattle.std.specs.Prelude.{◌≡◌, [], is_some, IfOk};
ghost use Rattle.comp_types.specs.Matching.{GoesOn, is_own, paired_one, paired, handed_one, handed_out, unpacked};

use crate::declared::Declared;
use comp_types::Substitution;
use std::alloc::Global;
use type_table::Matching;
use virt_base::NoMemory;

/// Whether a declared resource meets a declared one, and that one alone.
fn pair_one(
    inner: &mut Substitution,
    owned: &Declared,
    own: &Declared,
    pair: (u32, u32),
) -> Result<bool, NoMemory>
    ensures { IfOk result (λ same. GoesOn same inner.new (paired_one (is_own owned.now) (is_own own.now) inner.old pair)) }
{
    if !own.has(pair.0) {
        return Ok(!owned.has(pair.1));
    }
    if !owned.has(pair.1) {
        return Ok(false);
    }
    let same = inner.meet(pair.1, pair.0)?;
    Ok(same)
}

fn are_paired(
    alloc: Global,
    owned: &Declared,
    own: &Declared,
    inside: &Substitution,
) -> Result<bool, NoMemory>
    ensures { IfOk result (λ same. same ≡ is_some (paired (is_own owned.now) (is_own own.now) [] inside.now)) }
{
    let mut inner = Substitution::empty(alloc);
    for i in 0..inside.len() {
        if !pair_one(&mut inner, owned, own, inside.pair(i))? {
            return Ok(false);
        }
    }
    Ok(true)
}

/// Gives a resource that is not declared its partner outside.
fn hand_one(walk: &mut Matching<'_>, own: &Declared, pair: (u32, u32)) -> Result<bool, NoMemory>
    ensures met { IfOk result (λ same. GoesOn same walk.new.by (handed_one (is_own own.now) walk.old.by pair)) }
    ensures kept { walk.new.types ≡ walk.old.types }
{
    if own.has(pair.0) {
        return Ok(true);
    }
    let same = walk.meet(pair.0, pair.1)?;
    Ok(same)
}

fn hand_out(
    walk: &mut Matching<'_>,
    own: &Declared,
    inside: &Substitution,
) -> Result<bool, NoMemory>
    ensures met { IfOk result (λ same. GoesOn same walk.new.by (handed_out (is_own own.now) walk.old.by inside.now)) }
    ensures kept { walk.new.types ≡ walk.old.types }
{
    for i in 0..inside.len() {
        if !hand_one(walk, own, inside.pair(i))? {
            return Ok(false);
        }
    }
    Ok(true)
}

/// What pairs that were found inside two instance types say outside of them, where these declare such resources.
pub fn unpack(
    alloc: Global,
    walk: &mut Matching<'_>,
    owned: &[u32],
    own: &[u32],
    inside: &Substitution,
) -> Result<bool, NoMemory>
    ensures met { IfOk result (λ same. GoesOn same walk.new.by (unpacked (is_own owned.now) (is_own own.now) walk.old.by inside.now)) }
    ensures kept { walk.new.types ≡ walk.old.types }
{
    let owned = Declared::of(alloc, owned)?;
    let own = Declared::of(alloc, own)?;
    if !are_paired(alloc, &owned, &own, inside)? {
        return Ok(false);
    }
    let same = hand_out(walk, &own, inside)?;
    Ok(same)
}
