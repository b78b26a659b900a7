//! An instance type when all its declarations are judged: what is kept of its scope becomes a type in the next scope, if that is within
//! the limits.

ghost use Rattle.std.specs.Prelude.{◌≡◌, ◌&&◌, ℕ, [], ◌∷◌, List, IfOk, OnOk, None, min, nat_le};
ghost use Rattle.comp_types.specs.Added.{and_depth, instance_type};
ghost use Rattle.comp_types.specs.Rules.{is_within_limits};
ghost use Rattle.comp_types.specs.Spaces.{Space, TypeEntry, and_type};
ghost use Rattle.comp_scopes.specs.Stands.{IsEntry, Stands};
ghost use Rattle.comp_defining.specs.Around.{StandAll};
ghost use Rattle.comp_validate.specs.Closing.{Closes, ClosesIn};

use comp_defining::Scopes;
use comp_scopes::{KnownEntry, Scope};
use comp_types::{DeclaredInstance, InstanceType, TypeItem};
use std::alloc::Global;
use std::rc::Rc;
use virt_base::{Items, NoMemory};

fn copy_numbers(alloc: Global, numbers: &[u32]) -> Result<Items<u32>, NoMemory>
    ensures { IfOk result (λ copy. copy ≡ numbers.now) }
{
    let mut copy = Items::empty(alloc);
    for number in numbers {
        copy.push(*number)?;
    }
    Ok(copy)
}

/// The type of an instance type, by its scope.
fn entry_of(alloc: Global, inner: Scope) -> Result<KnownEntry, NoMemory>
    ensures { IfOk result (λ entry. (s : Space) → Stands s inner → IsEntry (instance_type s) entry) }
{
    let Scope {
        exports,
        defined,
        deepest,
        ..
    } = inner;
    let own = copy_numbers(alloc, defined.as_slice())?;
    let entries = exports.into_entries();
    let instance = Rc::new(alloc, InstanceType { entries })?;
    let declared = Rc::new(alloc, DeclaredInstance { own, instance })?;
    Ok(KnownEntry {
        kind: TypeItem::Instance(declared),
        depth: u32::min(deepest, 100) + 1,
    })
}

/// Whether a depth and a number of parts, as they are kept, are within the limits.
#[tactic(auto, using(crate::proofs::ClosingLemmas::under))]
fn are_within(depth: u32, parts: u32) -> bool
    ensures { (d p : ℕ) → depth ≡ min d 101 → parts ≡ min p 1000001 → result ≡ (nat_le d 100 && nat_le p 1000000) }
{
    depth <= 100 && parts <= 1_000_000
}

/// Whether a type keeps the limits on depth and parts.
fn is_small(entry: &KnownEntry) -> bool
    ensures { (e : TypeEntry) → IsEntry e entry.now → result ≡ is_within_limits e }
{
    are_within(entry.depth, entry.kind.parts())
}

/// Adds an instance type in whose scope this is the number of the next resource.
fn add_entry(scope: &mut Scope, entry: KnownEntry, next: u32) -> Result<(), NoMemory>
    ensures { OnOk result ((t : Space) → (e : TypeEntry) → Stands t scope.old → IsEntry e entry → Stands (and_depth (record (and_type t e) { next = next }) e.depth) scope.new) }
{
    let depth = entry.depth;
    scope.add_entry(entry)?;
    scope.next = next;
    scope.deepest = u32::max(scope.deepest, depth);
    Ok(())
}

/// An instance type whose scope is whole: it is added, unless it is beyond the limits.
fn close_inner(alloc: Global, scope: &mut Scope, inner: Scope) -> Result<Option<u32>, NoMemory>
    ensures { IfOk result (λ rule. (t s : Space) → Stands t scope.old → Stands s inner → Closes t s scope.new rule) }
{
    let next = inner.next;
    let entry = entry_of(alloc, inner)?;
    if is_small(&entry) {
        add_entry(scope, entry, next)?;
        Ok(None)
    } else {
        Ok(Some(10))
    }
}

/// Closes the innermost instance type, and adds it to the next scope, unless it is beyond the limits. Where no scope stands around it
/// nothing changes.
pub fn close_type(alloc: Global, scopes: &mut Scopes) -> Result<Option<u32>, NoMemory>
    ensures inner { IfOk result (λ rule. (around : List Space) → (t s : Space) → StandAll (t ∷ around) s scopes.old → ClosesIn around t s scopes.new rule) }
    ensures alone { IfOk result (λ rule. (s : Space) → StandAll [] s scopes.old → (rule ≡ None) × StandAll [] s scopes.new) }
{
    match scopes.close() {
        None => Ok(None),
        Some(inner) => close_inner(alloc, &mut scopes.inner, inner),
    }
}
