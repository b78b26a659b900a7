//! The paths of one tree, and whether one more clashes with them. They stand in an ordered map, so that it is compared with its neighbours
//! alone.

ghost use Rattle.std.specs.Prelude.{◌≡◌, ◌||◌, ◌&&◌, not, map, [], IfOk, OnErr, IsTrue, Bool, true, false};
ghost use Rattle.std.specs.List.{list_any};
ghost use Rattle.path_names.specs.Paths.{Placed, covers, clashes, is_clear};
ghost use Rattle.policy_text.specs.PathKeys.{placed_of, rank, unrank};

use std::alloc::Global;
use std::collections::BTreeMap;
use std::marker::Model;
use std::ops::Bound;
use virt_base::NoMemory;

/// The paths of a tree so far, no two of which clash. Kept in an order in which what lies in a path stands right
/// after it, so that one look before and one after a path find what it clashes with.
#[derive(Drop)]
pub struct Paths {
    leaves: BTreeMap<Vec<u8>, bool>,
}

impl Model for Paths {
    ghost use Rattle.std.specs.Prelude.{◌≡◌, List, map, true};
    ghost use Rattle.path_names.specs.Paths.{Placed, is_clear};
    ghost use Rattle.policy_text.specs.PathKeys.{placed_of};

    ghost Value = { List Placed };

    ghost view = { λ p. map placed_of p.leaves.entries };

    ghost invariant = { λ p. is_clear (map placed_of p.leaves.entries) ≡ true };
}

impl Paths {
    pub fn new(alloc: Global) -> Paths
        ensures { result ≡ [] }
    {
        Paths {
            leaves: BTreeMap::new(alloc),
        }
    }

    /// Adds a path, unless it clashes with one that is there. Where it does, or memory runs out, nothing changes.
    pub fn add(&mut self, alloc: Global, path: &str, leaf: bool) -> Result<bool, NoMemory>
        ensures clear { IfOk result (λ added. added ≡ not (list_any (clashes (record { path = path.now; leaf = leaf })) self.old)) }
        ensures added { IfOk result (λ added. IsTrue added → (test : Placed → Bool)
            → list_any test self.new ≡ (test (record { path = path.now; leaf = leaf }) || list_any test self.old)) }
        ensures stays { IfOk result (λ added. added ≡ false → self.new ≡ self.old) }
        ensures err { OnErr result (self.new ≡ self.old) }
    {
        let key = key_of(alloc, path.as_bytes())?;
        if clashes(&self.leaves, &key, leaf) {
            return Ok(false);
        }
        self.leaves.insert(key, leaf)?;
        Ok(true)
    }
}

fn rank(byte: u8) -> u8
    ensures { result ≡ rank byte }
{
    if byte == b'/' {
        0
    } else if byte < b'/' {
        byte + 1
    } else {
        byte
    }
}

fn key_of(alloc: Global, path: &[u8]) -> Result<Vec<u8>, NoMemory>
    ensures { IfOk result (λ key. key.items ≡ map rank path.now) }
{
    Ok(path.iter().map(|byte| rank(*byte)).collect(alloc)?)
}

/// Whether the second key is the first, or that of a path in the first one's.
fn covers(outer: &[u8], inner: &[u8]) -> bool
    ensures { result ≡ covers (map unrank outer.now) (map unrank inner.now) }
{
    inner.starts_with(outer) && (inner.len() == outer.len() || inner[outer.len()] == 0)
}

/// Whether the path of a key is that of a leaf, or lies in it.
fn lies_in_leaf(leaves: &BTreeMap<Vec<u8>, bool>, key: &Vec<u8>) -> bool
    requires { is_clear (map placed_of leaves.now.entries) ≡ true }
    ensures { result ≡ list_any (λ q. q.leaf && covers q.path (map unrank key.now.items)) (map placed_of leaves.now.entries) }
{
    match leaves
        .range((Bound::Unbounded, Bound::Included(key)))
        .next_back()
    {
        None => false,
        Some((before, leaf)) => *leaf && covers(before.as_slice(), key.as_slice()),
    }
}

/// Whether the path of a key is there, or one that lies in it.
fn holds_path(leaves: &BTreeMap<Vec<u8>, bool>, key: &Vec<u8>) -> bool
    ensures { result ≡ list_any (λ q. covers (map unrank key.now.items) q.path) (map placed_of leaves.now.entries) }
{
    match leaves
        .range((Bound::Included(key), Bound::Unbounded))
        .next()
    {
        None => false,
        Some((behind, _)) => covers(key.as_slice(), behind.as_slice()),
    }
}

/// Whether the path of a key clashes with one that is there.
#[tactic(auto, using(crate::proofs::PathEntries::clashes_either))]
fn clashes(leaves: &BTreeMap<Vec<u8>, bool>, key: &Vec<u8>, leaf: bool) -> bool
    requires { is_clear (map placed_of leaves.now.entries) ≡ true }
    ensures { result ≡ list_any (clashes (record { path = map unrank key.now.items; leaf = leaf })) (map placed_of leaves.now.entries) }
{
    lies_in_leaf(leaves, key) || leaf && holds_path(leaves, key)
}
