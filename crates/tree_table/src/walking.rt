//! The walk along a path from a node, with links followed, and the error codes of `wasi:filesystem/types` (WASI 0.2) where it leads
//! nowhere.

ghost use Rattle.std.specs.Prelude.{◌≡◌, ◌≢◌, ℕ, ◌+◌, ◌-◌, ◌*◌, ◌^◌, ◌<◌, ◌≤◌, [], ◌∷◌, ◌++◌, List, false, IfSome, IfNone, IfOk, IfErr, length, nat_eq};
ghost use Rattle.std.specs.Ordering.{nat_cmp};
ghost use Rattle.std.specs.Cmp.Lexicographic.{slice_cmp};
ghost use Rattle.std.specs.declared.cmp.Ordering.TheVariants.{Less};
ghost use Rattle.tree_table.specs.Paths.{At, Fails, is_empty, is_file, is_rooted, parts_of, resolve};
ghost use Rattle.tree_table.specs.Faults.{code_of};
ghost use Rattle.tree_table.specs.Turns.{TurnMeets};
ghost use Rattle.tree_table.specs.Tables.{count_of, map_of, tree_of, path_of, longest_of};

use crate::names::NameRead;
use crate::parts::{PartKind, begins_at_root, first_part, part_kind};
use crate::table::Table;
use std::cmp::Ordering;
use std::sync::ledger::Ledger;
use virt_base::Steps;

/// How many links a walk follows at most.
const MOST_LINKS: usize = 40;

/// Why a path leads nowhere.
#[derive(Clone, Copy, PartialEq, Eq, Debug)]
pub enum WalkFault {
    Loop,
    NoEntry,
    NotDirectory,
    NotPermitted,
}

impl WalkFault {
    /// The number of the error code: the place of its name in the enum `error-code` of `wasi:filesystem/types`.
    pub fn code(self) -> u8
        ensures { result ≡ code_of self }
    {
        match self {
            WalkFault::Loop => 15,
            WalkFault::NoEntry => 20,
            WalkFault::NotDirectory => 24,
            WalkFault::NotPermitted => 31,
        }
    }
}

/// The node of this name among those from `from` up to `to`, by halves.
fn find_child<N: NameRead, L: Ledger>(
    names: &N,
    from: u32,
    to: u32,
    part: &[u8],
    steps: &mut Steps<L>,
) -> Option<u32>
    requires inside { to ≤ N.nodes names.now }
    requires sorted { (i j : ℕ) → from ≤ i → i < j → j < to → slice_cmp nat_cmp (N.name names.now i) (N.name names.now j) ≡ Less }
    ensures found { IfSome result (λ at. (from ≤ at) × (at < to) × (N.name names.now at ≡ part.now)) }
    ensures none { IfNone result ((i : ℕ) → from ≤ i → i < to → N.name names.now i ≢ part.now) }
    ensures probes { (digits : ℕ) → to - from < 2 ^ digits → steps.new ≤ steps.old + digits }
{
    let mut low = from;
    let mut high = to;
    while low < high {
        let middle = low + (high - low) / 2;
        match names.compare(middle, part, steps) {
            Ordering::Less => low = middle + 1,
            Ordering::Greater => high = middle,
            Ordering::Equal => return Some(middle),
        }
    }
    None
}

/// What one part does: the walk goes on at a node, follows a target, or ends.
#[derive(Clone, Copy)]
pub enum Turn<'a> {
    Goes(u32),
    Follows(&'a [u8]),
    Ends(u32),
    Stops(WalkFault),
}

/// One part of a path. `last` says that no part comes after it.
fn take_part<'a, N: NameRead, L: Ledger>(
    names: &'a N,
    start: u32,
    current: u32,
    part: &[u8],
    last: bool,
    follow: bool,
    steps: &mut Steps<L>,
) -> Turn<'a>
    requires start { start < N.nodes names.now }
    requires current { current < N.nodes names.now }
    requires same_tree { N.tree names.now current ≡ N.tree names.now start }
    requires under { (below : List (List ℕ)) × (N.path names.now current ≡ below ++ N.path names.now start) }
    ensures meets { (below : List (List ℕ)) → N.path names.now current ≡ below ++ N.path names.now start → TurnMeets (N.look names.now) (N.tree names.now) (N.path names.now) (N.nodes names.now) (N.longest names.now) follow last (N.tree names.now start) (N.path names.now start) below part.now result }
    ensures probes { (digits : ℕ) → N.nodes names.now < 2 ^ digits → steps.new ≤ steps.old + digits }
{
    if names.is_file(current) {
        return Turn::Stops(WalkFault::NotDirectory);
    }
    match part_kind(part) {
        PartKind::Stay => Turn::Goes(current),
        PartKind::Up => {
            if current == start {
                return Turn::Stops(WalkFault::NotPermitted);
            }
            Turn::Goes(names.parent(current))
        }
        PartKind::Named => {
            let (from, to) = names.children(current);
            let Some(child) = find_child(names, from, to, part, steps) else {
                return Turn::Stops(WalkFault::NoEntry);
            };
            match names.target(child) {
                None => Turn::Goes(child),
                Some(target) => {
                    if last && !follow {
                        Turn::Ends(child)
                    } else {
                        Turn::Follows(target)
                    }
                }
            }
        }
    }
}

/// Whether no part comes after one, by what is left of its text and how many texts wait.
fn is_last(rest: Option<&[u8]>, depth: usize) -> bool
    ensures some { IfSome rest.entry (λ _. result ≡ false) }
    ensures none { IfNone rest.entry (result ≡ nat_eq depth 0) }
{
    match rest {
        Some(_) => false,
        None => depth == 0,
    }
}

/// What the parts of a path lead to from a folder or a link.
fn walk_parts<'a, N: NameRead, L: Ledger>(
    names: &'a N,
    node: u32,
    path: &'a [u8],
    follow: bool,
    steps: &mut Steps<L>,
) -> Result<u32, WalkFault>
    requires node { node < N.nodes names.now }
    requires folder { is_file (N.look names.now (N.tree names.now node) (N.path names.now node)) ≡ false }
    requires some { is_empty path.now ≡ false }
    requires below { is_rooted path.now ≡ false }
    ensures found { IfOk result (λ at. (at < N.nodes names.now) × (N.tree names.now at ≡ N.tree names.now node) × (resolve (N.look names.now (N.tree names.now node)) (N.path names.now node) path.now follow ≡ At (N.path names.now at))) }
    ensures fault { IfErr result (λ fault. resolve (N.look names.now (N.tree names.now node)) (N.path names.now node) path.now follow ≡ Fails (code_of fault)) }
    ensures probes { (digits : ℕ) → N.nodes names.now < 2 ^ digits → steps.new ≤ steps.old + (length (parts_of path.now) + 40 * N.longest names.now) * digits }
{
    let mut waiting: [&'a [u8]; MOST_LINKS] = [path; MOST_LINKS];
    let mut depth: usize = 0;
    let mut links: usize = 0;
    let mut current = node;
    let mut text: &'a [u8] = path;
    'parts: loop {
        let (part, rest) = first_part(text);
        let last = is_last(rest, depth);
        match take_part(names, node, current, part, last, follow, steps) {
            Turn::Stops(fault) => return Err(fault),
            Turn::Ends(at) => return Ok(at),
            Turn::Goes(next) => {
                current = next;
                match rest {
                    Some(rest) => text = rest,
                    None => {
                        if depth == 0 {
                            return Ok(current);
                        }
                        depth -= 1;
                        text = waiting[depth];
                    }
                }
            }
            Turn::Follows(target) => {
                if links == MOST_LINKS {
                    return Err(WalkFault::Loop);
                }
                if begins_at_root(target) {
                    return Err(WalkFault::NotPermitted);
                }
                links += 1;
                match rest {
                    Some(rest) => {
                        waiting[depth] = rest;
                        depth += 1;
                    }
                    None => {}
                }
                text = target;
            }
        }
    }
}

/// What a path leads to from a node, or the number of the error code of `wasi:filesystem/types`. At most 40 links are
/// followed; a link that the whole path names is followed only where `follow` is true. It takes no memory.
pub fn walk_by<'a, N: NameRead, L: Ledger>(
    names: &'a N,
    node: u32,
    path: &'a [u8],
    follow: bool,
    steps: &mut Steps<L>,
) -> Result<u32, u8>
    requires { node < N.nodes names.now }
    ensures found { IfOk result (λ at. (at < N.nodes names.now) × (N.tree names.now at ≡ N.tree names.now node) × (resolve (N.look names.now (N.tree names.now node)) (N.path names.now node) path.now follow ≡ At (N.path names.now at))) }
    ensures fault { IfErr result (λ code. resolve (N.look names.now (N.tree names.now node)) (N.path names.now node) path.now follow ≡ Fails code) }
    ensures probes { (digits : ℕ) → N.nodes names.now < 2 ^ digits → steps.new ≤ steps.old + (length (parts_of path.now) + 40 * N.longest names.now) * digits }
{
    if names.is_file(node) {
        return Err(WalkFault::NotDirectory.code());
    }
    if path.is_empty() {
        return Err(WalkFault::NoEntry.code());
    }
    if begins_at_root(path) {
        return Err(WalkFault::NotPermitted.code());
    }
    match walk_parts(names, node, path, follow, steps) {
        Ok(at) => Ok(at),
        Err(fault) => Err(fault.code()),
    }
}

/// What a path leads to from a node of a table, or the number of the error code, as `walk_by` says.
pub fn walk<L: Ledger>(
    table: &Table,
    node: u32,
    path: &[u8],
    follow: bool,
    steps: &mut Steps<L>,
) -> Result<u32, u8>
    requires { node < count_of table.now }
    ensures found { IfOk result (λ at. (at < count_of table.now) × (tree_of table.now at ≡ tree_of table.now node) × (resolve (map_of table.now (tree_of table.now node)) (path_of table.now node) path.now follow ≡ At (path_of table.now at))) }
    ensures fault { IfErr result (λ code. resolve (map_of table.now (tree_of table.now node)) (path_of table.now node) path.now follow ≡ Fails code) }
    ensures probes { (digits : ℕ) → count_of table.now < 2 ^ digits → steps.new ≤ steps.old + (length (parts_of path.now) + 40 * longest_of table.now) * digits }
{
    walk_by(table, node, path, follow, steps)
}
