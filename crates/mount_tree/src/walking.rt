//! Laws of a walk along a path, step by step, as emitted code takes it: it leads to what the path leads to, in a bounded number of steps.

ghost use Rattle.std.specs.Prelude.{◌≡◌, ℕ, ◌-◌, ◌<◌, ◌≤◌, ◌^◌, Bool, List};
ghost use Rattle.tree_table.specs.Paths.{Answer, resolve};
ghost use Rattle.tree_table.specs.Tables.{Forest, IsSound, count_of, map_of, path_of, tree_of};
ghost use Rattle.mount_tree.specs.Steps.{HasEnded, Leads, Walk, begins, ended_by, enough, left, step, steps};

use std::sync::ledger::Ledger;
use tree_table::{Table, walk};
use virt_base::Steps;

/// The law that a step of a walk over sound nodes leads to the answer to which the walk leads, and leaves fewer steps (`turn`); that a
/// walk which begins leads to what its path leads to by the path map (`begin`); and that as many steps as a path has parts, forty
/// targets and one end the walk with that answer (`end`). It does nothing when it runs.
pub fn steps_lead_on()
    ensures turn { (f : Forest) → (digits start : ℕ) → (follow : Bool) → IsSound f → start < count_of f → count_of f < 2 ^ digits → (w : Walk) → (answer : Answer) → Leads f digits start follow w answer → Leads f digits start follow (step f digits start follow w) answer × (left f digits start follow (step f digits start follow w) ≤ left f digits start follow w - 1) }
    ensures begin { (f : Forest) → (digits start : ℕ) → (follow : Bool) → IsSound f → start < count_of f → count_of f < 2 ^ digits → (path : List ℕ) → Leads f digits start follow (begins f digits start follow path) (resolve (map_of f (tree_of f start)) (path_of f start) path follow) }
    ensures end { (f : Forest) → (digits start : ℕ) → (follow : Bool) → IsSound f → start < count_of f → count_of f < 2 ^ digits → (path : List ℕ) → (n : ℕ) → enough f digits start follow path ≤ n → HasEnded f digits start follow (steps f digits start follow n (begins f digits start follow path)) (resolve (map_of f (tree_of f start)) (path_of f start) path follow) }
{}

/// What a path leads to from a node of a table, or the number of the error code: the walk of `tree_table`, which ends as the steps do.
/// The table is one that was built.
pub fn walk_in_steps<L: Ledger>(
    table: &Table,
    node: u32,
    path: &[u8],
    follow: bool,
    probes: &mut Steps<L>,
) -> Result<u32, u8>
    requires node { node < count_of table.now }
    requires sound { IsSound table.now }
    ensures { (digits n : ℕ) → count_of table.now < 2 ^ digits → enough table.now digits node follow path.now ≤ n → steps table.now digits node follow n (begins table.now digits node follow path.now) ≡ ended_by result }
{
    walk(table, node, path, follow, probes)
}
