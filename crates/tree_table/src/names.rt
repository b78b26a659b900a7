//! What a walk may read of nodes, as a trait. Names are compared and not read, so that a walk can count its probes.

ghost use Rattle.std.specs.Prelude.{◌≡◌, ◌≢◌, ℕ, ◌+◌, ◌<◌, ◌≤◌, [], ◌∷◌, List, Option, Some, IfSome, IfNone, length};
ghost use Rattle.std.specs.Ordering.{nat_cmp};
ghost use Rattle.std.specs.Cmp.Lexicographic.{slice_cmp};
ghost use Rattle.tree_table.specs.declared.entries.Node.{Node};
ghost use Rattle.tree_table.specs.Paths.{parts_of, is_file};
ghost use Rattle.tree_table.specs.Folders.{AreChildren};

use crate::entries::Node;
use std::cmp::Ordering;
use std::sync::ledger::Ledger;
use virt_base::Steps;

/// The nodes of trees, by their numbers. A walk learns a name by `compare` alone.
pub trait NameRead {
    /// How many nodes there are.
    ghost nodes: { Self → ℕ };

    /// What the tree at a place has at a path, whose innermost name comes first.
    ghost look: { Self → ℕ → List (List ℕ) → Option Node };

    /// The place of a node's tree.
    ghost tree: { Self → ℕ → ℕ };

    /// A node's path.
    ghost path: { Self → ℕ → List (List ℕ) };

    /// A node's own name.
    ghost name: { Self → ℕ → List ℕ };

    /// No target has more parts.
    ghost longest: { Self → ℕ };

    /// The range of a folder's children, which stand in byte order.
    fn children(&self, node: u32) -> (u32, u32)
        requires { node < nodes self.now }
        ensures { AreChildren (look self.now) (tree self.now) (path self.now) (name self.now) (nodes self.now) node result.0 result.1 };

    /// The folder in which a node is.
    fn parent(&self, node: u32) -> u32
        requires inside { node < nodes self.now }
        requires below { path self.now node ≢ [] }
        ensures inside { result < nodes self.now }
        ensures same_tree { tree self.now result ≡ tree self.now node }
        ensures parent { (name : List ℕ) → (above : List (List ℕ)) → path self.now node ≡ name ∷ above → path self.now result ≡ above };

    /// Whether a node is a file.
    fn is_file(&self, node: u32) -> bool
        requires { node < nodes self.now }
        ensures value { result ≡ is_file (look self.now (tree self.now node) (path self.now node)) }
        // No other node of the tree has this node's path.
        ensures alone { (other : ℕ) → other < nodes self.now → tree self.now other ≡ tree self.now node → path self.now other ≡ path self.now node → other ≡ node };

    /// A link's target.
    fn target(&self, node: u32) -> Option<&[u8]>
        requires { node < nodes self.now }
        ensures link { IfSome result (λ target. look self.now (tree self.now node) (path self.now node) ≡ Some (Node.Link target.now)) }
        ensures none { IfNone result ((target : List ℕ) → look self.now (tree self.now node) (path self.now node) ≢ Some (Node.Link target)) }
        ensures parts { IfSome result (λ target. length (parts_of target.now) ≤ longest self.now) };

    /// Compares a node's name with a part. It is one probe, of at most as many bytes as the name has.
    fn compare<L: Ledger>(&self, node: u32, part: &[u8], steps: &mut Steps<L>) -> Ordering
        requires { node < nodes self.now }
        ensures order { result ≡ slice_cmp nat_cmp (name self.now node) part.now }
        ensures short { length (name self.now node) ≤ 255 }
        ensures probe { steps.new ≡ steps.old + 1 };
}
