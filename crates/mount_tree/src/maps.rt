//! The law that a tree that is built has the path map of what was made.

ghost use Rattle.std.specs.Prelude.{◌≡◌, ℕ, List};
ghost use Rattle.tree_table.specs.Trees.{IsTree, tree_map};
ghost use Rattle.tree_table.specs.declared.entries.NamedTree.{NamedTree};
ghost use Rattle.mount_tree.specs.declared.forest.MadeTree.{MadeTree};
ghost use Rattle.mount_tree.specs.Ordered.{IsOrdered};

/// The law that putting what was made of a tree in order keeps what each path leads to. It does nothing when it runs.
pub fn order_keeps_the_map()
    ensures { (made : MadeTree) → (tree : NamedTree) → IsTree tree.entries → IsOrdered made tree → (path : List (List ℕ)) → tree_map tree.entries path ≡ tree_map made.nodes path }
{}
