//! The law of finding a folder's child by halves, one probe after another, as emitted code does.

ghost use Rattle.std.specs.Prelude.{◌≡◌, ℕ, ◌-◌, ◌<◌, ◌^◌, List, Option};
ghost use Rattle.tree_table.specs.declared.entries.Node.{Node};
ghost use Rattle.tree_table.specs.Folders.{AreChildren};
ghost use Rattle.mount_tree.specs.Halves.{IsSorted, IsChild, LeadsTo, child_of};

/// The law that halves find the child of a name: as many probes suffice as the number of children has binary digits (`finds`); what
/// finds the child in any way finds the same (`one`); and where the children are all that is in a folder, the child is what the tree has
/// at the path with that name (`leads`). It does nothing when it runs.
pub fn halves_find_the_child()
    ensures finds { (name : ℕ → List ℕ) → (digits from to : ℕ) → (part : List ℕ) → IsSorted name from to → to - from < 2 ^ digits → IsChild name from to part (child_of name digits from to part) }
    ensures one { (name : ℕ → List ℕ) → (from to : ℕ) → (part : List ℕ) → (a b : Option ℕ) → IsSorted name from to → IsChild name from to part a → IsChild name from to part b → a ≡ b }
    ensures leads { (look : ℕ → List (List ℕ) → Option Node) → (tree : ℕ → ℕ) → (path : ℕ → List (List ℕ)) → (name : ℕ → List ℕ) → (nodes node digits from to : ℕ) → (part : List ℕ) → AreChildren look tree path name nodes node from to → to - from < 2 ^ digits → LeadsTo look tree path nodes node part (child_of name digits from to part) }
{}
