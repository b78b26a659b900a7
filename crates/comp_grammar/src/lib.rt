//! The formats of components: how their trees are spelled in bytes (Component Model, Binary.md).
#![tactic(auto)]

ghost use Rattle.std.specs.Prelude.{◌≡◌, ◌≤◌, ℕ, List};
ghost use Rattle.comp_grammar.specs.Trees.{Tree};
ghost use Rattle.comp_grammar.specs.Components.{SpellsAt, SpellsComponent, component};
ghost use Rattle.comp_grammar.specs.Depths.{depth_of};

/// The law that no bytes spell two components, however deep. It does nothing when it runs.
pub fn spelled_once()
    ensures { (t u : Tree) → (text : List ℕ) → SpellsComponent t text → SpellsComponent u text → t ≡ u }
{}

/// The law that a spelling in which at most `d` components stand in one another is one of a component that is at most `d` deep, and
/// no other. It does nothing when it runs.
pub fn depth_stands_apart()
    ensures within { (d at : ℕ) → (t : Tree) → (text : List ℕ) → (component d).Spells at t text → depth_of t ≤ d }
    ensures bounded { (at : ℕ) → (t : Tree) → (text : List ℕ) → (d : ℕ) → depth_of t ≤ d → SpellsAt at t text → (component d).Spells at t text }
{}
