//! Writing a component section by section. What is nested is given as its bytes, and a section of items as their list. What is
//! written is a component at every moment.

ghost use Rattle.std.specs.Prelude.{◌≡◌, List, ℕ};
ghost use Rattle.comp_grammar.specs.Trees.{Tree};
ghost use Rattle.comp_grammar.specs.Components.{SpellsComponent};
ghost use Rattle.comp_write.specs.Copying.{SpellsBare, bare};

/// The law that whatever component has a spelling of this one is this one, up to the places of its parts. It does nothing when it
/// runs.
pub fn what_is_written_is_read()
    ensures { (t : Tree) → (out : List ℕ) → SpellsBare 0 t out → (u : Tree) → SpellsComponent u out → bare u ≡ bare t }
{}
