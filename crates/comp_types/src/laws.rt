//! Laws of validity: a valid component breaks no rule, a component breaks one at most, and what arguments give is each partner.

ghost use Rattle.std.specs.Prelude.{◌≡◌, ℕ};
ghost use Rattle.comp_grammar.specs.Trees.{Tree};
ghost use Rattle.comp_types.specs.Items.{Entries};
ghost use Rattle.comp_types.specs.Subtyping.{Takes};
ghost use Rattle.comp_types.specs.GivenResources.{given_by};
ghost use Rattle.comp_types.specs.Subtyping.{AreGiven};
ghost use Rattle.comp_types.specs.Validity.{BreaksComponent, IsValidComponent};

/// The law that a valid component breaks no rule. It does nothing when it runs.
pub fn valid_breaks_nothing()
    ensures { (tree : Tree) → (rule section : ℕ) → IsValidComponent tree → BreaksComponent tree rule section → ⊥ }
{}

/// The law that a component breaks one rule in one section alone. It does nothing when it runs.
pub fn fault_is_one()
    ensures { (tree : Tree) → (a b m n : ℕ) → BreaksComponent tree a m → BreaksComponent tree b n → (a ≡ b) × (m ≡ n) }
{}

/// The law that what arguments give for the resources of imports, name by name, is what each partner must be under which the
/// imports are met. It does nothing when it runs.
pub fn given_is_partner()
    ensures { (args imports : Entries) → (partner : ℕ → ℕ) → AreGiven (λ x y. x ≡ partner y) args imports → Takes partner (given_by args imports) }
{}
