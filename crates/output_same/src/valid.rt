//! What outputs are as components: laws alone.

ghost use Rattle.std.specs.Prelude.{◌≡◌, ℕ, false};
ghost use Rattle.comp_grammar.specs.Trees.{Tree};
ghost use Rattle.comp_write.specs.Copying.{bare};
ghost use Rattle.comp_types.specs.Items.{End};
ghost use Rattle.comp_types.specs.Resources.{entries_have_resource};
ghost use Rattle.comp_types.specs.Added.{type_of};
ghost use Rattle.comp_types.specs.Validity.{IsValidComponent};
ghost use Rattle.output_same.specs.ValidLaws.{StandsAlone, output_of, ExportsRenamed, KeepsApart};

/// The law that the output of a valid component that imports nothing is a valid component. It does nothing when it runs.
pub fn output_is_valid()
    ensures { (app : Tree) → StandsAlone app → IsValidComponent (output_of app) }
{}

/// The law that such an output imports nothing. It does nothing when it runs.
pub fn output_imports_nothing()
    ensures { (app : Tree) → StandsAlone app → (type_of (output_of app)).imports ≡ End }
{}

/// The law that it exports what the component exports, name by name, functions, instances and types: the same where the exports speak
/// of no resource, and else up to the numbers of resources, of which no two become one. It does nothing when it runs.
pub fn output_exports_the_same()
    ensures same { (app : Tree) → StandsAlone app → entries_have_resource (type_of app).exports ≡ false → (type_of (output_of app)).exports ≡ (type_of app).exports }
    ensures renamed { (app : Tree) → StandsAlone app → (f : ℕ → ℕ) × ExportsRenamed app f × KeepsApart app f }
{}

/// The law that where the parts of a component stand in its bytes makes no difference to its validity and its type. It does nothing
/// when it runs.
pub fn places_make_no_difference()
    ensures { (t u : Tree) → bare t ≡ bare u → IsValidComponent t → IsValidComponent u × (type_of t ≡ type_of u) }
{}
