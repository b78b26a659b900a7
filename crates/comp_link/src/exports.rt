//! The law that the instance of a valid component exports what the component's type exports. No code but laws.

ghost use Rattle.comp_link.specs.Exports.{ExportsAreLinked, SpelledDefine};

/// What a valid component's instance exports is what the component's type exports: name by name, in order, a function of the type that
/// is exported, an instance with at least the items of its type, and a resource where the type has one.
pub fn linked_exports_are_those_of_the_type()
    ensures { ExportsAreLinked }
{}

/// Of a component that bytes spell, sections of types only define types.
pub fn spelled_components_define_types()
    ensures { SpelledDefine }
{}
