//! The laws that values with other numbers for their handles keep their type, and that what is loaded or lifted has the type. No code but
//! laws.

ghost use Rattle.abi_layout.specs.Handles.{HandlesKeep, TypesKeep};
ghost use Rattle.abi_layout.specs.Loading.{LoadedHasType, LiftedHasType};

/// A value with other numbers for its handles has as many handles, in the same order and of the same types, and these numbers
/// are theirs; and it is a value of the same type.
pub fn renumbered_values_keep()
    ensures handles { HandlesKeep }
    ensures types { TypesKeep }
{}

/// A value that is loaded from memory, or lifted from flat values, has the type.
pub fn loaded_values_have_types()
    ensures memory { LoadedHasType }
    ensures flat { LiftedHasType }
{}
