//! Laws of valid code (WebAssembly Core 2.0, section 3.3): of routines, of pieces one after another, and of bodies and whole functions.

ghost use Rattle.adapter_transfer.specs.Valid.{RoutinesAreValid, PiecesJoin, BodiesAreValid, FunctionsAreValid};

/// The code of a well-formed routine has its type by the rules of validation (WebAssembly Core 2.0, section 3.3), and keeps
/// the other rules, in each function that has its locals, its counters, a memory, and functions for handles.
pub fn routines_are_valid()
    ensures { RoutinesAreValid }
{}

/// Code after code is valid where both are.
pub fn pieces_join()
    ensures { PiecesJoin }
{}

/// A body is valid whose code leaves the function's results.
pub fn bodies_are_valid()
    ensures { BodiesAreValid }
{}

/// The body that `compile` makes of a well-formed routine is valid in each module that has a memory and the functions for
/// handles.
pub fn functions_are_valid()
    ensures { FunctionsAreValid }
{}
