//! What may be written of the code of routines.
ghost use Rattle.adapter_bytes.specs.Spelled.{RoutinesAreSpelled, BodiesAreSpelled};

/// The code of a well-formed routine may be written wherever it stands, in at most 107 bytes a statement and 4 more.
pub fn routines_are_spelled()
    ensures { RoutinesAreSpelled }
{}

/// The body of a function may be written whose code may be.
pub fn bodies_are_spelled()
    ensures { BodiesAreSpelled }
{}
