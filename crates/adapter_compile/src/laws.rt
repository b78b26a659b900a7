//! The law that the code of a routine does what the routine does, in a bounded number of steps.

ghost use Rattle.adapter_compile.specs.Does.{RoutinesDo};

/// The code of a routine does what the routine does, in at most 32 steps for each statement that is run and 32 more.
pub fn routines_do()
    ensures { RoutinesDo }
{}
