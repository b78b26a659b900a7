//! The law that arguments of a listed function are bytes where it takes bytes: each list of numbers that is the second argument of a
//! listed function is one of bytes.

ghost use Rattle.reference_host.specs.BytesTyped.{TypedAreBytes};

/// Arguments that have the types of a listed function's parameters are bytes where it takes bytes. It does nothing when it runs.
pub fn arguments_are_bytes()
    ensures { TypedAreBytes }
{}
