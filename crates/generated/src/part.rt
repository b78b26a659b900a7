//! The lists of the generated component that have one item for each function; all else in it is the same for any number of them.

/// A list of a generated component that has one item for each function.
#[derive(Debug, Clone, Copy, PartialEq, Eq)]
pub enum Part {
    /// The types of the core module's functions.
    Functions,
    CoreExports,
    Bodies,
    /// Aliases of the core module's exports.
    Aliases,
    Lifts,
    Exports,
}
