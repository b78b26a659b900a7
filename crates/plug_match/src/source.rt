//! Where an import of the second component comes from, the first component or the host, and what is known of the imports while they are
//! matched.

use comp_types::Substitution;
use virt_base::Items;
use wasi_match::ListedUse;

/// Where an import of the second component comes from.
#[derive(Debug, Drop)]
pub enum Source {
    /// The first exports an instance of its name.
    Met,
    /// The host, of a listed interface.
    Host(ListedUse),
}

/// Where the imports of the second component come from, one for each in written order.
#[derive(Debug, Drop)]
pub struct Second {
    pub sources: Items<Source>,
}

/// What is known of the imports so far.
#[derive(Debug, Drop)]
pub struct Plugging {
    pub sources: Items<Source>,
    /// The resources of the second, each with its number of the whole.
    pub by: Substitution,
    /// Those of them that imports from the host brought.
    pub own: Substitution,
}
