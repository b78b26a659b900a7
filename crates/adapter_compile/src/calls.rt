//! By which functions code makes and drops handles, kind by kind.

use virt_base::Items;

/// The index of a function for each kind, by its number; none where a kind has none.
pub type Calls = Items<Option<u32>>;

/// The functions of a module by which handles are made and dropped.
#[derive(Debug, Drop)]
pub struct HandleCalls {
    pub makes: Calls,
    pub drops: Calls,
}
