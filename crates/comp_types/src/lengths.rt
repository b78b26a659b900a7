//! How many items stand in each index space, which is all that tests of indexes ask for (Component Model, Explainer.md, "Index Spaces").

/// How many items each index space holds.
#[derive(Debug, Clone, Copy, PartialEq, Eq)]
pub struct Lengths {
    pub core_functions: usize,
    pub core_tables: usize,
    pub core_memories: usize,
    pub core_globals: usize,
    pub core_modules: usize,
    pub core_instances: usize,
    pub functions: usize,
    pub types: usize,
    pub instances: usize,
    pub components: usize,
}
