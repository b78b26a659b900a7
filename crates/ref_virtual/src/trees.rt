//! The law that a table of trees says of its nodes what the reference host's definition says of the trees. It holds no code but
//! the law.

ghost use Rattle.ref_virtual.specs.Agreeing.{TablesAgree};

/// The table that holds trees agrees with the definition: what a node is, where a text leads from it, its place in its tree's
/// order, and what is in it.
pub fn tables_agree()
    ensures { TablesAgree }
{}
