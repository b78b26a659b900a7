//! The law that a valid component asks of its outside only what its type says that it imports.

ghost use Rattle.comp_joins.specs.Imported.{ValidAskEntries, ValidDropImported};

/// What a valid component asks of its outside stands in its type: each import of its group is an entry of the component's imports, with
/// its type, and what it drops and does not define is a resource of them.
pub fn valid_components_ask_what_they_import()
    ensures calls { ValidAskEntries }
    ensures drops { ValidDropImported }
{}
