//! Imports, exports and the instances of a component, and what their descriptions describe: the rules that are asked of them, of
//! annotated names and of aliases of what instances export, and what these add to a scope.
#![tactic(auto)]

mod again;
mod aliases;
mod annotated;
mod declares;
mod describes;
mod descriptions;
mod exports;
mod externs_again;
mod given;
mod giving;
mod imports;
mod inline;
mod instances;
mod instantiate;
mod kinds;
mod made;
mod numbering;
mod stated;

pub use again::add_type_again;
pub use aliases::{define_export_alias, define_type_export_alias};
pub use annotated::name_fits;
pub use declares::define_type_export;
pub use describes::{add_described, describe};
pub use descriptions::Described;
pub use exports::define_export;
pub use giving::{Fresh, give_numbers};
pub use imports::define_import;
pub use instances::define_instance;
pub use numbering::own_resources;
