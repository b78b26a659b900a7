//! The scopes of a component: its index spaces, those of core items among them, what stands at an index, what a definition of core
//! items does in them, and the rules that are asked of it.
#![tactic(auto)]

mod aliases;
mod arguments;
mod by_name;
mod core_definitions;
mod core_scope;
mod entries;
mod functions;
mod instances;
mod items;
mod kinds;
mod matching;
mod modules;
mod named;
mod numbers;
mod scope;

pub use aliases::{add_core_alias, core_alias_fault};
pub use by_name::CoreMap;
pub use core_definitions::{define_core_alias, define_core_instance};
pub use core_scope::CoreScope;
pub use core_validate::Shared;
pub use entries::{KnownComponent, KnownEntry};
pub use functions::{facts_at, facts_of_none, func_at, no_func};
pub use instances::{add_core_instance, core_instance_fault};
pub use items::SharedItem;
pub use kinds::{is_func_at, is_instance_at};
pub use modules::{KnownModule, known_module, valid_module};
pub use named::NamedEntries;
pub use numbers::Numbers;
pub use scope::Scope;
