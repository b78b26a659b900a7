//! The store of core modules: functions, with their code and the places to which its branches lead, tables, memories, globals, segments
//! and instances, each named by its place.
#![tactic(auto)]

mod brackets;
mod code;
mod globals;
mod laws;
mod locals;
mod makers;
mod memories;
mod state;
mod table;
mod tables;
mod value;

pub use brackets::Jump;
pub use code::Code;
pub use core_integer::integer;
pub use core_memory::StoreFault;
pub use globals::{global_get, global_set};
pub use laws::{
    calls_are_bodies, fine_stores_grow, growth_adds_up, nesting_comes_back, replies_are_asked_for,
    steps_are_counted, store_calls_grow, stores_begin_fine, stores_come_back, turns_are_bodies,
};
pub use locals::Locals;
pub use makers::{
    add_elements, add_function, add_global, add_instance, add_memory, add_segment, add_table,
};
pub use memories::{copy, drop_segment, fill, grow, init, load, read, size, store_at, write};
pub use state::{Store, function, functions, instances, spaces};
pub use tables::{
    drop_element, table_copy, table_fill, table_get, table_grow, table_init, table_set, table_size,
};
pub use value::{CoreRef, CoreRefs, CoreSpaces, CoreValue, StoreFunc, TooDeep};
pub use wasm_ast::Shared;
