//! Rows for types and values, their layout, handles, places and trees; the listed interfaces of WASI 0.2; and types of items.
#![tactic(auto)]

#[cfg(test)]
mod handles;
#[cfg(test)]
mod items;
#[cfg(test)]
mod layouts;
#[cfg(test)]
mod named;
#[cfg(test)]
mod places;
#[cfg(test)]
mod relations;
#[cfg(test)]
mod rows;
#[cfg(test)]
mod trees;
#[cfg(test)]
mod types;
#[cfg(test)]
mod wasi;
