//! Validity of components, worked by hand by the rules of the Component Model's Binary.md and Explainer.md.

mod aliases;
mod annotated;
mod components;
mod functions;
mod instances;
mod names;
mod places;
mod resources;
mod rules;
mod sizes;
mod stated;
mod walks;

use crate::words::{broken_rule, said};
use comp_read::read_component;
use comp_validate::{CompFault, validate};
use std::alloc::Global;
use std::test::Fail;

pub fn answer(alloc: Global, bytes: &[u8]) -> Result<String, Fail> {
    let Ok(component) = read_component(alloc, bytes) else {
        return said(alloc, "not read");
    };
    match validate(alloc, &component) {
        Ok(_) => said(alloc, "valid"),
        Err(CompFault::Invalid(rule, section)) => broken_rule(alloc, rule, section),
        Err(CompFault::NoMemory) => said(alloc, "no memory"),
    }
}
