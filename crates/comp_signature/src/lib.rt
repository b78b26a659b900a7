//! The type of a component: what it imports and what it exports.
#![tactic(auto)]

use comp_types::InstanceEntries;

/// The type of a component: what it imports and what it exports, each in written order (Component Model, Explainer.md, "Type
/// Definitions"). Resources are numbers, and different resources have different ones.
#[derive(Debug, Drop)]
pub struct ComponentType {
    pub imports: InstanceEntries,
    pub exports: InstanceEntries,
}
