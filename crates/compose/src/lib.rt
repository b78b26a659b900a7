//! Composing: from a policy and an application to the output component, in which an adapter and the application are joined. What is
//! made is checked before it is answered.
#![tactic(auto)]

mod checked;
mod composed;
mod composing;
mod fault;

pub use composed::Composed;
pub use composing::compose;
pub use fault::ComposeFault;
