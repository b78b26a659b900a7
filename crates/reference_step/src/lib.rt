//! What the reference host does at each call of a listed function: definitions alone.
//!
//! `specs/Steps` is the step: what must hold of a call, then weight, room, denial, the host, and what is answered without it.
//! `specs/Access` says which functions ask the host under a policy. The rows of the functions that are answered without the host
//! stand by resource, each under its WIT name: `InputStreams`, `OutputStreams`, `Pollables`, `Environment`, `Clocks`, `Stdio`,
//! `Descriptors` and `EntryStreams`.
#![tactic(auto)]

ghost use Rattle.reference_step.specs.Steps.{reference_step};
