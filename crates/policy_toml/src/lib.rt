//! What a policy text says: its keys, their values and defaults, and its first fault.
#![tactic(auto)]

mod clocks;
mod contents;
mod env;
mod fs;
mod keys;
mod lists;
mod net;
mod policy;
mod reader;
mod stdio;
mod top;
mod tree;
mod values;

pub use policy::read_policy;
pub use policy_data::{
    Access, Arguments, Content, Deny, Embedded, EmbeddedFile, EmbeddedFiles, HostFiles, Link,
    Links, MonotonicClock, NetRules, Numbers, Pass, Passes, Policy, PortRange, Ranges,
    ReadPolicyFault, Rule, Rules, Scratch, Sockets, Stream, Texts, TreeContent, TreeSource,
    TreeSources, Variable, Variables, Version, WallClock, WallTime, WorkingDirectory,
};
