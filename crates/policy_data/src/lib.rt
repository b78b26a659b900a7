//! What a policy says, as values: its words, lists, trees and rules, and why a text is refused.
#![tactic(auto)]

mod data;
mod fault;
mod policy;
mod words;

pub use data::{
    Arguments, Content, Embedded, EmbeddedFile, EmbeddedFiles, Link, Links, MonotonicClock,
    NetRules, Network, Numbers, Pass, Passes, PortRange, Ranges, Rule, Rules, Scratch, Texts,
    TreeContent, TreeSource, TreeSources, Variable, Variables, WallClock, WallTime,
    WorkingDirectory,
};
pub use fault::ReadPolicyFault;
pub use policy::Policy;
pub use words::{Access, Deny, HostFiles, Sockets, Stream, Version, Word};
