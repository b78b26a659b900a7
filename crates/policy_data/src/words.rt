//! The choices that a policy spells by one word, and which word stands for which.

ghost use Rattle.std.specs.Prelude.{◌≡◌, List, ℕ, Option};
ghost use Rattle.policy_data.specs.Words.{access_named, deny_named, host_files_named, monotonic_named, sockets_named, stream_named, wall_named};

use crate::data::{MonotonicClock, WallClock};

/// What a word of a policy stands for.
pub trait Word: Drop {
    /// The value of a word; none for another text.
    ghost named: { List ℕ → Option Self };

    fn named(word: &str) -> Option<Self>
        ensures { result ≡ named word.now };
}

/// The version of the policy's form. The second has links in its trees.
#[derive(Debug, Clone, Copy, PartialEq, Eq)]
pub enum Version {
    One,
    Two,
}

/// What a denied function does.
#[derive(Debug, Clone, Copy, PartialEq, Eq)]
pub enum Deny {
    Trap,
    Error,
}

impl Word for Deny {
    ghost named = { deny_named };

    fn named(word: &str) -> Option<Deny> {
        match word {
            "trap" => Some(Deny::Trap),
            "error" => Some(Deny::Error),
            _ => None,
        }
    }
}

/// What a standard stream does.
#[derive(Debug, Clone, Copy, PartialEq, Eq)]
pub enum Stream {
    /// The host's stream.
    Allow,
    /// An empty input, or an output that drops what it is given.
    Ignore,
    /// None.
    Deny,
}

impl Word for Stream {
    ghost named = { stream_named };

    fn named(word: &str) -> Option<Stream> {
        match word {
            "allow" => Some(Stream::Allow),
            "ignore" => Some(Stream::Ignore),
            "deny" => Some(Stream::Deny),
            _ => None,
        }
    }
}

/// Whether functions reach the host.
#[derive(Debug, Clone, Copy, PartialEq, Eq)]
pub enum Access {
    Allow,
    Deny,
}

impl Word for Access {
    ghost named = { access_named };

    fn named(word: &str) -> Option<Access> {
        match word {
            "allow" => Some(Access::Allow),
            "deny" => Some(Access::Deny),
            _ => None,
        }
    }
}

/// Whether sockets reach the host.
#[derive(Debug, Clone, Copy, PartialEq, Eq)]
pub enum Sockets {
    Allow,
    Deny,
    /// As far as the rules on addresses allow.
    Rules,
}

impl Word for Sockets {
    ghost named = { sockets_named };

    fn named(word: &str) -> Option<Sockets> {
        match word {
            "allow" => Some(Sockets::Allow),
            "deny" => Some(Sockets::Deny),
            "rules" => Some(Sockets::Rules),
            _ => None,
        }
    }
}

/// Which of the host's folders the application sees.
#[derive(Debug, Clone, Copy, PartialEq, Eq)]
pub enum HostFiles {
    /// None but those that are passed by name.
    Deny,
    All,
}

impl Word for HostFiles {
    ghost named = { host_files_named };

    fn named(word: &str) -> Option<HostFiles> {
        match word {
            "deny" => Some(HostFiles::Deny),
            "all" => Some(HostFiles::All),
            _ => None,
        }
    }
}

impl Word for WallClock {
    ghost named = { wall_named };

    fn named(word: &str) -> Option<WallClock> {
        match word {
            "allow" => Some(WallClock::Allow),
            "deny" => Some(WallClock::Deny),
            _ => None,
        }
    }
}

impl Word for MonotonicClock {
    ghost named = { monotonic_named };

    fn named(word: &str) -> Option<MonotonicClock> {
        match word {
            "allow" => Some(MonotonicClock::Allow),
            "deny" => Some(MonotonicClock::Deny),
            _ => None,
        }
    }
}
