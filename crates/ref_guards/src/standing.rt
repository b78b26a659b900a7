//! What the handles of an answer stand for, before they have numbers: handles of the host, or what was made.

ghost use Rattle.std.specs.Prelude.{◌≡◌};
ghost use Rattle.ref_guards.specs.Entering.{stands_for};

use ref_rules::Content;

/// What the handles of an answer stand for.
#[derive(Debug, Clone, Copy, PartialEq, Eq)]
pub enum Standing {
    /// Each for the host's handle of its number.
    Hosts,
    /// The one of number 0 for what was made, if anything was.
    Made(Option<Content>),
}

impl Standing {
    /// What the handle of a number stands for.
    pub fn content(self, id: u32) -> Content
        ensures { result ≡ stands_for self id }
    {
        match self {
            Standing::Hosts => Content::Host(id),
            Standing::Made(None) => Content::Always,
            Standing::Made(Some(content)) => { if id == 0 { content } else { Content::Always } }
        }
    }
}
