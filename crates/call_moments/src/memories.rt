//! The law that no memory becomes shorter.

ghost use Rattle.call_moments.specs.MemoryLaws.{MemoriesNeverShrink};

/// Whatever core code does up to its next pause, and whatever is stored, each memory has as many bytes as before, or more.
pub fn memories_never_shrink()
    ensures { MemoriesNeverShrink }
{}
