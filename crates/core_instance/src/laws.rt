//! The law that a module that was read has as many bodies as functions, and as many data segments as its data count says. No code but the
//! law.

ghost use Rattle.core_instance.specs.Matching.{SpelledModulesHaveCounts};

/// A module that bytes spell, and so each module that was read, has its counts. The call does nothing: its contract is the law.
pub fn spelled_modules_have_counts()
    ensures { SpelledModulesHaveCounts }
{}
