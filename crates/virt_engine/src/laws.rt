//! The law that one status is due of each call.

ghost use Rattle.std.specs.Prelude.{◌≡◌, ℕ, List};
ghost use Rattle.outside.specs.Files.{Held};
ghost use Rattle.virt_engine.specs.Alike.{CameTo};
ghost use Rattle.virt_engine.specs.Command.{PlugCommand, RunCommand};
ghost use Rattle.virt_engine.specs.Plan.{IsDue};
ghost use Rattle.virt_engine.specs.Plugging.{IsPlugDue};
ghost use Rattle.virt_engine.specs.RunDue.{CanBeRun, IsRunRefused};
ghost use Rattle.virt_engine.specs.Runs.{Ends};
ghost use Rattle.virt_engine.specs.declared.status.Status.{Status};

/// The law that files with some contents and words call for one status at most: of several causes of a refusal, one comes
/// first, and a call that is accepted is not refused. The same of `plug`. It does nothing when it runs.
pub fn one_status_is_due()
    ensures virt { (held : Held) → (words : List (List ℕ)) → (a b : Status) → IsDue held words a → IsDue held words b → a ≡ b }
    ensures plug { (held : Held) → (c : PlugCommand) → (a b : Status) → IsPlugDue held c a → IsPlugDue held c b → a ≡ b }
{}

/// The same of a run: of several causes why nothing is run, one comes first, and a run that can be made is not refused.
pub fn one_refusal_is_due()
    ensures one { (held : Held) → (c : RunCommand) → (a b : Status) → IsRunRefused held c a → IsRunRefused held c b → a ≡ b }
    ensures none { (held : Held) → (c : RunCommand) → (status : Status) → CanBeRun held c → ¬ (IsRunRefused held c status) }
{}

/// The law that runs with the same words over files with the same contents end alike: of contents that can be run the end is one,
/// and two calls answer the same status and put the same text, line by line.
pub fn runs_end_alike()
    ensures ends { (held : Held) → (c : RunCommand) → (a b : Status) → Ends held c a → Ends held c b → a ≡ b }
    ensures calls { (held : Held) → (words : List (List ℕ)) → (a b : Status) → (x y : List ℕ) → CameTo held words a x → CameTo held words b y → (a ≡ b) × (x ≡ y) }
{}
