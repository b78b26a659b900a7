//! The law that what the reference host answers has the result type of its call, where the numbers of its state are within their
//! words.

ghost use Rattle.reference_host.specs.Typed.{AnswersAreTyped, AnswersAreTypedWhereAsked};

use host_port::Host;

/// Answers have their calls' result types, if those of the host that is asked have theirs. It does nothing when it runs.
pub fn answers_are_typed<H: Host>()
    ensures asked { AnswersAreTypedWhereAsked H.step }
    ensures all { AnswersAreTyped H.step }
{}
