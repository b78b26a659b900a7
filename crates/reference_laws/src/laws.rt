//! The laws of which calls the reference host answers alone, which may reach the host that is asked, and what handles stand for.

ghost use Rattle.reference_laws.specs.Closed.{NothingReachesTheHost};
ghost use Rattle.reference_laws.specs.Reaching.{DeniedChangeNothing, OwnOrLetThrough};
ghost use Rattle.reference_laws.specs.Standing.{AnswersHoldTheHostsKinds, HandlesStandAsTheyMay};

use host_port::Host;

/// The law that a call either is answered by the policy, its trees and the state alone, or is one that the policy lets through to the
/// host. Alone means: the host's state stays, nothing is seen of it, and the answer is the same over every other host. A call that is
/// let through is of a listed function that the policy leaves to the host, no rule refuses it, its arguments have the listed types, and
/// each handle that it is given is live, of its kind and the host's. It does nothing when it runs.
pub fn calls_are_answered_alone_or_let_through<H: Host>()
    ensures { OwnOrLetThrough H.step }
{}

/// The law that a call of a function that the policy denies, or with an address or a name that its rules refuse, is answered alone, and
/// changes nothing.
pub fn denied_calls_change_nothing<H: Host>()
    ensures { DeniedChangeNothing H.step }
{}

/// The law that under a policy that leaves no function to the host, no call and no drop reaches the host, whatever is called and dropped
/// and in whatever order: nothing is seen of the host, its state stays, and over every other host all answers are the same.
pub fn nothing_reaches_the_host_where_nothing_is_allowed<H: Host>()
    ensures { NothingReachesTheHost H.step }
{}

/// The law that a handle of the host is of a kind that can be the host's under the policy, that something of the scratch folder is there
/// only where the policy has that folder, and that a descriptor stands for a file or a folder. It holds before the first call, and every
/// call and every drop keeps it, whatever the host answers.
pub fn handles_stand_as_they_may<H: Host>()
    ensures { HandlesStandAsTheyMay H.step }
{}

/// The law that whatever the host answers to a call that is let through, the handles in it are of kinds that can be the host's.
pub fn answers_hold_the_hosts_kinds<H: Host>()
    ensures { AnswersHoldTheHostsKinds H.step }
{}
