//! Laws of frames, which stand for core code in progress: the innermost gets its results, and code begins inside the others.

ghost use Rattle.comp_worlds.specs.Groups.{Group};
ghost use Rattle.call_moments.specs.FrameLaws.{ResultsComeBack, CodeBeginsInside};

use host_port::Host;

/// Where frames stand for what awaits, and the innermost code gets its results, it goes on as the definition does, and the others stand
/// as before.
pub fn results_come_back<H: Host>()
    ensures { (G : Group) → ResultsComeBack H.step G }
{}

/// Code that an instance begins, while all others await, is the innermost that goes on, and they stand as before.
pub fn code_begins_inside<H: Host>()
    ensures { (G : Group) → CodeBeginsInside H.step G }
{}
