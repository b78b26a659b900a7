//! The law that core code of an instance runs as defined.

ghost use Rattle.comp_worlds.specs.Groups.{Group};
ghost use Rattle.call_moments.specs.CodeLaws.{CodeBegins, CodeGoes, CodeGetsResults};

use host_port::Host;

/// Core code that an instance begins is that of the definition, its pauses lead where the definition goes, and with the results that it
/// awaits it goes on as the definition does.
pub fn code_runs_as_defined<H: Host>()
    ensures begins { (G : Group) → CodeBegins H.step G }
    ensures goes { (G : Group) → CodeGoes H.step G }
    ensures gets { (G : Group) → CodeGetsResults H.step G }
{}
