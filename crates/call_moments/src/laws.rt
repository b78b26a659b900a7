//! Laws of the steps of a call: how it begins, what a host answers, and what is done to one instance of a world.

ghost use Rattle.call_moments.specs.Configs.{InstancesAct, StoresBegin};
ghost use Rattle.call_moments.specs.Laws.{CallsBegin, HostsAnswer};

use host_port::Host;

/// A canonical call begins as it is defined to, or ends the run so.
pub fn calls_begin_as_defined<H: Host>()
    ensures { CallsBegin H.step }
{}

/// A host that core code asks answers as the ports of the definition do.
pub fn hosts_answer_as_defined<H: Host>()
    ensures { HostsAnswer H.step }
{}

/// What is done to one instance is done to the world of the definition, or traps there.
pub fn instances_are_configurations<H: Host>()
    ensures { InstancesAct H.step }
{}

/// Where values begin to be stored in an instance, the definition adds their handles and closes it.
pub fn values_begin_to_be_stored<H: Host>()
    ensures { StoresBegin H.step }
{}
