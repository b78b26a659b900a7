//! The laws, each a function without code whose contract states it.

ghost use Rattle.adapter_calls.specs.Answering.{StubsAnswer};
ghost use Rattle.adapter_calls.specs.Arguments.{LentAreNumbers};
ghost use Rattle.adapter_calls.specs.Dropping.{DropsByDestructor};
ghost use Rattle.adapter_calls.specs.Entering.{EntersAsAdded};
ghost use Rattle.adapter_calls.specs.Handling.{HandlesAnswer};
ghost use Rattle.adapter_calls.specs.Hosting.{HostsAnswer};
ghost use Rattle.adapter_calls.specs.Leaving.{PostReturns};
ghost use Rattle.adapter_calls.specs.Lending.{LiftsAsLent};
ghost use Rattle.adapter_calls.specs.Lifting.{LiftsAsTaken};
ghost use Rattle.adapter_calls.specs.Routines.{RoutinesReturn, RoutinesTrap};
ghost use Rattle.adapter_calls.specs.Standing.{StubsStand};
ghost use Rattle.adapter_calls.specs.Storing.{LowersByArea, LowersByRoom, StoresByArea, StoresByRoom};
ghost use Rattle.adapter_calls.specs.Stubs.{StubsReturn, StubsTrap};
ghost use Rattle.adapter_calls.specs.Turns.{CalledAsksInTurn, StubAsksInTurn};

use host_port::Host;

/// What a call of a routine's function asks for handles, it asks one question after another, with any number of steps to spare: neither the
/// questions nor their stores nor the answers depend on that number.
pub fn routines_ask_in_turn()
    ensures { CalledAsksInTurn }
{}

/// So does a call of a stub's function that does not ask the host.
pub fn stubs_ask_in_turn()
    ensures { StubAsksInTurn }
{}

/// What core code of an adapter's instance asks for handles in turn, the group over a host answers, a step for each question. It then goes
/// on with the handles that the effects leave, and the host was told, in order, of each handle that was dropped.
pub fn handles_answer<H: Host>()
    ensures { HandlesAnswer H.step }
{}

/// A post-return of an adapter empties its transfer area, in three steps, whatever the results are; it asks nothing.
pub fn post_returns_empty_the_area<H: Host>()
    ensures { PostReturns H.step }
{}

/// A routine that core code of the adapter's instance runs, and that ends with an answer, leaves its memory and its handles in the instance.
/// The host was told, in order, of the handles that it dropped. It takes its own steps and one for each handle made or dropped.
pub fn routines_return<H: Host>()
    ensures { RoutinesReturn H.step }
{}

/// A value is stored in the adapter's instance exactly as its steps say, where each request is answered with the end of the transfer area's
/// used part; a request that passes the area's end, or a length that is refused, traps. A request takes twenty steps, and a write none.
pub fn storing_goes_by_the_area<H: Host>()
    ensures { StoresByArea H.step }
{}

/// Lowering into the adapter's instance is storing by its area, while the instance is closed; the flat values go where that left answers.
pub fn lowering_goes_by_the_area<H: Host>()
    ensures { LowersByArea H.step }
{}

/// What a function of the adapter answers is lifted as a row's run lifts it: its handles, which are own, leave the handle map.
pub fn answers_are_lifted_as_taken()
    ensures { LiftsAsTaken }
{}

/// A handle of an adapter's own resource is dropped by its destructor: it leaves the memory and the handles of its routine, and the host was
/// told of the handle that it dropped.
pub fn destructors_drop<H: Host>()
    ensures { DropsByDestructor H.step }
{}

/// One that traps, or that is refused a handle, traps; the host was told of the handles that it had dropped.
pub fn routines_trap<H: Host>()
    ensures { RoutinesTrap H.step }
{}

/// A stub's function that asks no host, and whose routine ends with an answer, gives its flat result and leaves its memory and its handles in
/// the instance. The host was told, in order, of the handles that it dropped.
pub fn stubs_return<H: Host>()
    ensures { StubsReturn H.step }
{}

/// One whose routine traps, or that is refused a handle, traps; the host was told of the handles that it had dropped.
pub fn stubs_trap<H: Host>()
    ensures { StubsTrap H.step }
{}

/// Arguments whose handles are lent, of resources of the adapter's own, are lowered with what these stand for in their places: no handle enters.
pub fn lent_handles_are_numbers<H: Host>()
    ensures { LentAreNumbers H.step }
{}

/// A call of a function of the adapter whose stub asks no host is answered as its row's run says: its arguments go by the transfer area, its
/// routine runs, and the answer is lifted from what that leaves. It traps where the area is full, where the routine traps or is refused a
/// handle, and where no answer can be lifted. The host was told, in order, of the handles that the routine dropped, and of nothing else.
pub fn stubs_answer<H: Host>()
    ensures { StubsAnswer H.step }
{}

/// A stub's function that stands in an instance with all that it calls does what its routines say, whatever memories and globals hold.
pub fn stubs_stand()
    ensures { StubsStand }
{}

/// What core code of the adapter gives to the host is lifted as a row's run lifts it: handles of the host's resources are lent, and once the
/// loans have ended the handles are as before.
pub fn arguments_are_lifted_as_lent()
    ensures { LiftsAsLent }
{}

/// The handles of a host's answer to core code of the adapter, which are own, enter the handle map as a row's run adds them.
pub fn answers_enter_as_added()
    ensures { EntersAsAdded }
{}

/// A value is stored by the transfer area too while core code of the instance waits for an answer: a request begins without the calls in progress.
pub fn storing_in_a_call_goes_by_the_area<H: Host>()
    ensures { StoresByRoom H.step }
{}

/// So does lowering go by the area while core code waits.
pub fn lowering_in_a_call_goes_by_the_area<H: Host>()
    ensures { LowersByRoom H.step }
{}

/// A call of the host's function by core code of the adapter does what the row's run says: arguments are lifted and lent, the host is asked,
/// the loans end, and the answer's handles enter and it is lowered by the area; or it traps, or ends as the host's answer does.
pub fn hosts_answer<H: Host>()
    ensures { HostsAnswer H.step }
{}
