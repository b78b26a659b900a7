//! The laws of a stub's function: which routines it runs, what it asks the host between them, and in how many steps.

ghost use Rattle.adapter_stubs.specs.Stub.{StubsAsk};
ghost use Rattle.adapter_stubs.specs.Calls.{StubsRun};

/// Where the flag of a stub is 0 its code goes on with what comes after in two steps; else it asks the host with the numbers in the locals
/// after the flag, and once the host has answered it runs the routine after it, over what the answer left.
pub fn stubs_ask()
    ensures { StubsAsk }
{}

/// A call of a stub's function, from every state, runs the routine before. Where that answers with the flag 0, or there is no
/// function of the host, it ends with the flat result; where it traps the call traps. Else it asks the host with the numbers
/// after the flag, and once that has answered it ends as the routine after, run in what the answer left.
///
/// It takes at least one step, and at most 32 * (1 + s) where s statements are run and the host's function takes at most 17
/// numbers, which is the most that a lowered function takes.
pub fn stubs_run()
    ensures { StubsRun }
{}
