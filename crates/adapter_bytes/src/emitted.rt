//! The laws of both modules in a store where their instances stand: what their functions do, and what the memory holds at first.

ghost use Rattle.adapter_bytes.specs.StateWorks.{StateDoes};
ghost use Rattle.adapter_bytes.specs.StubsWork.{StubsDo};

/// In each store in which the state module's instance stands: realloc answers the end of the area's used part and moves it on
/// by the next multiple of 8, or traps where that passes the area's end; the post-returns put the end back to the area's
/// start; and the destructor of a place frees it, asks for the drop of the host's handle in it, and does nothing else.
///
/// Once it is instantiated its memory has as many pages as the parts of the layout need, and no more may come; it holds the
/// static data in its place, and every other byte is 0, so that each place of each kind's table is free.
pub fn state_does()
    ensures { StateDoes }
{}

/// In each store in which an instance of the stubs module stands, over a memory that stands as well: the function of each
/// stub runs its routine before, asks the host where the flag is not 0 and there is a function of the host, and then runs
/// its routine after, for whatever the memory, the handles and the arguments are; it ends with the flat result, in at least
/// one step and at most 32 * (1 + s), where s statements are run.
pub fn stubs_do()
    ensures { StubsDo }
{}
