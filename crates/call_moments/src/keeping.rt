//! Laws of what stays of an instance while code runs in it: its functions and memories, code that awaits results, handles that are lent.

ghost use Rattle.call_moments.specs.KeptLaws.{StoresStay, StoresGrow, HostsFunctionsAreAsked, StoresAreLeft};
ghost use Rattle.call_moments.specs.LoanLaws.{HandlesStayWhileLent};

/// What is done to the core code of an instance leaves its functions and memories and how deep calls may nest, and code that awaits results
/// there still does; what an instance does by itself leaves the store alone.
pub fn stores_are_kept()
    ensures stay { StoresStay }
    ensures grow { StoresGrow }
    ensures left { StoresAreLeft }
{}

/// Core code that asks the embedder names one of the embedder's functions in its store, with arguments of its types.
pub fn hosts_functions_are_asked()
    ensures { HostsFunctionsAreAsked }
{}

/// The handle of each loan stays lent while the loan lasts, whatever is done to the instance, so that each loan can end.
pub fn handles_stay_while_lent()
    ensures { HandlesStayWhileLent }
{}
