//! The law that the loans of the innermost call can end.

ghost use Rattle.call_moments.specs.EndingLaws.{LoansEndLastFirst};

/// Where each handle that was lent to calls in progress is lent, it stays so while calls begin, lift, lower and end, and the loans of the
/// innermost call can end.
pub fn loans_end_last_first()
    ensures { LoansEndLastFirst }
{}
