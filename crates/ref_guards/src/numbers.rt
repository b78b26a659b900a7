//! The law that a value's handles, and the value with other numbers in their places, are the same for the reference host as for the
//! Canonical ABI. It holds no code but the law.

ghost use Rattle.ref_guards.specs.Numbers.{HandlesAgree, NumbersAgree};

/// The handles of a value are those of its atoms, and a value with other numbers is the same value. It does nothing when it runs.
#[tactic(auto, using(crate::proofs::HandleLaws::handles_agree, crate::proofs::NumberLaws::numbers_agree))]
pub fn numbers_agree()
    ensures handles { HandlesAgree }
    ensures numbers { NumbersAgree }
{}
