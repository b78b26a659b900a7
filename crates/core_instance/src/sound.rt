//! The law between validation and execution: the code of a valid module finds its operands and the items that it names. No code but the
//! law.

ghost use Rattle.core_instance.specs.Sound.{BodiesAreFine};

/// Each instruction of a valid body finds its operands and the items that it names. The call does nothing: its contract is the law.
pub fn bodies_are_fine()
    ensures { BodiesAreFine }
{}
