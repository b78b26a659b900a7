//! The law that in valid code each instruction finds operands of the types that it takes. No code but the law.

ghost use Rattle.core_body.specs.Promise.{OperandsAreFound};

/// In valid code each instruction finds operands of the types that it takes. The call does nothing: its contract is the law.
pub fn operands_are_found()
    ensures { OperandsAreFound }
{}
