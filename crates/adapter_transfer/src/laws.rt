//! The law that the code of realloc and of the post-returns is valid.

ghost use Rattle.adapter_transfer.specs.Transfer.{TransfersAreValid};

/// The code of realloc and of the post-returns is valid in each module whose global 0 is a variable i32.
pub fn transfers_are_valid()
    ensures { TransfersAreValid }
{}
