//! Laws of what instantiation leaves in the store: the bodies of a module as functions of its instance, and its memory as its segment fills
//! it.

ghost use Rattle.adapter_bytes.specs.Bodies.{BodiesStand};
ghost use Rattle.adapter_bytes.specs.Memories.{MemoriesAreFilled};

/// In the store that instantiation leaves, each body of the module stands as a function of the instance, which may be called
/// and finds the instance's memories and globals; the globals have their first values.
pub fn bodies_stand()
    ensures { BodiesStand }
{}

/// Of a module with one memory of its own and one segment, which is written into it: in the store that instantiation leaves,
/// that memory has as many pages as the module says, the segment's bytes in their place, and every other byte 0.
pub fn memories_are_filled()
    ensures { MemoriesAreFilled }
{}
