//! The law that handles which enter by an answer have room: the test of room asks the result's type for at least as many places
//! of each kind as any of its values has handles, and no listed result but that of `get-directories` has handles in a list. And each is
//! of a listed kind.

ghost use Rattle.ref_guards.specs.RoomEntering.{EnteringHasKinds, EnteringHasRoom};

/// Handles that enter have room, and are of listed kinds. It does nothing when it runs.
pub fn results_have_room()
    ensures room { EnteringHasRoom }
    ensures kinds { EnteringHasKinds }
{}
