//! What rows of the reference host read is sound, by what code knows of its state: so the answers have their calls' result types,
//! arguments are bytes where bytes are taken, and the scratch folder is kept. Laws alone.

ghost use Rattle.reference_host.specs.Views.{ViewsAreSound};

/// Views of such states are sound. It does nothing when it runs.
pub fn views_are_sound()
    ensures { ViewsAreSound }
{}
