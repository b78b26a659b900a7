//! What rows read of a state is within its words.

ghost use Rattle.reference_step.specs.State.{view_of};
ghost use Rattle.reference_host.specs.Sound.{IsSound};
ghost use Rattle.reference_host.specs.States.{IsState, reference_of};

use crate::state::State;
use crate::{policy_has_words, views_are_sound};
use tree_table::contents_are_bytes;

/// What rows read of a state is sound. It does nothing when it runs.
pub fn state_is_sound(state: &State)
    requires { IsState state.now }
    ensures { IsSound (view_of (reference_of state.now (tt {0}))) }
{
    policy_has_words(&state.setting.policy);
    contents_are_bytes(&state.setting.table);
    state.holding.folder.contents_are_bytes();
    views_are_sound();
}
