//! What holds of the reference host over every host that it asks: which calls it answers alone, which may reach that host,
//! and what live handles stand for.
#![tactic(auto)]

mod laws;

pub use laws::{
    answers_hold_the_hosts_kinds, calls_are_answered_alone_or_let_through,
    denied_calls_change_nothing, handles_stand_as_they_may,
    nothing_reaches_the_host_where_nothing_is_allowed,
};
