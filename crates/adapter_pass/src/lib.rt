//! What the rows of the adapter are written with: a routine in the making, what the routines of one row share, static data in the
//! making, the room for handles, and the passing of handles to the host and from it.
#![tactic(auto)]

mod answers;
mod data;
mod fields;
mod frame;
pub mod fs_code;
mod kinds;
mod layouts;
pub mod net_code;
mod owned;
mod passing;
mod places;
mod routine;
mod spare;
mod tables;
mod tags;

pub use data::{ListAt, StaticData, TextAt};
pub use fields::{CASE, byte, half, long, number};
pub use frame::{Frame, RowTypes, frame_of};
pub use kinds::Kind;
pub use owned::{has_own, room};
pub use passing::{enter, from_host, to_host, to_host_from};
pub use places::Places;
pub use routine::Routine;
pub use spare::Spare;
pub use tags::Tag;

#[cfg(test)]
mod tests {
    use super::*;
    use std::test::Fail;

    #[test]
    fn routines_are_lists(rt: HostRuntime) -> Result<(), Fail> {
        let routine = Routine::new(rt.alloc()).constant(0, 1).trap();
        assert_eq!(rt; routine.statements()?.len(), 2);
        Ok(())
    }
}
