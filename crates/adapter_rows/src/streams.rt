//! Functions of two streams.

use crate::dispatch::BorrowedHandle;
use adapter_code::IntOp;
use adapter_io::closed;
use adapter_pass::{Frame, Kind, Routine, Tag, to_host};
use adapter_world::WorldFunction;
use table_bytes::TAG;

/// Sets a local to the tag of a borrowed handle. The first spare local of 32 bits is lost.
pub fn tag_of(f: &Frame, handle: &BorrowedHandle, tag: u32) -> Routine {
    match Kind::numbered(handle.kind) {
        Some(kind) => {
            let spot = f.spare.narrow(0);
            f.spot(kind, f.arg(handle.argument), spot)
                .load(tag, spot, TAG)
        }
        None => f.routine().trap(),
    }
}

/// splice and blocking-splice: the host's with two handles of the host, and else closed.
pub fn two_streams(
    f: &Frame,
    function: &WorldFunction,
    first: &BorrowedHandle,
    second: &BorrowedHandle,
) -> Routine {
    if !function.needed {
        return closed(f);
    }
    let a = f.spare.narrow(0);
    let b = f.spare.narrow(1);
    let inner = f.inside(2);
    let host = Tag::Host.number();
    tag_of(&inner, first, a)
        .part(tag_of(&inner, second, b))
        .with(IntOp::Eq, a, a, host, f.scratch)
        .with(IntOp::Eq, b, b, host, f.scratch)
        .both_bits(a, a, b)
        .choose(a, to_host(&inner, &function.function.ty), closed(&inner))
}
