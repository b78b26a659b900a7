//! Locals that rows share.

use adapter_fs::shared::{Text, next};
use adapter_pass::{Frame, Spare};

/// Where a path leads: `code` is 0, or the error code; `found` is 0 for the folder, else one more than the number of a file. Where the
/// code is no-entry, `fresh` is 1 exactly where the name in `part` is all that the path has beside empty parts and `.`.
#[derive(Clone, Copy)]
pub struct Led {
    pub code: u32,
    pub found: u32,
    pub fresh: u32,
    pub part: Text,
}

/// How many spare pairs it takes.
pub const LED: u8 = 5;

impl Led {
    /// The first spare locals of 32 bits.
    pub fn of(spare: &Spare) -> Led {
        Led {
            code: spare.narrow(0),
            found: spare.narrow(1),
            fresh: spare.narrow(2),
            part: Text {
                place: spare.narrow(3),
                length: spare.narrow(4),
            },
        }
    }
}

/// An argument that is a text or a list of bytes.
pub fn text_arg(f: &Frame, i: usize) -> Text {
    let place = f.arg(i);
    Text {
        place,
        length: next(place),
    }
}
