//! How the adapter's memory is cut: the records of answers, the slot tables, the static data, the spare bytes and the transfer area.

use crate::kinds::Kind;
use adapter_code::Layout;

/// The bytes of a slot table beside its places.
const TABLE_HEAD: u32 = 8;

/// The bytes of a place.
const PLACE: u32 = 16;

/// Where the first slot table begins: the part before it holds the records of answers.
const TABLES: u32 = 256;

/// How the adapter's memory is cut. A number that 32 bits don't hold stands as the greatest; no layout that fits has one.
#[derive(Clone, Copy, Debug)]
pub struct Places {
    /// How many places the slot table of each kind has.
    pub slots: u32,
    /// Where the static data begins.
    pub image: u32,
    /// Where the spare bytes begin.
    pub spare: u32,
    /// Where the transfer area begins.
    pub transfer: u32,
    /// The last end of its used part: the transfer area is given out by multiples of 8.
    pub transfer_end: u32,
}

// The next multiple of 8.
fn padded(len: u32) -> u32 {
    len.saturating_add(7) / 8 * 8
}

fn table_len(slots: u32) -> u32 {
    slots.saturating_mul(PLACE).saturating_add(TABLE_HEAD)
}

/// Where the static data begins: it depends on the number of places alone.
pub fn image_place(slots: u32) -> u32 {
    table_len(slots).saturating_mul(14).saturating_add(TABLES)
}

impl Places {
    pub fn of(layout: &Layout) -> Places {
        let image = image_place(layout.slots);
        let spare = image.saturating_add(padded(layout.image_len));
        let transfer = spare.saturating_add(padded(layout.spare));
        Places {
            slots: layout.slots,
            image,
            spare,
            transfer,
            transfer_end: transfer.saturating_add(layout.transfer / 8 * 8),
        }
    }

    /// Where the slot table of a kind begins.
    pub fn table(&self, kind: Kind) -> u32 {
        table_len(self.slots)
            .saturating_mul(kind.number() as u32)
            .saturating_add(TABLES)
    }
}
