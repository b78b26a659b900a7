//! Fields of records in memory, by their offsets and widths.

use adapter_code::Field;

/// The number of the case of a result, an option or a variant of few cases, at the beginning of its record.
pub const CASE: Field = Field {
    offset: 0,
    width: 1,
};

/// One byte.
pub fn byte(offset: u32) -> Field {
    Field { offset, width: 1 }
}

/// Two bytes.
pub fn half(offset: u32) -> Field {
    Field { offset, width: 2 }
}

/// Four bytes.
pub fn number(offset: u32) -> Field {
    Field { offset, width: 4 }
}

/// Eight bytes.
pub fn long(offset: u32) -> Field {
    Field { offset, width: 8 }
}
