//! A cursor: bytes that are read, and how far reading has come in them.

ghost use Rattle.std.specs.Prelude.{◌≤◌, length};

/// A place in bytes that are being read: `at` of them stand before it.
#[derive(Clone, Copy)]
pub struct Cursor<'a> {
    pub bytes: &'a [u8],
    pub at: usize,
    pub ghost within: { at ≤ length bytes.now },
}
