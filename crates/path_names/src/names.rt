//! Which parts of a path are legal names, and which texts are paths.

ghost use Rattle.std.specs.Prelude.{◌≡◌};
ghost use Rattle.path_names.specs.Paths.{is_name, is_path};

use crate::parts::{cut, holds_byte};

/// Whether a part of a path is a legal name: 1 to 255 bytes without NUL, neither `.` nor `..`. Parts hold no `/`.
pub fn is_name(name: &[u8]) -> bool
    ensures { result ≡ is_name name.now }
{
    let is_long = name.is_empty() || name.len() > 255;
    !is_long && !holds_byte(name, 0) && name != b".".as_slice() && name != b"..".as_slice()
}

/// Whether a text is a path: legal names that `/` joins.
pub fn is_path(path: &str) -> bool
    ensures { result ≡ is_path path.now }
{
    let mut rest = path.as_bytes();
    while let Some((name, more)) = cut(rest, b'/') {
        if !is_name(name) {
            return false;
        }
        rest = more;
    }
    is_name(rest)
}
