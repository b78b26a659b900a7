//! The next byte is taken at a cursor. Readers of every format are made of it.

ghost use Rattle.std.specs.Prelude.{◌≡◌, ◌∷◌, ◌+◌, MatchOption, []};
ghost use Rattle.virt_base.specs.Place.{rest};

use crate::cursor::Cursor;

/// Takes the byte at the cursor; none where the bytes end there.
pub fn next_byte(c: &mut Cursor<'_>) -> Option<u8>
    ensures input { c.new.bytes ≡ c.old.bytes }
    ensures byte { MatchOption result ((rest c.old ≡ []) × (c.new.at ≡ c.old.at)) (λ byte. (rest c.old ≡ byte ∷ rest c.new) × (c.new.at ≡ c.old.at + 1)) }
{
    if c.at < c.bytes.len() {
        let byte = c.bytes[c.at];
        c.at += 1;
        Some(byte)
    } else {
        None
    }
}
