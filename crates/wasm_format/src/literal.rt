//! Bytes that are always the same: a tag that is the only one of its table, and a preamble.

ghost use Rattle.std.specs.Prelude.{◌≡◌, ◌∷◌, ◌++◌, [], ℕ, List, length, drop, true, false, MatchOption};
ghost use Rattle.virt_base.specs.Place.{place, rest, Gives};
ghost use Rattle.wasm_format.specs.Format.{literal, fixed, is_tag_byte};
ghost use Rattle.wasm_format.specs.Reads.{Reads};

use crate::stop::Stop;
use virt_base::{Cursor, next_byte};

/// Takes a byte that is the only tag of its table.
pub fn expect_tag(c: &mut Cursor<'_>, tag: u8) -> Result<(), Stop>
    ensures input { c.new.bytes ≡ c.old.bytes }
    ensures value { Reads result c.new ((literal (tag ∷ []) tt).read (place c.old)) }
{
    match next_byte(c) {
        None => Err(Stop::Malformed),
        Some(byte) => {
            if byte == tag {
                Ok(())
            } else {
                Err(Stop::Unsupported { at: c.at - 1, byte })
            }
        }
    }
}

fn begins_with(bytes: &[u8], front: &[u8]) -> bool
    ensures yes { result ≡ true → bytes.now ≡ front.now ++ drop (length front.now) bytes.now }
    ensures no { result ≡ false → (more : List ℕ) → bytes.now ≡ front.now ++ more → ⊥ }
{
    bytes.starts_with(front)
}

/// Takes bytes that are always the same, and no tags.
pub fn expect_bytes(c: &mut Cursor<'_>, bytes: &[u8]) -> Result<(), Stop>
    ensures input { c.new.bytes ≡ c.old.bytes }
    ensures value { Reads result c.new ((fixed bytes.now tt).read (place c.old)) }
    ensures given { Gives result c.new ((fixed bytes.now tt).read (place c.old)) }
{
    if !begins_with(&c.bytes[c.at..], bytes) {
        return Err(Stop::Malformed);
    }
    c.at += bytes.len();
    Ok(())
}

/// Whether the next byte is a tag where a tag or a number may stand; none where the bytes end.
pub fn next_is_tag(c: &Cursor<'_>) -> Option<bool>
    ensures { MatchOption result (rest c.now ≡ []) (λ tag. (byte : ℕ) × (more : List ℕ) × (rest c.now ≡ byte ∷ more) × (tag ≡ is_tag_byte byte)) }
{
    let mut ahead = *c;
    match next_byte(&mut ahead) {
        None => None,
        Some(byte) => Some(0x40 <= byte && byte < 0x80),
    }
}
