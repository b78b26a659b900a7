//! The integer that bytes in a row stand for, the lowest byte first.

ghost use Rattle.std.specs.Prelude.{◌≡◌, ◌+◌, ◌≤◌, ◌<◌, ◌^◌, length, take, drop};
ghost use Rattle.core_memory.specs.Number.{number, IsWidth};

/// The integer of `width` bytes at a place.
#[inline]
#[tactic(auto, using(crate::proofs::Numbers::spelled))]
pub fn number_at(bytes: &[u8], at: usize, width: u8) -> u64
    requires width { IsWidth width }
    requires within { at + width ≤ length bytes.now }
    ensures value { result ≡ number (take width (drop at bytes.now)) }
    ensures fits { result < 256 ^ width }
{
    match width {
        1 => bytes[at] as u64,
        2 => u16::from_le_bytes([bytes[at], bytes[at + 1]]) as u64,
        4 => four(bytes, at) as u64,
        _ => four(bytes, at) as u64 + ((four(bytes, at + 4) as u64) << 32),
    }
}

#[inline]
#[tactic(auto, using(crate::proofs::Numbers::spelled))]
fn four(bytes: &[u8], at: usize) -> u32
    requires { at + 4 ≤ length bytes.now }
    ensures { result ≡ number (take 4 (drop at bytes.now)) }
{
    u32::from_le_bytes([bytes[at], bytes[at + 1], bytes[at + 2], bytes[at + 3]])
}
