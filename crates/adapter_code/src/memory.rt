//! Numbers in a memory, in 1, 2, 4 or 8 bytes, the lowest first.

ghost use Rattle.std.specs.Prelude.{◌≡◌, ◌+◌, ◌<◌, ◌≤◌, ◌^◌, Some, None, IfSome, IsTrue, IsFalse, length, take, drop};
ghost use Rattle.core_memory.specs.Number.{number, IsWidth};
ghost use Rattle.adapter_code.specs.Number.{loaded, stored};

/// The number at a place, or none outside the memory.
#[tactic(auto, using(core_memory::proofs::Numbers::spelled), unfolding(crate::specs::Number::word))]
pub fn load(memory: &[u8], place: u64, width: u8) -> Option<u64>
    requires width { IsWidth width }
    requires within { place < 2 ^ 33 }
    ensures number { result ≡ loaded memory.now place width }
    ensures fits { IfSome result (λ number. number < 256 ^ width) }
{
    let end = place + width as u64;
    if (memory.len() as u64) < end {
        return None;
    }
    let at = place as usize;
    Some(match width {
        1 => memory[at] as u64,
        2 => u16::from_le_bytes([memory[at], memory[at + 1]]) as u64,
        4 => four(memory, at) as u64,
        _ => four(memory, at) as u64 + ((four(memory, at + 4) as u64) << 32),
    })
}

/// Puts a number at a place, unless it is outside the memory.
#[tactic(auto, unfolding(crate::specs::Number::put))]
pub fn store(memory: &mut [u8], place: u64, width: u8, value: u64) -> bool
    requires width { IsWidth width }
    requires within { place < 2 ^ 33 }
    ensures written { IsTrue result → stored memory.old place width value ≡ Some memory.new }
    ensures outside { IsFalse result → stored memory.old place width value ≡ None }
    ensures kept { IsFalse result → memory.new ≡ memory.old }
{
    let end = place + width as u64;
    if (memory.len() as u64) < end {
        return false;
    }
    let bytes = value.to_le_bytes();
    let part = &mut memory[place as usize..end as usize];
    match width {
        1 => part.copy_from_slice(&bytes[..1]),
        2 => part.copy_from_slice(&bytes[..2]),
        4 => part.copy_from_slice(&bytes[..4]),
        _ => part.copy_from_slice(&bytes),
    }
    true
}

#[tactic(auto, using(core_memory::proofs::Numbers::spelled))]
fn four(bytes: &[u8], at: usize) -> u32
    requires { at + 4 ≤ length bytes.now }
    ensures { result ≡ number (take 4 (drop at bytes.now)) }
{
    u32::from_le_bytes([bytes[at], bytes[at + 1], bytes[at + 2], bytes[at + 3]])
}
