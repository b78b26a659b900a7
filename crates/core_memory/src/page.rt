//! One page of a memory. It has zeros and takes no memory until it is made, which the first write to it does.

ghost use Rattle.std.specs.Prelude.{◌≡◌, ◌+◌, ◌-◌, ◌≤◌, ◌<◌, [], true, false, length, replicate, take, drop, slice_range, OnOk, OnErr, IfOk, IsTrue, if◌then◌else◌};
ghost use Rattle.std.specs.List.{splice};
ghost use Rattle.core_memory.specs.Page.{zeros};
ghost use Rattle.core_memory.specs.Number.{bytes_of, IsWidth};

use std::alloc::{AllocError, Global};
use std::marker::Model;

/// The number of bytes of a page.
pub const PAGE: usize = 65536;

/// A page of a memory. It takes no memory until it is made, and shows zeros until then.
#[derive(Drop)]
pub struct Page {
    bytes: Vec<u8>,
}

impl Model for Page {
    ghost use Rattle.core_memory.specs.Page.{Content};

    ghost Value = { Content };

    ghost use Rattle.core_memory.specs.Page.{content, IsKept};

    ghost view = { λ p. content p.bytes.items };

    ghost invariant = { λ p. IsKept p.bytes.items };
}

impl Page {
    pub fn new(alloc: Global) -> Page
        ensures { result ≡ record { bytes = zeros 65536; made = false } }
    {
        Page {
            bytes: Vec::new(alloc),
        }
    }

    #[tactic(auto, using(crate::proofs::Contents::length_shown))]
    pub fn is_made(&self) -> bool
        ensures made { result ≡ self.now.made }
        ensures len { length self.now.bytes ≡ 65536 }
    {
        !self.bytes.is_empty()
    }

    /// Takes the page's memory.
    #[tactic(auto, using(crate::proofs::Contents::length_shown, crate::proofs::Contents::content_long, crate::proofs::Contents::kept_zeros, crate::proofs::Contents::length_zeros, crate::proofs::Contents::empty_unmade))]
    pub fn make(&mut self, alloc: Global) -> Result<(), AllocError>
        ensures ok { OnOk result (self.new ≡ record self.old { made = true }) }
        ensures err { OnErr result (self.new ≡ self.old) }
        ensures unmade { OnErr result (self.old.made ≡ false) }
        ensures len { length self.old.bytes ≡ 65536 }
    {
        if self.bytes.is_empty() {
            self.bytes = zero_bytes(alloc, PAGE)?;
        }
        Ok(())
    }

    /// The bytes of a page that is made, and none of another.
    #[tactic(auto, using(crate::proofs::Contents::length_shown, crate::proofs::Contents::blank_shown))]
    pub fn bytes(&self) -> &[u8]
        ensures bytes { result.now ≡ (if self.now.made then self.now.bytes else []) }
        ensures blank { self.now.made ≡ false → self.now.bytes ≡ zeros 65536 }
        ensures len { length self.now.bytes ≡ 65536 }
    {
        &self.bytes
    }

    /// Replaces bytes of a page that is made.
    pub fn write(&mut self, at: usize, bytes: &[u8])
        requires made { self.old.made ≡ true }
        requires within { at + length bytes.now ≤ 65536 }
        ensures { self.new ≡ record self.old { bytes = splice self.old.bytes at (at + length bytes.now) bytes.now } }
    {
        self.bytes[at..at + bytes.len()].copy_from_slice(bytes);
    }

    /// Writes the lowest bytes of an integer on a page that is made.
    #[inline]
    pub fn store(&mut self, at: usize, width: u8, value: u64)
        requires made { self.old.made ≡ true }
        requires width { IsWidth width }
        requires within { at + width ≤ 65536 }
        ensures { self.new ≡ record self.old { bytes = splice self.old.bytes at (at + width) (bytes_of width value) } }
    {
        let bytes = value.to_le_bytes();
        match width {
            1 => self.write(at, &bytes[..1]),
            2 => self.write(at, &bytes[..2]),
            4 => self.write(at, &bytes[..4]),
            _ => self.write(at, &bytes),
        }
    }

    /// Sets `len` bytes of a page that is made to one value.
    pub fn fill(&mut self, at: usize, len: usize, value: u8)
        requires made { self.old.made ≡ true }
        requires within { at + len ≤ 65536 }
        ensures { self.new ≡ record self.old { bytes = splice self.old.bytes at (at + len) (replicate len value) } }
    {
        self.bytes[at..at + len].fill(value);
    }

    /// Copies bytes within a page that is made, as if by way of another list.
    pub fn copy(&mut self, to: usize, from: usize, len: usize)
        requires made { self.old.made ≡ true }
        requires to { to + len ≤ 65536 }
        requires from { from + len ≤ 65536 }
        ensures { self.new ≡ record self.old { bytes = splice self.old.bytes to (to + len) (take len (drop from self.old.bytes)) } }
    {
        self.bytes.copy_within(from..from + len, to);
    }
}

fn zero_bytes(alloc: Global, len: usize) -> Result<Vec<u8>, AllocError>
    ensures { IfOk result (λ v. v.items ≡ zeros len) }
{
    vec![in alloc; 0; len]
}
