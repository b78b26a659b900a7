//! The pages of a memory: they are added and counted, and an integer is read that need not lie on one made page.

ghost use Rattle.std.specs.Prelude.{◌≡◌, ◌+◌, ◌*◌, ◌≤◌, ◌<◌, ◌^◌, ◌++◌, length, take, drop, replicate, false, OnOk, OnErr, slice_index, min, unwrap_or};
ghost use Rattle.std.specs.List.{count_by};
ghost use Rattle.core_memory.specs.Number.{number};
ghost use Rattle.core_memory.specs.Page.{zeros};
ghost use Rattle.core_memory.specs.Pages.{bytes_in, made_in, IsPaged};

use crate::page::{PAGE, Page};
use std::alloc::{AllocError, Global};

/// Adds pages that are not made.
pub fn add_pages(pages: &mut Vec<Page>, alloc: Global, count: u32) -> Result<(), AllocError>
    ensures ok { OnOk result (pages.new.items ≡ pages.old.items ++ replicate count (record { bytes = zeros 65536; made = false })) }
    ensures err { OnErr result (pages.new.items ≡ pages.old.items) }
{
    pages.reserve(count as usize)?;
    for _added in 0..count {
        pages.push_reserved(Page::new(alloc));
    }
    Ok(())
}

// The byte at a place.
fn byte_at(pages: &[Page], at: usize) -> u8
    requires paged { IsPaged pages.now }
    requires within { at < 65536 * length pages.now }
    ensures { result ≡ slice_index (bytes_in pages.now) at }
{
    let bytes = pages[at / PAGE].bytes();
    if bytes.is_empty() {
        0
    } else {
        bytes[at % PAGE]
    }
}

/// The integer of `width` bytes at a place, which may lie on two pages, or on one that is not made.
pub fn read_slowly(pages: &[Page], at: usize, width: u8) -> u64
    requires paged { IsPaged pages.now }
    requires short { width ≤ 8 }
    requires within { at + width ≤ 65536 * length pages.now }
    requires few { length pages.now < 2 ^ 32 }
    ensures value { result ≡ number (take width (drop at (bytes_in pages.now))) }
    ensures fits { result < 256 ^ width }
{
    if width == 0 {
        return 0;
    }
    byte_at(pages, at) as u64 + 256 * read_slowly(pages, at + 1, width - 1)
}

/// How many pages are made.
pub fn count_made(pages: &[Page]) -> u32
    requires { length pages.now < 2 ^ 32 }
    ensures { result ≡ count_by (λ made. made) (made_in pages.now) }
{
    let mut count: u32 = 0;
    for page in pages {
        if page.is_made() {
            count += 1;
        }
    }
    count
}

/// The number of pages that neither the maximum nor 4,096 passes.
pub fn most_pages(max: Option<u32>) -> u32
    ensures { result ≡ min (unwrap_or max 4096) 4096 }
{
    match max {
        Some(max) => max.min(4096),
        None => 4096,
    }
}
