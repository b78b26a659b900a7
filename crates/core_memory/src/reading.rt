//! Bytes are read from the pages of a memory into a list, page by page.

ghost use Rattle.std.specs.Prelude.{◌≡◌, ◌+◌, ◌*◌, ◌/◌, ◌%◌, ◌≤◌, ◌<◌, ◌^◌, ◌++◌, length, take, drop, OnOk, IfOk};
ghost use Rattle.core_memory.specs.Pages.{bytes_in, IsPaged};

use crate::page::{PAGE, Page};
use std::alloc::{AllocError, Global};

/// `len` bytes from a place on, as a list of their own.
pub fn read_all(pages: &[Page], alloc: Global, at: usize, len: usize) -> Result<Vec<u8>, AllocError>
    requires paged { IsPaged pages.now }
    requires within { at + len ≤ 65536 * length pages.now }
    requires few { length pages.now < 2 ^ 32 }
    ensures { IfOk result (λ v. v.items ≡ take len (drop at (bytes_in pages.now))) }
{
    let mut bytes = Vec::with_capacity(alloc, len)?;
    let mut done = 0;
    while done < len {
        let place = at + done;
        let count = (len - done).min(PAGE - place % PAGE);
        append_piece(pages, place, count, &mut bytes)?;
        done += count;
    }
    Ok(bytes)
}

// Appends bytes that lie on one page.
fn append_piece(
    pages: &[Page],
    at: usize,
    len: usize,
    bytes: &mut Vec<u8>,
) -> Result<(), AllocError>
    requires paged { IsPaged pages.now }
    requires place { at / 65536 < length pages.now }
    requires within { at % 65536 + len ≤ 65536 }
    ensures { OnOk result (bytes.new.items ≡ bytes.old.items ++ take len (drop at (bytes_in pages.now))) }
{
    let page = pages[at / PAGE].bytes();
    if page.is_empty() {
        return bytes.resize(bytes.len() + len, 0);
    }
    let from = at % PAGE;
    bytes.extend_from_slice(&page[from..from + len])
}
