//! Rows: memories at their ends, as they grow, and across pages.

use crate::rows::same;
use core_memory::Memory;
use std::test::Fail;

const PAGE: u64 = 65536;

#[test]
fn places_and_lengths_at_the_end(rt: HostRuntime) -> Result<(), Fail> {
    let alloc = rt.alloc();
    let mut memory = Memory::new(alloc, 1, None)?;
    let found = (
        memory.fill(alloc, 65535, 7, 2),
        memory.load(65535, 1),
        memory.fill(alloc, 65536, 7, 0),
        memory.fill(alloc, 65537, 7, 0),
        memory.load(65533, 4),
        memory.write(alloc, 65535, b"ab"),
        memory.made(),
        memory.write(alloc, 65534, b"ab"),
        memory.load(65534, 2),
        memory.made(),
    );
    same(
        &rt,
        alloc,
        &found,
        "(Err(Trap), Ok(0), Ok(()), Err(Trap), Err(Trap), Err(Trap), 0, Ok(()), Ok(25185), 1)",
    )
}

#[test]
fn growing_up_to_the_most(rt: HostRuntime) -> Result<(), Fail> {
    let alloc = rt.alloc();
    let mut memory = Memory::new(alloc, 3, Some(5))?;
    let mut free = Memory::new(alloc, 0, None)?;
    let found = (
        (
            memory.grow(alloc, 0),
            memory.grow(alloc, 3),
            memory.grow(alloc, 2),
            memory.size(),
        ),
        (free.grow(alloc, 4096), free.grow(alloc, 1), free.made()),
    );
    same(
        &rt,
        alloc,
        &found,
        "((Ok(3), Ok(-1), Ok(3), 5), (Ok(0), Ok(-1), 0))",
    )
}

#[test]
fn pages_are_made_by_writes_alone(rt: HostRuntime) -> Result<(), Fail> {
    let alloc = rt.alloc();
    let mut memory = Memory::new(alloc, 4096, None)?;
    let mut blank = Memory::new(alloc, 4, None)?;
    let found = (
        (
            memory.store(alloc, 0, 1, 5),
            memory.store(alloc, 4096 * PAGE - 1, 1, 6),
            memory.made(),
        ),
        (
            blank.copy(alloc, PAGE - 1, 0, 65537),
            blank.made(),
            blank.load(PAGE - 1, 8),
        ),
    );
    same(
        &rt,
        alloc,
        &found,
        "((Ok(()), Ok(()), 2), (Ok(()), 2, Ok(0)))",
    )
}

#[test]
fn bytes_across_pages(rt: HostRuntime) -> Result<(), Fail> {
    let alloc = rt.alloc();
    let mut memory = Memory::new(alloc, 3, None)?;
    let found = (
        (
            memory.store(alloc, PAGE - 3, 8, 0x1122_3344_5566_7788),
            memory.load(PAGE - 3, 8),
            memory.load(PAGE, 4),
            memory.store(alloc, PAGE + 2, 2, 0xABCD_EF01),
            memory.load(PAGE - 3, 8),
            memory.fill(alloc, PAGE - 1, 9, PAGE + 2),
            memory.load(2 * PAGE - 1, 4),
        ),
        (
            memory.init(alloc, 0, b"abcdef", 2, 3),
            memory.load(0, 4),
            memory.init(alloc, 0, b"abcdef", 4, 3),
            memory.copy(alloc, 1, 0, 3),
            memory.load(0, 4),
            memory.copy(alloc, 0, 1, 3),
            memory.load(0, 4),
        ),
    );
    same(
        &rt,
        alloc,
        &found,
        "((Ok(()), Ok(1234605616436508552), Ok(573785173), Ok(()), Ok(1292253011080804232), Ok(()), Ok(2313)), \
         (Ok(()), Ok(6644835), Err(Trap), Ok(()), Ok(1701077859), Ok(()), Ok(1701143651)))",
    )
}
