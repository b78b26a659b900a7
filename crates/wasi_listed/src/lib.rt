//! The listed interfaces of WASI 0.2: an interface, and a function, by its number. `io` holds those of `wasi:io`, `wasi:cli`,
//! `wasi:clocks` and `wasi:random`, `fs` those of `wasi:filesystem`, `net` those of `wasi:sockets`.
#![tactic(auto)]

pub mod fs;
mod fs_table;
mod fs_wit;
pub mod io;
mod io_table;
mod io_wit;
pub mod net;
mod net_table;
mod net_wit;

ghost use Rattle.std.specs.Prelude.{◌≡◌, ◌<◌, IfOk, Some};
ghost use Rattle.wasi_table.specs.Plain.{plain_interface};
ghost use Rattle.wasi_listed.specs.Listed.{described, listed, plain_listed, IsPlace};

use std::alloc::Global;
use virt_base::NoMemory;
use wasi_table::{Interface, NamedFunc};

/// How many interfaces are listed. They are numbered from 0.
pub const INTERFACES: u32 = 27;

/// How many functions they have. They are numbered from 0, in the order of the interfaces.
pub const FUNCTIONS: u32 = 122;

/// How many functions each interface has.
const COUNTS: [u32; 27] = [
    1, 3, 15, 3, 1, 1, 1, 1, 0, 0, 1, 1, 1, 2, 4, 2, 2, 1, 29, 1, 0, 1, 3, 28, 1, 18, 1,
];

/// A function, the number of its interface, and its place in it.
#[derive(Debug, Drop)]
pub struct ListedFunction {
    pub interface: u32,
    pub place: u32,
    pub function: NamedFunc,
}

#[tactic(auto, unfolding(crate::specs::Listed::described))]
/// The interface with a number.
pub fn describe(alloc: Global, number: u32) -> Result<Interface, NoMemory>
    requires { number < INTERFACES }
    ensures { IfOk result (λ i. plain_interface i ≡ described number) }
{
    if number < crate::fs::FIRST {
        crate::io::describe(alloc, number)
    } else if number < crate::net::FIRST {
        crate::fs::describe(alloc, number)
    } else {
        crate::net::describe(alloc, number)
    }
}

/// The interface of the function with a number, and its place in it.
fn place_of(number: u32) -> (u32, u32)
    requires { number < FUNCTIONS }
    ensures { IsPlace number result.0 result.1 }
{
    let mut place = number;
    for interface in 0..COUNTS.len() {
        let count = COUNTS[interface];
        if place < count {
            return (interface as u32, place);
        }
        place -= count;
    }
    unreachable!()
}

/// The function with a number.
pub fn function(alloc: Global, number: u32) -> Result<ListedFunction, NoMemory>
    requires { number < FUNCTIONS }
    ensures { IfOk result (λ f. listed number ≡ Some (plain_listed f)) }
{
    let (interface, place) = place_of(number);
    let mut functions = describe(alloc, interface)?.functions.into_vec();
    let function = functions.swap_remove(place as usize);
    Ok(ListedFunction {
        interface,
        place,
        function,
    })
}
