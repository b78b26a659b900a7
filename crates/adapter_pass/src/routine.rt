//! A routine in the making.

use crate::kinds::Kind;
use adapter_code::{
    Field, IntOp, Statement, Statements, add, append, choose, constant, less, load, multiply,
    repeat, store, subtract,
};
use std::alloc::Global;
use table_bytes::{
    answer, at_most, both_bits, copy, differ, drop_handle, either_bits, equal, leave, make_handle,
    other_bits, shift_left, shift_right, trap,
};
use virt_base::NoMemory;

/// Statements in order. Where memory runs out the routine is lost, and what is added to a lost one changes nothing: so no step
/// fails, and `statements` says whether the routine is whole.
#[derive(Drop)]
pub struct Routine {
    alloc: Global,
    list: Statements,
    lost: bool,
}

impl Routine {
    /// A routine without statements.
    pub fn new(alloc: Global) -> Routine {
        Routine {
            alloc,
            list: Vec::new(alloc),
            lost: false,
        }
    }

    /// A routine of these statements.
    pub fn made(alloc: Global, list: Result<Statements, NoMemory>) -> Routine {
        match list {
            Ok(list) => Routine {
                alloc,
                list,
                lost: false,
            },
            Err(_) => Routine {
                alloc,
                list: Vec::new(alloc),
                lost: true,
            },
        }
    }

    /// The statements; `NoMemory` where the routine is lost.
    pub fn statements(self) -> Result<Statements, NoMemory> {
        if self.lost {
            Err(NoMemory)
        } else {
            Ok(self.list)
        }
    }

    fn and(self, statement: Statement, lost: bool) -> Routine {
        let Routine {
            alloc,
            list,
            lost: before,
        } = self;
        let mut list = list;
        let full = list.push(statement).is_err();
        Routine {
            alloc,
            list,
            lost: before || lost || full,
        }
    }

    /// Sets a local to a value.
    pub fn constant(self, to: u32, value: u64) -> Routine {
        self.and(constant(to, value), false)
    }

    /// Copies the low bits of a local, with zeros above.
    pub fn copy(self, to: u32, from: u32) -> Routine {
        self.and(copy(to, from), false)
    }

    pub fn add(self, to: u32, a: u32, b: u32) -> Routine {
        self.and(add(to, a, b), false)
    }

    pub fn subtract(self, to: u32, a: u32, b: u32) -> Routine {
        self.and(subtract(to, a, b), false)
    }

    pub fn multiply(self, to: u32, a: u32, b: u32) -> Routine {
        self.and(multiply(to, a, b), false)
    }

    pub fn both_bits(self, to: u32, a: u32, b: u32) -> Routine {
        self.and(both_bits(to, a, b), false)
    }

    pub fn either_bits(self, to: u32, a: u32, b: u32) -> Routine {
        self.and(either_bits(to, a, b), false)
    }

    pub fn other_bits(self, to: u32, a: u32, b: u32) -> Routine {
        self.and(other_bits(to, a, b), false)
    }

    pub fn shift_left(self, to: u32, a: u32, b: u32) -> Routine {
        self.and(shift_left(to, a, b), false)
    }

    pub fn shift_right(self, to: u32, a: u32, b: u32) -> Routine {
        self.and(shift_right(to, a, b), false)
    }

    /// Sets a local of 32 bits to 1 where two numbers are equal, and else to 0.
    pub fn equal(self, to: u32, a: u32, b: u32) -> Routine {
        self.and(equal(to, a, b), false)
    }

    pub fn differ(self, to: u32, a: u32, b: u32) -> Routine {
        self.and(differ(to, a, b), false)
    }

    pub fn less(self, to: u32, a: u32, b: u32) -> Routine {
        self.and(less(to, a, b), false)
    }

    pub fn at_most(self, to: u32, a: u32, b: u32) -> Routine {
        self.and(at_most(to, a, b), false)
    }

    /// Reads a field of the record at a place.
    pub fn load(self, to: u32, at: u32, field: Field) -> Routine {
        self.and(load(to, at, field), false)
    }

    /// Writes a field of the record at a place.
    pub fn store(self, from: u32, at: u32, field: Field) -> Routine {
        self.and(store(from, at, field), false)
    }

    /// Goes to what follows the innermost repeat of a name.
    pub fn leave(self, name: u32) -> Routine {
        self.and(leave(name), false)
    }

    pub fn trap(self) -> Routine {
        self.and(trap(), false)
    }

    /// Ends the routine.
    pub fn answer(self) -> Routine {
        self.and(answer(), false)
    }

    /// Makes a handle of the adapter's resource of a kind, for a place, and puts its index into a local.
    pub fn make_handle(self, kind: Kind, rep: u32, to: u32) -> Routine {
        self.and(make_handle(kind.number(), rep, to), false)
    }

    /// Drops a handle of the host's resource of a kind.
    pub fn drop_handle(self, kind: Kind, index: u32) -> Routine {
        self.and(drop_handle(kind.number(), index), false)
    }

    /// An operation with a constant, which `scratch`, of the operand's width, holds meanwhile.
    pub fn with(self, op: IntOp, to: u32, a: u32, value: u64, scratch: u32) -> Routine {
        self.constant(scratch, value).and(
            Statement::Int {
                op,
                to,
                a,
                b: scratch,
            },
            false,
        )
    }

    /// Writes a constant, which `scratch` holds meanwhile.
    pub fn store_value(self, value: u64, at: u32, field: Field, scratch: u32) -> Routine {
        self.constant(scratch, value).store(scratch, at, field)
    }

    /// Runs the first routine where a local is not 0, and else the second.
    pub fn choose(self, test: u32, yes: Routine, no: Routine) -> Routine {
        let lost = yes.lost || no.lost;
        self.and(choose(test, yes.list, no.list), lost)
    }

    /// Runs a routine where a local is not 0.
    pub fn when(self, test: u32, body: Routine) -> Routine {
        let alloc = self.alloc;
        self.choose(test, body, Routine::new(alloc))
    }

    /// Runs a routine where a local is 0.
    pub fn unless(self, test: u32, body: Routine) -> Routine {
        let alloc = self.alloc;
        self.choose(test, Routine::new(alloc), body)
    }

    /// Runs a routine where a local equals a constant. `scratch`, of its width, and `test` are lost.
    pub fn when_is(self, x: u32, value: u64, scratch: u32, test: u32, body: Routine) -> Routine {
        self.with(IntOp::Eq, test, x, value, scratch)
            .when(test, body)
    }

    /// Runs a routine as often as a local says.
    pub fn repeat(self, name: u32, count: u32, body: Routine) -> Routine {
        let lost = body.lost;
        self.and(repeat(name, count, body.list), lost)
    }

    /// Runs a routine once; `leave` of its name leads out of the midst of it. `one` is set to 1.
    pub fn once(self, name: u32, one: u32, body: Routine) -> Routine {
        self.constant(one, 1).repeat(name, one, body)
    }

    /// The statements of another routine.
    pub fn part(self, part: Routine) -> Routine {
        let mut all = self;
        all.extend(part);
        all
    }

    /// Adds the statements of another routine.
    pub fn extend(&mut self, part: Routine) {
        let full = append(&mut self.list, part.list).is_err();
        self.lost = self.lost || part.lost || full;
    }
}
