//! Handles that leave a table and come into one, alone and in values, and the flags of an instance, worked by hand by the rules of
//! the Component Model's CanonicalABI.md.
//!
//! A row is `RESOURCES | STEPS => ANSWERS`: a table with own handles of these resources, which stand for 70, 71 and so on, and what
//! is done to it and to an instance, one step after another. Resource 2 is of instance 4, those before it are of imports.

use crate::rows::same;
use crate::texts::halves;
use instance_state::{Handles, Instance, Owner, Owners, Room, exchange_in, exchange_out};
use std::alloc::Global;
use std::fmt::Debug;
use std::process::Abort;
use std::rc::Rc;
use std::test::Fail;
use value_handles::{ValueHandle, has_handles};
use wit_types::{Types, Value, Values, WitType};

/// What the steps of a row go over. The instance is boxed, since each function that owns it as it is costs its check more.
#[derive(Drop)]
struct Desk {
    table: Handles,
    owners: Owners,
    instance: Box<Instance>,
}

fn told(alloc: Global, value: &impl Debug) -> Result<String, Fail> {
    Ok(format!(in alloc; "{value:?}")?)
}

fn numbers(alloc: Global, text: &str) -> Result<Vec<u32>, Fail> {
    let mut all = Vec::new(alloc);
    for word in text.split(' ') {
        if !word.is_empty() {
            all.push(word.parse::<u32>()?)?;
        }
    }
    Ok(all)
}

/// `own RESOURCE NUMBER` or `borrow RESOURCE NUMBER`.
fn handle(text: &str) -> Result<ValueHandle, Fail> {
    let (kind, rest) = halves(text, " ");
    let (resource, number) = halves(rest, " ");
    let (resource, number) = (resource.parse::<u32>()?, number.parse::<u32>()?);
    Ok(match kind {
        "own" => ValueHandle::Own { resource, number },
        _ => ValueHandle::Borrow { resource, number },
    })
}

fn handles(alloc: Global, text: &str) -> Result<Vec<ValueHandle>, Fail> {
    let mut all = Vec::new(alloc);
    for piece in text.split(", ") {
        all.push(handle(piece)?)?;
    }
    Ok(all)
}

/// A handle of resource 1, a list of borrowed handles of resource 2, and perhaps a handle of resource 1.
fn handles_type(alloc: Global) -> Result<WitType, Fail> {
    let borrowed = WitType::List(Rc::new(alloc, WitType::Borrow(2))?);
    let last = WitType::Option(Rc::new(alloc, WitType::Own(1))?);
    let items = vec![in alloc; WitType::Own(1), borrowed, last]?;
    Ok(WitType::Tuple(Rc::new(alloc, Types { items })?))
}

/// A value of that type with two handles in its list.
fn handles_value(alloc: Global, text: &str) -> Result<Value, Fail> {
    let numbers = numbers(alloc, text)?;
    let [first, second, third, last] = numbers.as_slice() else {
        return Err(Fail::from("four handles are wanted"));
    };
    let list = vec![in alloc; Value::Handle(*second), Value::Handle(*third)]?;
    let list = Value::List(Values::Each(list));
    let last = Box::new(alloc, Value::Handle(*last))?;
    let items = vec![in alloc; Value::Handle(*first), list, Value::Variant(1, Some(last))]?;
    Ok(Value::Record(Values::Each(items)))
}

/// Handles leave: what they stand for, and those that are lent.
fn lift(alloc: Global, table: &mut Handles, text: &str) -> Result<String, Fail> {
    let handles = handles(alloc, text)?;
    let mut reps = Vec::new(alloc);
    let mut loans = Vec::new(alloc);
    match table.lift(handles.as_slice(), &mut reps, &mut loans) {
        Ok(()) => told(alloc, &(reps, loans)),
        Err(fault) => told(alloc, &fault),
    }
}

/// `INSTANCE HANDLES`: handles come into an instance, or into none; their indexes there.
fn lower(alloc: Global, desk: &mut Desk, text: &str) -> Result<String, Fail> {
    let (into, text) = halves(text, " ");
    let into = into.parse::<u32>().ok();
    let handles = handles(alloc, text)?;
    let mut indexes = Vec::new(alloc);
    let Desk { table, owners, .. } = desk;
    match table.lower(alloc, owners, into, handles.as_slice(), &mut indexes) {
        Ok(()) => told(alloc, &indexes),
        Err(fault) => told(alloc, &fault),
    }
}

/// A value leaves: with what its handles stand for, and those that are lent.
fn value_out(alloc: Global, table: &mut Handles, text: &str) -> Result<String, Fail> {
    let ty = handles_type(alloc)?;
    let value = handles_value(alloc, text)?;
    let mut room = Room::new(alloc);
    let mut loans = Vec::new(alloc);
    let holds = has_handles(&ty);
    match exchange_out(table, &mut room, &mut loans, holds, &ty, value) {
        Ok(value) => told(alloc, &(value, loans)),
        Err(fault) => told(alloc, &fault),
    }
}

/// `INSTANCE NUMBERS`: a value comes into an instance, with the indexes of its handles there.
fn value_in(alloc: Global, desk: &mut Desk, text: &str) -> Result<String, Fail> {
    let (into, numbers) = halves(text, " ");
    let into = into.parse::<u32>().ok();
    let ty = handles_type(alloc)?;
    let value = handles_value(alloc, numbers)?;
    let mut room = Room::new(alloc);
    let holds = has_handles(&ty);
    let Desk { table, owners, .. } = desk;
    let answer = exchange_in(alloc, table, &mut room, owners, into, holds, &ty, value);
    told(alloc, &answer)
}

fn flag_step(alloc: Global, instance: &mut Instance, verb: &str) -> Result<String, Fail> {
    match verb {
        "open" => told(alloc, &instance.is_open()),
        "enter" => told(alloc, &instance.enter()),
        "exit" => told(alloc, &instance.exit()),
        "close" => told(alloc, &instance.close()),
        "reopen" => told(alloc, &instance.reopen()),
        _ => Err(Fail::from("no such step")),
    }
}

fn handle_step(alloc: Global, desk: &mut Desk, verb: &str, a: u32, b: u32) -> Result<String, Fail> {
    match verb {
        "take" => told(alloc, &desk.table.take(a, b)),
        "rep" => told(alloc, &desk.table.rep_of(a, b)),
        "make" => told(alloc, &desk.table.make(alloc, a, b)),
        "remove" => told(alloc, &desk.instance.remove(a, b)),
        _ => Err(Fail::from("no such step")),
    }
}

/// A step about a resource that the instance defines, or does not.
fn resource_step(
    alloc: Global,
    instance: &mut Instance,
    verb: &str,
    owns: bool,
    resource: u32,
    number: u32,
) -> Result<String, Fail> {
    match verb {
        "create" => told(
            alloc,
            &instance.make_resource(alloc, owns, resource, number),
        ),
        "stands" => told(alloc, &instance.rep_of(owns, resource, number)),
        _ => Err(Fail::from("no such step")),
    }
}

fn small_step(alloc: Global, desk: &mut Desk, verb: &str, text: &str) -> Result<String, Fail> {
    let numbers = numbers(alloc, text)?;
    match numbers.as_slice() {
        [] => flag_step(alloc, &mut desk.instance, verb),
        [a, b] => handle_step(alloc, desk, verb, *a, *b),
        [owns, resource, number] => {
            resource_step(
                alloc,
                &mut desk.instance,
                verb,
                *owns > 0,
                *resource,
                *number,
            )
        }
        _ => Err(Fail::from("no such step")),
    }
}

fn step(alloc: Global, desk: &mut Desk, text: &str) -> Result<String, Fail> {
    let (verb, rest) = halves(text, " ");
    match verb {
        "lift" => lift(alloc, &mut desk.table, rest),
        "lower" => lower(alloc, desk, rest),
        "out" => value_out(alloc, &mut desk.table, rest),
        "in" => value_in(alloc, desk, rest),
        "borrowed" => told(alloc, &desk.table.has_borrow()),
        _ => small_step(alloc, desk, verb, rest),
    }
}

fn table(alloc: Global, resources: &str) -> Result<Handles, Fail> {
    let mut table = Handles::new(alloc);
    let mut rep = 70;
    for resource in numbers(alloc, resources)? {
        if table.make(alloc, resource, rep).is_err() {
            return Err(Fail::from("no room in the table"));
        }
        rep = rep.saturating_add(1);
    }
    Ok(table)
}

fn desk_of(alloc: Global, resources: &str) -> Result<Desk, Fail> {
    let mut owners = Owners::new(alloc, 2);
    owners.items.push(Owner {
        instance: 4,
        destructor: None,
    })?;
    Ok(Desk {
        table: table(alloc, resources)?,
        owners,
        instance: Box::new(alloc, Instance::new(alloc))?,
    })
}

fn row_holds(rt: &impl Abort, alloc: Global, row: &str) -> Result<(), Fail> {
    let (work, wanted) = halves(row, " => ");
    let (resources, steps) = halves(work, " | ");
    let mut desk = desk_of(alloc, resources)?;
    let mut found = String::new(alloc);
    for text in steps.split("; ") {
        if !found.is_empty() {
            found.push_str("; ")?;
        }
        found.push_str(step(alloc, &mut desk, text)?.as_str())?;
    }
    same(rt, found.as_str(), wanted, row)
}

/// A line after `-- ` says what the rows below it are about.
const ROWS: &str = "\
-- handles that leave, and those that are lent
5 5 6 | lift own 5 1, borrow 5 2 => ([70, 71], [Loan { index: 2, resource: 5 }])
5 5 6 | lift borrow 5 2, borrow 5 2 => ([71, 71], [Loan { index: 2, resource: 5 }, Loan { index: 2, resource: 5 }])
-- another resource, an index that was never used, the index 0, one handle twice, and one that is lent
5 5 6 | lift own 5 3 => Trap
5 5 6 | lift own 5 4 => Trap
5 5 6 | lift borrow 5 0 => Trap
5 5 6 | lift own 5 1, own 5 1 => Trap
5 5 6 | lift borrow 5 1, own 5 1 => Trap
-- handles that come: one that is lent to the instance which defines its resource is what it stands for
 | lower 4 borrow 2 99; borrowed => [99]; false
 | lower 5 borrow 2 99; borrowed => [1]; true
 | lower 4 borrow 1 99; borrowed => [1]; true
 | lower - borrow 2 99; borrowed => [0]; false
 | lower 4 own 2 99; borrowed => [1]; false
-- the index that was freed last is used first
5 6 5 | take 3 5; take 2 6; take 2 6; take 1 6; rep 1 5; make 7 80; make 7 81; make 7 82 => Ok(Some(72)); Ok(Some(71)); Err(Trap); Err(Trap); Ok(70); Ok(2); Ok(3); Ok(4)
-- a value leaves, one of its handles lent twice; then its own handles are gone
2 1 1 | out 3 1 1 2; out 3 1 1 2 => (Record(Each([Handle(72), List(Each([Handle(70), Handle(70)])), Variant(1, Some(Handle(71)))])), [Loan { index: 1, resource: 2 }, Loan { index: 1, resource: 2 }]); Trap
-- a value comes, into the instance that defines resource 2 and into another one
 | in 4 80 81 82 83; in 5 80 81 82 83; borrowed => Ok(Record(Each([Handle(1), List(Each([Handle(81), Handle(82)])), Variant(1, Some(Handle(2)))]))); Ok(Record(Each([Handle(3), List(Each([Handle(4), Handle(5)])), Variant(1, Some(Handle(6)))]))); true
-- the two flags, and what they keep back: what a handle stands for is told in a closed instance too
 | open; enter; enter; open; create 1 3 40; create 0 3 40; close; open; create 1 3 41; remove 3 1; stands 1 3 1; stands 0 3 1; reopen; exit; enter; remove 2 1; remove 3 1; remove 3 1 => Ok(()); Ok(()); Err(Trap); Ok(()); Ok(1); Err(Trap); (); Err(Trap); Err(Trap); Err(Trap); Ok(40); Err(Trap); (); (); Ok(()); Err(Trap); Ok(Some(40)); Err(Trap)";

#[test]
fn tables_and_flags(rt: HostRuntime) -> Result<(), Fail> {
    for row in ROWS.lines() {
        if !row.starts_with("-- ") {
            row_holds(&rt, rt.alloc(), row)?;
        }
    }
    Ok(())
}
