//! Rows: each call on a store with ample memory, and calls at the edges.

ghost use Rattle.std.specs.Prelude.{◌≤◌, ◌<◌, length};

use crate::rows::{hold, numbers_of, same, shown};
use core_store::{
    CoreRef, CoreRefs, CoreSpaces, CoreValue, Locals, Shared, Store, StoreFunc, add_elements,
    add_function, add_global, add_instance, add_memory, add_segment, add_table, copy, drop_element,
    drop_segment, fill, function, functions, global_get, global_set, grow, init, instances, load,
    size, spaces, store_at, table_copy, table_fill, table_get, table_grow, table_init, table_set,
    table_size,
};
use std::alloc::Global;
use std::test::Fail;
use virt_base::{CoreType, CoreTypes, Items};
use wasm_ast::{CoreFunc, Indexes, LocalRun};

/// A store, and how much was added to it. It is boxed, since each function that owns it as it is costs its check ten seconds more.
#[derive(Drop)]
struct Scene {
    store: Box<Store>,
    memories: u32,
    tables: u32,
    globals: u32,
    segments: u32,
    elements: u32,
    ghost memories_there: { memories ≤ length store.value.memories },
    ghost tables_there: { tables ≤ length store.value.tables },
    ghost globals_there: { globals ≤ length store.value.globals },
    ghost segments_there: { segments ≤ length store.value.segments },
    ghost elements_there: { elements ≤ length store.value.elements },
}

/// A function of the embedder, of this number, which takes and gives nothing.
fn outside(alloc: Global, number: u32) -> Result<StoreFunc, Fail> {
    let ty = CoreFunc {
        params: CoreTypes::empty(alloc),
        results: CoreTypes::empty(alloc),
    };
    let ty = Shared::new(alloc, ty)?;
    Ok(StoreFunc::Outside { ty, number })
}

/// The index spaces of an instance without items.
fn no_spaces(alloc: Global) -> CoreSpaces {
    CoreSpaces {
        types: Items::empty(alloc),
        functions: Indexes::empty(alloc),
        tables: Indexes::empty(alloc),
        memories: Indexes::empty(alloc),
        globals: Indexes::empty(alloc),
        segments: Indexes::empty(alloc),
        elements: Indexes::empty(alloc),
    }
}

/// The number, or the greatest where it is greater.
fn small(number: u64) -> u32 {
    u32::try_from(number).unwrap_or(u32::MAX)
}

impl Scene {
    fn new(alloc: Global) -> Result<Scene, Fail> {
        Ok(Scene {
            store: Box::new(alloc, Store::new(alloc))?,
            memories: 0,
            tables: 0,
            globals: 0,
            segments: 0,
            elements: 0,
        })
    }

    /// Adds what begins with this letter: a memory or a table of that many pages or null references, a global with this i64, four
    /// bytes, that many null references, an instance, or the embedder's function of this number.
    fn add(&mut self, alloc: Global, kind: u8, number: u64) -> Result<String, Fail> {
        let at = match kind {
            b'm' => {
                let at = add_memory(alloc, &mut self.store, small(number), None)?;
                self.memories = at + 1;
                at
            }
            b't' => {
                let at = add_table(alloc, &mut self.store, small(number), None)?;
                self.tables = at + 1;
                at
            }
            b'g' => {
                let at = add_global(alloc, &mut self.store, CoreValue::I64(number))?;
                self.globals = at + 1;
                at
            }
            b's' => {
                let at = add_segment(alloc, &mut self.store, b"abcd")?;
                self.segments = at + 1;
                at
            }
            b'e' => {
                let nulls = CoreRefs::new(vec![in alloc; CoreRef::Null; small(number) as usize]?);
                let at = add_elements(alloc, &mut self.store, nulls)?;
                self.elements = at + 1;
                at
            }
            b'i' => add_instance(alloc, &mut self.store, no_spaces(alloc))?,
            _ => add_function(alloc, &mut self.store, outside(alloc, small(number))?)?,
        };
        shown(alloc, &at)
    }

    /// Calls on memories, by their first letter: the memory, and further numbers.
    fn call_memory(
        &mut self,
        alloc: Global,
        call: u8,
        memory: u32,
        numbers: &[u64],
    ) -> Result<String, Fail> {
        if memory >= self.memories || self.segments == 0 {
            return Err(Fail::from("no such memory, or no segment"));
        }
        let store = &mut self.store;
        match (call, numbers) {
            (b'f', [at, len]) => shown(alloc, &fill(store, memory, *at, 7, *len)),
            (b'l', [at, 1]) => shown(alloc, &load(store, memory, *at, 1)),
            (b'l', [at, 2]) => shown(alloc, &load(store, memory, *at, 2)),
            (b'l', [at, 8]) => shown(alloc, &load(store, memory, *at, 8)),
            (b'p', [at, value]) => shown(alloc, &store_at(store, memory, *at, 1, *value)),
            (b'c', [to, from, len]) => shown(alloc, &copy(store, memory, *to, *from, *len)),
            (b'i', [to, from, len]) => shown(alloc, &init(store, memory, *to, 0, *from, *len)),
            (b'd', []) => shown(alloc, &drop_segment(store, 0)),
            (b'g', [by]) => shown(alloc, &grow(alloc, store, memory, small(*by))),
            (b's', []) => shown(alloc, &size(store, memory)),
            (b'm', []) => shown(alloc, &store.made(memory)),
            _ => Err(Fail::from("no call on memories")),
        }
    }

    /// Calls on tables, by their first letter: the table, and further numbers.
    fn call_table(
        &mut self,
        alloc: Global,
        call: u8,
        table: u32,
        numbers: &[u64],
    ) -> Result<String, Fail> {
        let store = &mut self.store;
        if table >= self.tables || self.elements == 0 || functions(store) == 0 {
            return Err(Fail::from("no such table, or no segment or function"));
        }
        let own = CoreRef::Func(0);
        match (call, numbers) {
            (b'f', [at, len]) => shown(
                alloc,
                &table_fill(store, table, small(*at), own, small(*len)),
            ),
            (b'g', [at]) => shown(alloc, &table_get(store, table, small(*at))),
            (b's', [at]) => shown(alloc, &table_set(store, table, small(*at), own)),
            (b'n', [at]) => shown(alloc, &table_set(store, table, small(*at), CoreRef::Null)),
            (b'c', [to, from, len]) => shown(
                alloc,
                &table_copy(store, table, small(*to), table, small(*from), small(*len)),
            ),
            (b'i', [to, from, len]) => shown(
                alloc,
                &table_init(store, table, small(*to), 0, small(*from), small(*len)),
            ),
            (b'd', []) => shown(alloc, &drop_element(store, 0)),
            (b'e', [by]) => shown(
                alloc,
                &table_grow(alloc, store, table, small(*by), CoreRef::Null),
            ),
            (b'l', []) => shown(alloc, &table_size(store, table)),
            _ => Err(Fail::from("no call on tables")),
        }
    }

    /// The global at a place, once it is set where a number is given.
    fn call_global(&mut self, alloc: Global, at: u32, numbers: &[u64]) -> Result<String, Fail> {
        let store = &mut self.store;
        if at >= self.globals {
            return Err(Fail::from("no such global"));
        }
        if let ([value], CoreValue::I64(_)) = (numbers, global_get(store, at)) {
            global_set(store, at, CoreValue::I64(*value));
        }
        shown(alloc, &global_get(store, at))
    }

    /// How many functions and instances there are, the number of the embedder's function at a place, and how many functions the
    /// instance at a place has.
    fn count(&self, alloc: Global, at: u32) -> Result<String, Fail> {
        let store = &self.store;
        let mut number = None;
        if at < functions(store)
            && let StoreFunc::Outside { number: found, .. } = function(store, at)
        {
            number = Some(*found);
        }
        let mut named = None;
        if at < instances(store) {
            named = Some(spaces(store, at).get().functions.len());
        }
        shown(alloc, &(functions(store), number, instances(store), named))
    }

    fn call(&mut self, alloc: Global, words: &str) -> Result<String, Fail> {
        let Some((name, numbers)) = words.split_once(' ') else {
            return Err(Fail::from("a call without numbers"));
        };
        let numbers = numbers_of(alloc, numbers)?;
        let [at, rest @ ..] = numbers.as_slice() else {
            return Err(Fail::from("a call without numbers"));
        };
        let place = small(*at);
        match name.as_bytes() {
            [b'a', b'd', b'd', b'_', kind, ..] => self.add(alloc, *kind, *at),
            [b't', b'a', b'b', b'l', b'e', b'_', call, ..] => {
                self.call_table(alloc, *call, place, rest)
            }
            b"global" => self.call_global(alloc, place, rest),
            b"count" => self.count(alloc, place),
            [call, ..] => self.call_memory(alloc, *call, place, rest),
            [] => Err(Fail::from("no call")),
        }
    }
}

/// Calls on a store: what is added, and what is done to the memory at a place, or after `table_` to the table, each by a word with
/// a letter of its own: `put` is `store_at`, `null` sets to null, `extend` grows and `length` is the size.
const CALLS: &str = "\
add_segment 0 => 0
# fills at the end of a memory
add_memory 1 => 0
fill 0 65535 2 => Err(Trap)
load 0 65535 1 => Ok(0)
fill 0 65536 0 => Ok(())
fill 0 65537 0 => Err(Trap)
# pages of two memories
add_memory 4096 => 1
add_memory 1 => 2
put 1 0 5 => Ok(())
put 1 268435455 6 => Ok(())
made 1 => 2
made 2 => 0
# a copy of zeros makes its pages
add_memory 4 => 3
copy 3 65535 0 65537 => Ok(())
made 3 => 2
load 3 65535 8 => Ok(0)
# a data segment is dropped
init 0 10 1 2 => Ok(())
load 0 10 2 => Ok(25442)
drop 0 => ()
init 0 10 0 1 => Err(Trap)
init 0 65536 0 0 => Ok(())
# a memory grows up to 4,096 pages
grow 0 0 => Ok(1)
grow 0 4095 => Ok(1)
grow 0 1 => Ok(-1)
size 0 => 4096
add_function 7 => 0
add_elements 2 => 0
# references in a table
add_table 3 => 0
table_fill 0 2 2 => Err(Trap)
table_get 0 2 => Ok(Null)
table_set 0 0 => Ok(())
table_null 0 3 => Err(Trap)
table_copy 0 1 0 2 => Ok(())
table_get 0 1 => Ok(Func(0))
table_get 0 2 => Ok(Null)
table_get 0 3 => Err(Trap)
# an element segment is dropped
add_table 2 => 1
table_init 1 0 0 2 => Ok(())
table_drop 1 => ()
table_init 1 0 0 1 => Err(Trap)
# a table grows up to its most
add_table 0 => 2
table_extend 2 1048576 => Ok(0)
table_extend 2 1 => Ok(-1)
table_length 2 => 1048576
# globals, functions and instances
count 0 => (1, Some(7), 0, None)
add_global 5 => 0
global 0 6 => I64(6)
add_instance 0 => 0
count 0 => (1, Some(7), 1, Some(0))";

#[test]
fn calls_on_a_store(rt: HostRuntime) -> Result<(), Fail> {
    let mut scene = Scene::new(rt.alloc())?;
    hold(
        &rt,
        rt.alloc(),
        CALLS,
        |alloc, words| scene.call(alloc, words),
    )
}

/// Calls up to the most that may be in progress, locals in runs, and a value of two owners.
#[test]
fn calls_and_their_locals(rt: HostRuntime) -> Result<(), Fail> {
    let alloc = rt.alloc();
    let runs = [
        LocalRun {
            count: 50_000,
            ty: CoreType::I32,
        },
        LocalRun {
            count: 0,
            ty: CoreType::I64,
        },
        LocalRun {
            count: 3,
            ty: CoreType::Funcref,
        },
    ];
    let locals = Locals::new(alloc, &runs)?;
    let first = Shared::new(alloc, Indexes::empty(alloc))?;
    let second = first.share()?;
    drop(first);
    let mut store = Store::new(alloc);
    store.set_nesting(65535);
    let entered = (store.enter(), store.enter());
    store.leave();
    let found = (
        entered,
        store.nesting(),
        locals.len(),
        locals.is_empty(),
        second.get().len(),
    );
    same(
        &rt,
        alloc,
        &found,
        "((Ok(()), Err(TooDeep)), 65535, 50003, false, 0)",
    )
}
