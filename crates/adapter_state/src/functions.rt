//! The functions that the state module defines, in the order of their exports.

ghost use Rattle.std.specs.Prelude.{◌≡◌, ◌≤◌, ◌<◌, ◌++◌, ◌∷◌, [], length, IfOk, OnOk, List, ℕ};
ghost use Rattle.adapter_code.specs.Layout.{Fits};
ghost use Rattle.adapter_state.specs.State.{each_kind, destructor_of, host_kind, calls_in, realloc_function, post_function, posts_of, state_functions};

use crate::destructors::destructor;
use crate::imports::drop_indexes;
use crate::names::free_name;
use crate::parts::{Posts, Presence};
use adapter_code::Layout;
use adapter_compile::HandleCalls;
use adapter_transfer::{Defined, realloc, reset};
use std::alloc::Global;
use virt_base::{Items, NoMemory, Text};

/// Realloc, the destructors of the world's kinds, and the post-returns.
pub fn functions(
    alloc: Global,
    kinds: &[Presence],
    layout: &Layout,
    posts: Posts,
) -> Result<Vec<Defined>, NoMemory>
    requires kinds { length kinds.now ≤ 14 }
    requires fits { Fits layout.now }
    ensures { IfOk result (λ list. list.items ≡ state_functions kinds.now layout.now posts) }
{
    let mut list = Vec::new(alloc);
    put_realloc(alloc, &mut list, layout)?;
    put_destructors(alloc, &mut list, kinds, layout)?;
    put_posts(alloc, &mut list, layout, posts)?;
    Ok(list)
}

fn put_realloc(alloc: Global, list: &mut Vec<Defined>, layout: &Layout) -> Result<(), NoMemory>
    requires { Fits layout.now }
    ensures { OnOk result (list.new.items ≡ list.old.items ++ realloc_function layout.now ∷ []) }
{
    let name = Text::from_str(alloc, "realloc")?;
    let body = realloc(alloc, layout)?;
    list.push(Defined { name, ty: 1, body })?;
    Ok(())
}

fn put_destructors(
    alloc: Global,
    list: &mut Vec<Defined>,
    kinds: &[Presence],
    layout: &Layout,
) -> Result<(), NoMemory>
    requires kinds { length kinds.now ≤ 14 }
    requires fits { Fits layout.now }
    ensures { OnOk result (list.new.items ≡ list.old.items ++ each_kind (destructor_of kinds.now layout.now) 0 kinds.now) }
{
    let calls = HandleCalls {
        makes: Items::empty(alloc),
        drops: drop_indexes(alloc, kinds, 0)?,
    };
    let mut kind = 0;
    for presence in kinds {
        put_destructor(alloc, list, &calls, layout, kind, *presence)?;
        kind += 1;
    }
    Ok(())
}

fn put_destructor(
    alloc: Global,
    list: &mut Vec<Defined>,
    calls: &HandleCalls,
    layout: &Layout,
    kind: u8,
    presence: Presence,
) -> Result<(), NoMemory>
    requires fits { Fits layout.now }
    requires kind { kind < 14 }
    ensures { (kinds : List _) → calls.now ≡ calls_in kinds → OnOk result (list.new.items ≡ list.old.items ++ destructor_of kinds layout.now kind presence) }
{
    if presence == Presence::Absent {
        return Ok(());
    }
    let name = free_name(alloc, kind)?;
    let body = destructor(alloc, layout.table_at(kind), host_of(presence, kind), calls)?;
    list.push(Defined { name, ty: 0, body })?;
    Ok(())
}

// The kind, where it is one of the host's.
fn host_of(presence: Presence, kind: u8) -> Option<u8>
    ensures { result ≡ host_kind kind presence }
{
    match presence {
        Presence::Host => Some(kind),
        Presence::Absent | Presence::Own => None,
    }
}

fn put_posts(
    alloc: Global,
    list: &mut Vec<Defined>,
    layout: &Layout,
    posts: Posts,
) -> Result<(), NoMemory>
    requires { Fits layout.now }
    ensures { OnOk result (list.new.items ≡ list.old.items ++ posts_of layout.now posts) }
{
    put_post(alloc, list, layout, posts.bare, "post", 2)?;
    put_post(alloc, list, layout, posts.narrow, "post-i32", 0)?;
    put_post(alloc, list, layout, posts.broad, "post-i64", 3)
}

// A post-return of a name and a type, where there is one.
fn put_post(
    alloc: Global,
    list: &mut Vec<Defined>,
    layout: &Layout,
    there: bool,
    name: &str,
    ty: u32,
) -> Result<(), NoMemory>
    requires { Fits layout.now }
    ensures { OnOk result (list.new.items ≡ list.old.items ++ post_function layout.now there name.now ty) }
{
    if !there {
        return Ok(());
    }
    let name = Text::from_str(alloc, name)?;
    let body = reset(alloc, layout)?;
    list.push(Defined { name, ty, body })?;
    Ok(())
}
