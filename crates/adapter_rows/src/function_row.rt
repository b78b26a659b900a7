//! The row of a function.

use crate::contents::Contents;
use crate::dispatch::by_handles;
use crate::image::Image;
use crate::names::own_name;
use adapter_fs::NodesAt;
use adapter_io::{
    IoData, environment, filtered_directories, filtered_environment, monotonic_clock, stdio,
    terminal, virtual_directories, wall_clock,
};
use adapter_pass::{Frame, Places, Routine, RowTypes, frame_of, from_host, net_code, room};
use adapter_scratch::ScratchAt;
use adapter_stubs::{HostFunc, Stub};
use adapter_world::WorldFunction;
use policy_data::{Deny, MonotonicClock, Policy, WallClock};
use ref_rules::{Access, Errors, errors_of, function_access};
use std::alloc::Global;
use virt_base::NoMemory;

/// What rows are made from: a policy, what its trees hold, and where the adapter's memory has what.
#[derive(Clone, Copy)]
pub struct Source<'a> {
    pub alloc: Global,
    pub policy: &'a Policy,
    pub places: Places,
    pub io: IoData,
    pub nodes: Option<NodesAt>,
    pub scratch: Option<ScratchAt>,
}

impl Source<'_> {
    /// What handles can stand for.
    pub fn contents(&self) -> Contents<'_> {
        Contents {
            policy: self.policy,
            trees: self.nodes.is_some(),
            scratch: self.scratch.is_some(),
        }
    }
}

fn errors_in(function: &WorldFunction) -> Errors {
    errors_of(function.interface, &function.function.ty.result)
}

/// A denied function traps, or answers access-denied where the policy says so and the result has error codes of sockets. Before that
/// it answers out-of-memory where there is no room.
fn denied(s: &Source<'_>, f: &Frame, function: &WorldFunction) -> Routine {
    match errors_in(function) {
        Errors::Sockets => {
            let tested = room(f, &function.function.ty.result, Errors::Sockets);
            match s.policy.deny {
                Deny::Error => tested.part(f.err(net_code::ACCESS_DENIED)),
                Deny::Trap => tested.trap(),
            }
        }
        _ => f.routine().trap(),
    }
}

fn fixed_wall(s: &Source<'_>, f: &Frame, name: &str) -> Routine {
    match s.policy.clocks_wall {
        WallClock::Fixed(time) => wall_clock(f, time, name),
        _ => f.routine().trap(),
    }
}

fn fixed_monotonic(s: &Source<'_>, f: &Frame, name: &str) -> Routine {
    match s.policy.clocks_monotonic {
        MonotonicClock::Fixed(nanoseconds) => monotonic_clock(f, nanoseconds, name),
        _ => f.routine().trap(),
    }
}

/// A function that is answered without the host, whatever handles there are.
fn answered(s: &Source<'_>, f: &Frame, interface: u32, name: &str) -> Routine {
    match interface {
        3 => environment(f, &s.io, name),
        5 | 6 | 7 => stdio(f, name),
        10 | 11 | 12 => terminal(f),
        13 => fixed_wall(s, f, name),
        14 => fixed_monotonic(s, f, name),
        19 => virtual_directories(f, &s.io),
        _ => f.routine().trap(),
    }
}

fn before(s: &Source<'_>, f: &Frame, function: &WorldFunction) -> Result<Routine, NoMemory> {
    let name = function.function.name.as_str();
    let access = function_access(s.policy, function.interface, name);
    let tested = f
        .begin()
        .part(room(f, &function.function.ty.result, errors_in(function)));
    match access {
        Access::Denied => Ok(f.begin().part(denied(s, f, function))),
        Access::Virtual => {
            let answer = answered(s, f, function.interface, own_name(name));
            Ok(tested.part(answer))
        }
        Access::Hosted => Ok(tested.part(by_handles(s, f, function)?)),
    }
}

/// What is done with the host's answer.
fn after(s: &Source<'_>, f: &Frame, function: &WorldFunction) -> Routine {
    match function.function.name.as_str() {
        "get-environment" => filtered_environment(f, s.policy, &s.io),
        "get-directories" => filtered_directories(f, s.policy, &s.io),
        _ => from_host(f, &function.function.ty),
    }
}

fn after_where(s: &Source<'_>, f: &Frame, function: &WorldFunction) -> Routine {
    if function.needed {
        after(s, f, function)
    } else {
        f.routine()
    }
}

fn host_of(function: &WorldFunction, types: RowTypes) -> (Option<HostFunc>, wasm_ast::CoreFunc) {
    let RowTypes { flat, host } = types;
    let host = match host {
        Some(lowered) => Some(HostFunc {
            function: function.number,
            flat: lowered,
        }),
        None => None,
    };
    (host, flat)
}

/// The row of a function: what runs before the host is asked, whether it is asked, and what runs after it.
pub fn row(s: &Source<'_>, function: &WorldFunction) -> Result<Stub, NoMemory> {
    let ty = &function.function.ty;
    let (frame, types) = frame_of(s.alloc, s.places, ty, function.needed)?;
    let before = before(s, &frame, function)?.statements()?;
    let after = after_where(s, &frame, function).statements()?;
    let (host, flat) = host_of(function, types);
    Ok(Stub {
        flat,
        before,
        host,
        after,
    })
}
