//! The reference host as a `Host` over another one.

ghost use Rattle.std.specs.Prelude.{◌≡◌, IfOk};
ghost use Rattle.policy_data.specs.Limits.{KeepsLimits};
ghost use Rattle.tree_table.specs.Trees.{AreTrees};
ghost use Rattle.reference_step.specs.State.{Reference, opening};
ghost use Rattle.reference_step.specs.Steps.{reference_step};
ghost use Rattle.reference_host.specs.Kept.{LeadToTexts};
ghost use Rattle.reference_host.specs.Hosts.{kept_by, setup_for};

use crate::versions::versions_of;
use crate::{State, answer_call, drop_handle};
use host_port::{Answer, Host, HostCall, Observations, Resource};
use policy_data::Policy;
use std::alloc::Global;
use std::marker::Model;
use tree_table::Trees;
use virt_base::NoMemory;
use wasi_match::Listed;

/// A host that answers under a policy, over a host that is asked.
///
/// Once it is out of memory it is lost: it answers no call more.
#[derive(Debug, Drop)]
pub struct Referenced<H> {
    state: State,
    inner: H,
    is_lost: bool,
}

impl<H> Model for Referenced<H> {
    ghost use Rattle.std.specs.Prelude.{◌≡◌, false};
    ghost use Rattle.reference_host.specs.States.{IsState};
    ghost use Rattle.reference_host.specs.Hosts.{Hosting};

    ghost Value = { Hosting H };

    ghost view = { λ r. record { state = r.state; inner = r.inner; lost = r.is_lost } };

    ghost invariant = { λ r. r.is_lost ≡ false → IsState r.state };
}

impl<H> Referenced<H> {
    /// The host that is asked, and what was seen of it.
    pub fn finish(self) -> H
        ensures { result ≡ self.inner }
    {
        let Referenced { inner, .. } = self;
        inner
    }
}

impl<H: Host + Drop> Referenced<H> {
    /// No handle is live. Each interface is listed under the version by which the component imports it.
    pub fn new(
        alloc: Global,
        policy: Policy,
        trees: Trees,
        listed: &Listed,
        host: H,
    ) -> Result<Referenced<H>, NoMemory>
        requires limits { KeepsLimits policy }
        requires trees { AreTrees trees }
        requires texts { LeadToTexts trees }
        ensures kept { IfOk result (λ r. kept_by H.kept r ≡ record { state = opening (setup_for policy trees listed.now.uses) (H.kept host).state; seen = (H.kept host).seen }) }
    {
        let versions = versions_of(alloc, listed)?;
        let state = State::new(alloc, policy, trees, versions)?;
        Ok(Referenced {
            state,
            inner: host,
            is_lost: false,
        })
    }
}

impl<H: Host> Host for Referenced<H> {
    ghost State = { Reference H.State };

    ghost step = { reference_step H.step };

    ghost kept = { λ r. kept_by H.kept r };

    fn call(&mut self, alloc: Global, call: HostCall) -> Result<Answer, NoMemory> {
        if self.is_lost {
            return Err(NoMemory);
        }
        self.is_lost = true;
        let answer = answer_call(alloc, &mut self.state, &mut self.inner, &call)?;
        self.is_lost = false;
        Ok(answer)
    }

    fn drop_handle(&mut self, alloc: Global, resource: &Resource, id: u32) -> Result<(), NoMemory> {
        if self.is_lost {
            return Err(NoMemory);
        }
        self.is_lost = true;
        drop_handle(alloc, &mut self.state, &mut self.inner, resource, id)?;
        self.is_lost = false;
        Ok(())
    }

    fn observations(&self) -> &Observations {
        self.inner.observations()
    }
}
