//! The host that answers by a script, in order, and by nothing of this machine.

ghost use Rattle.std.specs.Prelude.{◌≡◌, [], IfOk, map};
ghost use Rattle.host_port.specs.Calls.{plain_answer};
ghost use Rattle.host_port.specs.Scripts.{Script, script, item_answer};
ghost use Rattle.wit_types.specs.Plain.{plain_result};
ghost use Rattle.host_script.specs.Script.{item_read, item_seen};
ghost use Rattle.host_script.specs.Hosts.{kept_by};

use crate::answers::item_in;
use crate::kept::Answers;
use crate::script::ScriptItem;
use crate::{ReadValueFault, read_value};
use host_port::{Answer, Host, HostCall, Observation, Observations, Resource, copy_resource};
use serde_json::Value as Json;
use std::alloc::Global;
use virt_base::{Items, NoMemory};
use wit_types::WitType;

/// The host that answers by a script: each call takes the next answer, and a drop takes none.
#[derive(Drop)]
pub struct ScriptHost {
    left: Answers,
    seen: Observations,
}

impl ScriptHost {
    /// The host with a script before it.
    pub fn new(script: Answers) -> ScriptHost
        ensures state { (kept_by result).state ≡ map item_seen script }
        ensures seen { (kept_by result).seen ≡ [] }
    {
        let seen = Items::empty(script.allocator());
        ScriptHost { left: script, seen }
    }
}

/// The item that a text is.
fn read_item(alloc: Global, text: &[u8]) -> Result<ScriptItem, NoMemory>
    ensures { IfOk result (λ item. item_read item ≡ item_seen text.now) }
{
    match Json::from_slice(alloc, text) {
        Ok(json) => match item_in(json) {
            Some(item) => Ok(item),
            None => Ok(ScriptItem::Traps),
        },
        Err(e) => if e.is_memory() {
            Err(NoMemory)
        } else {
            Ok(ScriptItem::Traps)
        },
    }
}

/// What an item answers to a call with a result type.
fn answer_by(alloc: Global, ty: &Option<WitType>, item: ScriptItem) -> Result<Answer, NoMemory>
    ensures { IfOk result (λ a. plain_answer a ≡ item_answer (plain_result ty.now) (item_read item)) }
{
    match item {
        ScriptItem::Traps => Ok(Answer::Trap),
        ScriptItem::NoValue => match ty {
            None => Ok(Answer::Value(None)),
            Some(_) => Ok(Answer::Bad),
        },
        ScriptItem::Value(json) => match ty {
            None => Ok(Answer::Bad),
            Some(ty) => match read_value(alloc, ty, json) {
                Ok(value) => Ok(Answer::Value(Some(value))),
                Err(ReadValueFault::NotOfType) => Ok(Answer::Bad),
                Err(ReadValueFault::NoMemory) => Err(NoMemory),
            },
        },
    }
}

impl Host for ScriptHost {
    ghost State = { Script };

    ghost step = { script };

    ghost kept = { kept_by };

    fn call(&mut self, alloc: Global, call: HostCall) -> Result<Answer, NoMemory> {
        let func = call.func.clone()?;
        self.seen.push(Observation::Called(call))?;
        let item = match self.left.first() {
            None => return Ok(Answer::Ended),
            Some(text) => read_item(alloc, text)?,
        };
        self.left.pass();
        answer_by(alloc, &func.result, item)
    }

    fn drop_handle(&mut self, alloc: Global, resource: &Resource, id: u32) -> Result<(), NoMemory> {
        let copy = copy_resource(alloc, resource)?;
        self.seen.push(Observation::Dropped(copy, id))?;
        Ok(())
    }

    fn observations(&self) -> &Observations {
        &self.seen
    }
}
