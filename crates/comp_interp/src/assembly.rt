//! The instances of a component are made by its plans, one item after another, with a list of levels in place of recursion.

ghost use Rattle.std.specs.Prelude.{◌≡◌, ◌+◌, ◌<◌, [], false, None, IfOk};
ghost use Rattle.core_store.specs.State.{empty};
ghost use Rattle.comp_worlds.specs.Calls.{at_rest};
ghost use Rattle.instance_state.specs.Shown.{config_of};
ghost use Rattle.comp_interp.specs.declared.part.Part.TheVariants.{Held};
ghost use Rattle.comp_interp.specs.Sound.{CanBeMade};
ghost use Rattle.comp_interp.specs.Parts.{IsSoundPart};
ghost use Rattle.comp_interp.specs.Levels.{AreSound, level_work, work};
ghost use Rattle.comp_link.specs.Planned.{args_named};
ghost use Rattle.comp_calls.specs.Moments.{at};
ghost use Rattle.comp_interp.specs.Gathered.{IsUnmade, Enters, Begins, IsImported, IsHeldIfAny};
ghost use Rattle.comp_interp.specs.Going.{LevelGoes, MakesAll};

use crate::level::Level;
use crate::part::Part;
use comp_calls::{Group, Stop, World};
use comp_link::{Linked, PlanArg};
use host_port::Host;
use instance_making::{Givens, HostResources, MadeInstances, Making, outside};
use instance_state::{CoreRuns, Handles, Instance, Owners, Room};
use std::alloc::Global;

/// Instances, and what each of them exports.
#[derive(Drop)]
pub struct Assembly<H> {
    pub world: World<H>,
    pub made: MadeInstances,
}

/// An instance of which nothing is made yet. It takes no memory.
fn instance_at_rest(alloc: Global) -> Instance
    ensures code { result.code ≡ record { store = empty; calls = []; going = false } }
    ensures config { config_of result ≡ at_rest }
{
    Instance {
        code: CoreRuns::new(alloc),
        handles: Handles::new(alloc),
        entered: false,
        closed: false,
    }
}

impl<H: Host> Assembly<H> {
    /// Nothing is made yet.
    pub fn new(alloc: Global, host: H, budget: u64) -> Assembly<H>
        ensures made { result.made.items ≡ [] }
        ensures moment { IsUnmade (at H.kept result.world) (H.kept host) budget }
    {
        Assembly {
            world: World {
                host,
                budget,
                group: Group::new(alloc),
                instances: Vec::new(alloc),
                frames: Vec::new(alloc),
                room: Room::new(alloc),
            },
            made: Vec::new(alloc),
        }
    }

    /// Makes the instances of a component: what it exports.
    pub fn make(&mut self, alloc: Global, linked: &Linked) -> Result<Givens, Stop>
        requires { CanBeMade linked.now }
        ensures { self.old.made.items ≡ [] → self.old.world.instances.items ≡ [] → self.old.world.frames.items ≡ [] → MakesAll H.step linked.now (at H.kept self.old.world) result self.new.made.items (at H.kept self.new.world) }
    {
        let given = self.imports(alloc, linked)?;
        let mut levels = Vec::new(alloc);
        levels.push(self.begin(alloc, Part::Whole, 0, given)?)?;
        'levels: while let Some(level) = levels.pop() {
            if let Some(exports) = self.go_on(alloc, linked, &mut levels, level)? {
                return Ok(exports);
            }
        }
        Err(Stop::Trapped)
    }

    /// What the outermost component is given.
    fn imports(&mut self, alloc: Global, linked: &Linked) -> Result<Givens, Stop>
        ensures { IsImported linked.now.imports self.old.made.items (at H.kept self.old.world) result self.new.made.items (at H.kept self.new.world) }
    {
        let mut host = HostResources::none(alloc);
        let given = outside(alloc, &mut self.made, &mut host, &linked.imports)?;
        self.world.group = Group {
            canons: Vec::new(alloc),
            owners: Owners::new(alloc, host.behind),
            imported: host.by_number,
        };
        Ok(given)
    }

    /// An instance begins to be made by a plan.
    fn begin(&mut self, alloc: Global, part: Part, first: u32, given: Givens) -> Result<Level, Stop>
        ensures part { IfOk result (λ level. level.part ≡ part) }
        ensures at { IfOk result (λ level. level.at ≡ 0) }
        ensures first { IfOk result (λ level. level.first ≡ first) }
        ensures enters { Enters H.step self.old.made.items (at H.kept self.old.world) given result self.new.made.items (at H.kept self.new.world) }
    {
        let Ok(number) = u32::try_from(self.world.instances.len()) else {
            return Err(Stop::NoMemory);
        };
        self.world.instances.push(instance_at_rest(alloc))?;
        self.world.group.canons.push(Vec::new(alloc))?;
        let place = self.made.len();
        self.made.push(given)?;
        Ok(Level {
            making: Making::begin(alloc, number, place),
            part,
            first,
            at: 0,
        })
    }

    /// The innermost plan goes on by an item; what is exported, once the outermost is done.
    fn go_on(
        &mut self,
        alloc: Global,
        linked: &Linked,
        levels: &mut Vec<Level>,
        level: Level,
    ) -> Result<Option<Givens>, Stop>
        requires level { IsSoundPart linked.now level.part }
        requires levels { AreSound linked.now levels.old.items }
        ensures sound { IfOk result (λ exports. AreSound linked.now levels.new.items) }
        ensures less { IfOk result (λ exports. exports ≡ None → work linked.now levels.new.items < work linked.now levels.old.items + level_work linked.now level) }
        ensures goes { LevelGoes H.step linked.now self.old.made.items levels.old.items level (at H.kept self.old.world) result self.new.made.items levels.new.items (at H.kept self.new.world) }
    {
        let mut level = level;
        let Some(item) = level.part.items(linked).get(level.at) else {
            return self.end(linked, levels, level);
        };
        level.at += 1;
        match self.make_item(alloc, linked, &mut level, item)? {
            None => {
                levels.push(level)?;
            }
            Some(inner) => {
                levels.push(level)?;
                levels.push(inner)?;
            }
        }
        Ok(None)
    }

    /// A component in the component begins to be made.
    pub fn make_component(
        &mut self,
        alloc: Global,
        level: &Level,
        number: u32,
        first: u32,
        args: &[PlanArg],
    ) -> Result<Level, Stop>
        ensures part { IfOk result (λ level. level.part ≡ Held number) }
        ensures at { IfOk result (λ level. level.at ≡ 0) }
        ensures first { IfOk result (λ level. level.first ≡ first) }
        ensures begins { Begins H.step (args_named args.now) self.old.made.items (at H.kept self.old.world) level.now.making result self.new.made.items (at H.kept self.new.world) }
    {
        let given = level.making.givens_of(alloc, args)?;
        self.world.take_step()?;
        self.begin(alloc, Part::Held(number), first, given)
    }

    /// A component is made: it is held by the one that its plan stands in, or is the outermost.
    fn end(
        &mut self,
        linked: &Linked,
        levels: &mut Vec<Level>,
        done: Level,
    ) -> Result<Option<Givens>, Stop>
        requires levels { AreSound linked.now levels.old.items }
        ensures sound { IfOk result (λ exports. AreSound linked.now levels.new.items) }
        ensures less { IfOk result (λ exports. exports ≡ None → work linked.now levels.new.items ≡ work linked.now levels.old.items) }
        ensures held { IsHeldIfAny linked.now self.old.made.items levels.old.items done result self.new.made.items levels.new.items }
        ensures world { self.new.world ≡ self.old.world }
    {
        let Some(holder) = levels.pop() else {
            return Ok(Some(done.making.exports));
        };
        let mut holder = holder;
        let own = done.part.own(linked);
        holder
            .making
            .hold(&mut self.made, done.making, own, done.first)?;
        levels.push(holder)?;
        Ok(None)
    }
}
