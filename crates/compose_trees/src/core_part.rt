//! The core part of the adapter: the instances of its two core modules, the canonical functions that they are given, and the lifting of
//! what they export.

ghost use Rattle.std.specs.Prelude.{◌<◌};

use crate::catalogue::Catalogue;
use crate::imports::Imports;
use crate::sections::Sections;
use adapter_state::Presence;
use adapter_stubs::Stub;
use adapter_world::{World, WorldFunction};
use std::alloc::Global;
use virt_base::{CoreType, Items, NoMemory, Text};
use wasm_ast::{
    Alias, Canon, CanonOption, CoreArg, CoreExport, CoreInstance, CoreSort, Sort, TypeDef,
};

/// The index of a core function that no component has.
const NONE: u32 = u32::MAX;

/// The core functions of the adapter by their indexes, as they come.
#[derive(Drop)]
pub struct CorePart {
    alloc: Global,
    /// How many core functions there are.
    count: u32,
    /// The drop of each host kind, and what makes handles of each kind of the world.
    drops: Vec<(u32, u32)>,
    frees: Vec<(u32, u32)>,
    makes: Vec<(u32, u32)>,
    /// The lowered functions by their numbers.
    lowered: Vec<(u32, u32)>,
    realloc: u32,
    /// The post-returns of no flat result, one of 32 bits and one of 64 bits.
    posts: [u32; 3],
    /// The first of the stubs' functions.
    pub stubs: u32,
}

impl CorePart {
    pub fn new(alloc: Global) -> CorePart {
        CorePart {
            alloc,
            count: 0,
            drops: Vec::new(alloc),
            frees: Vec::new(alloc),
            makes: Vec::new(alloc),
            lowered: Vec::new(alloc),
            realloc: NONE,
            posts: [NONE, NONE, NONE],
            stubs: NONE,
        }
    }

    fn next(&mut self) -> u32 {
        let index = self.count;
        self.count = index.saturating_add(1);
        index
    }

    /// The drops of the host's kinds.
    pub fn drop_kinds(
        &mut self,
        catalogue: &Catalogue,
        kinds: &[Presence],
        imports: &Imports,
        out: &mut Sections<'_>,
    ) -> Result<(), NoMemory> {
        let mut kind: u32 = 0;
        for presence in kinds {
            if *presence == Presence::Host {
                out.canon(Canon::ResourceDrop(index_of(catalogue, kind, imports)))?;
                let index = self.next();
                self.drops.push((kind, index))?;
            }
            kind = kind.saturating_add(1);
        }
        Ok(())
    }

    /// The state's instance, after what it is given.
    pub fn state_instance(&mut self, out: &mut Sections<'_>) -> Result<(), NoMemory> {
        let mut exports = Items::empty(self.alloc);
        put_named(self.alloc, &mut exports, "drop-", self.drops.as_slice())?;
        out.core_instance(CoreInstance::Inline { exports })?;
        let mut args = Items::empty(self.alloc);
        put_arg(self.alloc, &mut args, "host", 0)?;
        out.core_instance(CoreInstance::Instantiate { module: 0, args })
    }

    /// Aliases of what the state exports.
    pub fn alias_state(
        &mut self,
        kinds: &[Presence],
        stubs: &[Stub],
        out: &mut Sections<'_>,
    ) -> Result<(), NoMemory> {
        let memory = Text::from_str(self.alloc, "memory")?;
        self.alias(out, CoreSort::Memory, 1, memory)?;
        let realloc = Text::from_str(self.alloc, "realloc")?;
        self.alias(out, CoreSort::Func, 1, realloc)?;
        self.realloc = self.next();
        self.alias_frees(kinds, out)?;
        self.alias_posts(stubs, out)
    }

    fn alias(
        &self,
        out: &mut Sections<'_>,
        sort: CoreSort,
        instance: u32,
        name: Text,
    ) -> Result<(), NoMemory> {
        out.alias(Alias::CoreExport {
            sort,
            instance,
            name,
        })
    }

    fn alias_frees(&mut self, kinds: &[Presence], out: &mut Sections<'_>) -> Result<(), NoMemory> {
        let mut kind: u32 = 0;
        for presence in kinds {
            if *presence != Presence::Absent {
                let name = numbered(self.alloc, "free-", kind)?;
                self.alias(out, CoreSort::Func, 1, name)?;
                let index = self.next();
                self.frees.push((kind, index))?;
            }
            kind = kind.saturating_add(1);
        }
        Ok(())
    }

    fn alias_posts(&mut self, stubs: &[Stub], out: &mut Sections<'_>) -> Result<(), NoMemory> {
        let mut there = [false, false, false];
        for stub in stubs {
            there[post_of(stub)] = true;
        }
        for (place, name) in ["post", "post-i32", "post-i64"].iter().enumerate() {
            if there[place] {
                let name = Text::from_str(self.alloc, name)?;
                self.alias(out, CoreSort::Func, 1, name)?;
                self.posts[place] = self.next();
            }
        }
        Ok(())
    }

    /// The adapter's resource of each kind of the world: for each kind the index of its type.
    pub fn define_kinds(
        &mut self,
        first: u32,
        out: &mut Sections<'_>,
    ) -> Result<Vec<(u32, u32)>, NoMemory> {
        let mut resources = Vec::new(self.alloc);
        let mut ty = first;
        for (kind, free) in self.frees.as_slice() {
            out.define(TypeDef::Resource {
                destructor: Some(*free),
            })?;
            resources.push((*kind, ty))?;
            ty = ty.saturating_add(1);
        }
        Ok(resources)
    }

    /// What makes handles of these kinds.
    pub fn make_kinds(
        &mut self,
        resources: &[(u32, u32)],
        out: &mut Sections<'_>,
    ) -> Result<(), NoMemory> {
        for (kind, ty) in resources {
            out.canon(Canon::ResourceNew(*ty))?;
            let index = self.next();
            self.makes.push((*kind, index))?;
        }
        Ok(())
    }

    /// The functions of the host that are needed, lowered; the first of them is function 0.
    pub fn lower(
        &mut self,
        functions: &[WorldFunction],
        out: &mut Sections<'_>,
    ) -> Result<(), NoMemory> {
        let mut func: u32 = 0;
        for function in functions {
            if function.needed {
                let options = self.options(None)?;
                out.canon(Canon::Lower { func, options })?;
                let index = self.next();
                self.lowered.push((function.number, index))?;
                func = func.saturating_add(1);
            }
        }
        Ok(())
    }

    fn options(&self, post: Option<u32>) -> Result<Items<CanonOption>, NoMemory> {
        let mut options = Items::empty(self.alloc);
        options.push(CanonOption::Utf8)?;
        options.push(CanonOption::Memory(0))?;
        options.push(CanonOption::Realloc(self.realloc))?;
        if let Some(post) = post {
            options.push(CanonOption::PostReturn(post))?;
        }
        Ok(options)
    }

    /// The stubs' instance, after what it is given.
    pub fn stubs_instance(&mut self, out: &mut Sections<'_>) -> Result<(), NoMemory> {
        let mut exports = Items::empty(self.alloc);
        put_named(self.alloc, &mut exports, "new-", self.makes.as_slice())?;
        put_named(self.alloc, &mut exports, "drop-", self.drops.as_slice())?;
        put_named(self.alloc, &mut exports, "", self.lowered.as_slice())?;
        out.core_instance(CoreInstance::Inline { exports })?;
        let mut args = Items::empty(self.alloc);
        put_arg(self.alloc, &mut args, "state", 1)?;
        put_arg(self.alloc, &mut args, "host", 2)?;
        out.core_instance(CoreInstance::Instantiate { module: 1, args })
    }

    /// Aliases of the stubs.
    pub fn alias_stubs(&mut self, count: usize, out: &mut Sections<'_>) -> Result<(), NoMemory> {
        self.stubs = self.count;
        for place in 0..count {
            let name = Text::from_string(format!(in self.alloc; "{place}")?);
            self.alias(out, CoreSort::Func, 3, name)?;
            self.next();
        }
        Ok(())
    }

    /// The stubs, lifted to functions of these types.
    pub fn lift(
        &self,
        types: &[u32],
        stubs: &[Stub],
        out: &mut Sections<'_>,
    ) -> Result<(), NoMemory> {
        let mut func = self.stubs;
        for (ty, stub) in types.iter().zip(stubs.iter()) {
            let options = self.options(Some(self.posts[post_of(stub)]))?;
            out.canon(Canon::Lift {
                func,
                options,
                ty: *ty,
            })?;
            func = func.saturating_add(1);
        }
        Ok(())
    }
}

/// Which post-return a stub has.
fn post_of(stub: &Stub) -> usize
    ensures { result < 3 }
{
    match stub.flat.results.as_slice() {
        [] => 0,
        [CoreType::I64, ..] => 2,
        _ => 1,
    }
}

/// The index of a host kind's type.
fn index_of(catalogue: &Catalogue, kind: u32, imports: &Imports) -> u32 {
    match catalogue.kind(kind) {
        Some(number) => imports.standing.index(number),
        None => NONE,
    }
}

fn numbered(alloc: Global, before: &str, number: u32) -> Result<Text, NoMemory> {
    Ok(Text::from_string(format!(in alloc; "{before}{number}")?))
}

/// Adds core functions under their numbers.
fn put_named(
    alloc: Global,
    exports: &mut Items<CoreExport>,
    before: &str,
    functions: &[(u32, u32)],
) -> Result<(), NoMemory> {
    for (number, index) in functions {
        exports.push(CoreExport {
            name: numbered(alloc, before, *number)?,
            sort: CoreSort::Func,
            index: *index,
        })?;
    }
    Ok(())
}

fn put_arg(
    alloc: Global,
    args: &mut Items<CoreArg>,
    name: &str,
    instance: u32,
) -> Result<(), NoMemory> {
    let name = Text::from_str(alloc, name)?;
    args.push(CoreArg { name, instance })
}

/// Aliases of the needed functions, each of its imported instance, in the order of their numbers.
pub fn alias_needed(alloc: Global, world: &World, out: &mut Sections<'_>) -> Result<(), NoMemory> {
    let mut instance: u32 = 0;
    for interface in world.needs.interfaces.as_slice() {
        for place in interface.functions.as_slice() {
            alias_function(alloc, world, instance, *place, out)?;
        }
        instance = instance.saturating_add(1);
    }
    Ok(())
}

fn alias_function(
    alloc: Global,
    world: &World,
    instance: u32,
    place: u32,
    out: &mut Sections<'_>,
) -> Result<(), NoMemory> {
    match world.functions.as_slice().get(place as usize) {
        Some(function) => out.alias(Alias::Export {
            sort: Sort::Func,
            instance,
            name: function.function.name.copy(alloc)?,
        }),
        None => Ok(()),
    }
}
