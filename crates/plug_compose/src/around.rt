//! The sections around both components.

use crate::asks::{Ask, Scene, host_functions, host_imports, push_first, push_second};
use adapter_world::describe_all;
use comp_signature::ComponentType;
use comp_types::InstanceEntry;
use compose_trees::{Catalogue, Given, Imports, Sections, behind, between, import_world};
use plug_match::Source;
use std::alloc::Global;
use virt_base::{NoMemory, Text};
use virt_output::Piece;
use wasi_match::ListedUse;

/// The sections before the first component, those between both, and those after the second.
#[derive(Drop)]
pub struct Around {
    pub imports: Vec<Piece<'static>>,
    pub between: Vec<Piece<'static>>,
    pub behind: Vec<Piece<'static>>,
}

/// Two components: their types, what the first asks of the host, and where each import of the second comes from.
#[derive(Clone, Copy)]
pub struct Pair<'a> {
    pub first: &'a ComponentType,
    pub uses: &'a [ListedUse],
    pub second: &'a ComponentType,
    pub sources: &'a [Source],
}

/// What both components ask of the host.
fn asks_of<'a>(alloc: Global, pair: &Pair<'a>) -> Result<Vec<Ask<'a>>, NoMemory> {
    let mut asks = Vec::new(alloc);
    push_first(pair.first.imports.as_slice(), pair.uses, &mut asks)?;
    push_second(pair.second.imports.as_slice(), pair.sources, &mut asks)?;
    Ok(asks)
}

/// The imports of the whole.
fn put_imports(
    alloc: Global,
    pair: &Pair<'_>,
    whole: &[ListedUse],
    out: &mut Sections<'_>,
) -> Result<Imports, NoMemory> {
    let catalogue = Catalogue::new(alloc)?;
    let all = describe_all(alloc)?;
    let asks = asks_of(alloc, pair)?;
    let functions = host_functions(alloc, all.as_slice(), asks.as_slice(), whole)?;
    let scene = Scene {
        catalogue: &catalogue,
        all: all.as_slice(),
        asks: asks.as_slice(),
        functions: functions.as_slice(),
    };
    let imports = host_imports(alloc, &scene, whole)?;
    import_world(alloc, &catalogue, imports.as_slice(), out)
}

/// The instance of the whole's import of an interface.
fn instance_of(whole: &[ListedUse], interface: u32) -> u32 {
    let mut instance: u32 = 0;
    for one in whole {
        if one.interface == interface {
            return instance;
        }
        instance = instance.saturating_add(1);
    }
    u32::MAX
}

/// What the first component is given.
fn given_first<'a>(
    alloc: Global,
    imports: &'a [InstanceEntry],
    uses: &[ListedUse],
    whole: &[ListedUse],
) -> Result<Vec<Given<'a>>, NoMemory> {
    let mut given = Vec::new(alloc);
    for (import, one) in imports.iter().zip(uses.iter()) {
        given.push(Given {
            name: &import.name,
            instance: instance_of(whole, one.interface),
        })?;
    }
    Ok(given)
}

/// What the second component is given: the instances from this one on where the first meets it, in order.
fn given_second<'a>(
    alloc: Global,
    imports: &'a [InstanceEntry],
    sources: &[Source],
    whole: &[ListedUse],
    aliased: u32,
) -> Result<Vec<Given<'a>>, NoMemory> {
    let mut given = Vec::new(alloc);
    let mut next = aliased;
    for (import, source) in imports.iter().zip(sources.iter()) {
        let instance = match source {
            Source::Met => next,
            Source::Host(one) => instance_of(whole, one.interface),
        };
        if is_met(source) {
            next = next.saturating_add(1);
        }
        given.push(Given {
            name: &import.name,
            instance,
        })?;
    }
    Ok(given)
}

fn is_met(source: &Source) -> bool {
    match source {
        Source::Met => true,
        Source::Host(_) => false,
    }
}

/// The names of the imports that the first component meets.
fn taken<'a>(
    alloc: Global,
    imports: &'a [InstanceEntry],
    sources: &[Source],
) -> Result<Vec<&'a Text>, NoMemory> {
    let mut names = Vec::new(alloc);
    for (import, source) in imports.iter().zip(sources.iter()) {
        if is_met(source) {
            names.push(&import.name)?;
        }
    }
    Ok(names)
}

/// All sections around two components, where the whole asks for this of the host.
pub fn sections_around(
    alloc: Global,
    pair: &Pair<'_>,
    whole: &[ListedUse],
) -> Result<Around, NoMemory> {
    let mut out = Sections::new(alloc);
    let imports = put_imports(alloc, pair, whole, &mut out)?;
    let asked = pair.first.imports.as_slice();
    let asked_behind = pair.second.imports.as_slice();
    let given = given_first(alloc, asked, pair.uses, whole)?;
    let taken = taken(alloc, asked_behind, pair.sources)?;
    let Ok(count) = u32::try_from(taken.len()) else {
        return Err(NoMemory);
    };
    let aliased = imports.instances.saturating_add(1);
    let handed = given_second(alloc, asked_behind, pair.sources, whole, aliased)?;
    Ok(Around {
        imports: out.into_pieces(),
        between: between(alloc, given.as_slice(), imports.instances, taken.as_slice())?,
        behind: behind(
            alloc,
            handed.as_slice(),
            aliased.saturating_add(count),
            imports.types,
            &pair.second.exports,
        )?,
    })
}
