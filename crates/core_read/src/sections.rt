//! Sections of a core module, in their order and each at most once, with custom ones between them (core WebAssembly, Binary Format,
//! "Modules").

ghost use Rattle.std.specs.Prelude.{◌≡◌, ◌<◌, ◌==◌, length, OnOk};
ghost use Rattle.virt_base.specs.Place.{place};
ghost use Rattle.wasm_format.specs.Format.{Format, sized, vec, vec_of};
ghost use Rattle.wasm_ast.specs.Items.{body};
ghost use Rattle.wasm_format.specs.Reads.{Reads};
ghost use Rattle.wasm_ast.specs.Modules.{note, ranked, counted, low_section, high_section, sections, no_sections, is_count_of};

use crate::items::{
    BodyReader, DataReader, ElementsReader, ExportReader, GlobalReader, ImportReader,
};
use crate::select_lists::SelectLists;
use crate::types::{CoreFuncReader, LimitsReader, TableTypeReader, lacks};
use std::alloc::Global;
use std::marker::Model;
use virt_base::{Cursor, Items, NoMemory, next_byte};
use wasm_ast::{Body, CoreSection, Data, Lean, Module};
use wasm_format::{Building, CountedVecs, Reader, Sized, Stop, U32, Vecs, take_name};

/// What is read so far: the sections, and the place of the last one in their order, from 1. The instructions share these lists.
#[derive(Drop)]
pub struct Progress<'a> {
    selects: &'a SelectLists,
    rank: u8,
    found: Module,
}

impl<'a> Model for Progress<'a> {
    ghost use Rattle.wasm_ast.specs.Modules.{Progress};

    ghost Value = { Progress };

    ghost view = { λ p. record { rank = p.rank; found = p.found } };
}

/// Custom sections, of which only the name is looked at.
#[derive(Clone, Copy)]
struct Notes;

impl Reader for Notes {
    type Value = ();

    ghost format = { λ _. note };

    #[tactic(auto, unfolding(wasm_ast::specs::Modules::note))]
    fn read(&self, alloc: Global, c: &mut Cursor<'_>) -> Result<(), Stop> {
        let _name = take_name(alloc, c)?;
        c.at = c.bytes.len();
        Ok(())
    }
}

/// Data segments, as many as a data count says.
#[derive(Clone, Copy)]
struct Segments<'a> {
    selects: &'a SelectLists,
    count: Option<u32>,
}

impl<'a> Reader for Segments<'a> {
    type Value = Items<Data>;

    ghost format = { λ s. counted s.count };

    fn read(&self, alloc: Global, c: &mut Cursor<'_>) -> Result<Items<Data>, Stop> {
        match self.count {
            None => Vecs(DataReader(self.selects)).read(alloc, c),
            Some(count) => CountedVecs {
                count: count as usize,
                item: DataReader(self.selects),
            }
            .read(alloc, c),
        }
    }
}

/// Reads a section's content, if its place in the order is after that of the section before it.
fn ranked<R: Reader + Drop>(
    reader: R,
    alloc: Global,
    c: &mut Cursor<'_>,
    last: u8,
    rank: u8,
) -> Result<R::Value, Stop>
    ensures input { c.new.bytes ≡ c.old.bytes }
    ensures value { Reads result c.new ((ranked last rank (sized (R.format reader))).read (place c.old)) }
{
    if last < rank {
        Sized(reader).read(alloc, c)
    } else {
        Err(Stop::Malformed)
    }
}

/// Reads a section's list in the same way.
fn ranked_list<R: Reader + Drop>(
    item: R,
    alloc: Global,
    c: &mut Cursor<'_>,
    last: u8,
    rank: u8,
) -> Result<Lean<R::Value>, Stop>
    ensures input { c.new.bytes ≡ c.old.bytes }
    ensures value { Reads result c.new ((ranked last rank (sized (vec (R.format item)))).read (place c.old)) }
{
    let items = ranked(Vecs(item), alloc, c, last, rank)?;
    Ok(Lean::new(alloc, items)?)
}

impl<'a> Progress<'a> {
    pub fn start(selects: &'a SelectLists) -> Progress<'a>
        ensures { result ≡ no_sections }
    {
        Progress {
            selects,
            rank: 0,
            found: Module {
                types: Lean::empty(),
                imports: Lean::empty(),
                functions: Lean::empty(),
                tables: Lean::empty(),
                memories: Lean::empty(),
                globals: Lean::empty(),
                exports: Lean::empty(),
                start: None,
                elements: Lean::empty(),
                data_count: None,
                code: Lean::empty(),
                segments: Lean::empty(),
            },
        }
    }

    /// The module of the sections.
    pub fn module(self) -> Module
        ensures { result ≡ self.entry.found }
    {
        self.found
    }

    /// A section of id 0 to 6, whose id was taken.
    #[tactic(auto, unfolding(wasm_ast::specs::Modules::low_section))]
    fn low_section(&self, alloc: Global, c: &mut Cursor<'_>, id: u8) -> Result<CoreSection, Stop>
        requires { 0 < c.old.at }
        ensures input { c.new.bytes ≡ c.old.bytes }
        ensures value { Reads result c.new ((low_section self.now id).read (place c.old)) }
    {
        let last = self.rank;
        match id {
            0 => {
                Sized(Notes).read(alloc, c)?;
                Ok(CoreSection::Custom)
            }
            1 => Ok(CoreSection::Types(ranked_list(CoreFuncReader, alloc, c, last, 1)?)),
            2 => Ok(CoreSection::Imports(ranked_list(ImportReader, alloc, c, last, 2)?)),
            3 => Ok(CoreSection::Functions(ranked_list(U32, alloc, c, last, 3)?)),
            4 => Ok(CoreSection::Tables(ranked_list(TableTypeReader, alloc, c, last, 4)?)),
            5 => Ok(CoreSection::Memories(ranked_list(LimitsReader, alloc, c, last, 5)?)),
            6 => Ok(CoreSection::Globals(ranked_list(
                GlobalReader(self.selects),
                alloc,
                c,
                last,
                6,
            )?)),
            _ => Err(lacks(c, id)),
        }
    }

    /// As many bodies as there are functions.
    fn code(&self, alloc: Global, c: &mut Cursor<'_>) -> Result<Items<Body>, Stop>
        ensures input { c.new.bytes ≡ c.old.bytes }
        ensures value { Reads result c.new ((ranked self.now.rank 11 (sized (vec_of (length self.now.found.functions) (sized body)))).read (place c.old)) }
    {
        let count = self.found.functions.len();
        let item = Sized(BodyReader(self.selects));
        ranked(CountedVecs { count, item }, alloc, c, self.rank, 11)
    }

    /// A section of id 7 or more, whose id was taken.
    #[tactic(auto, unfolding(wasm_ast::specs::Modules::high_section))]
    fn high_section(&self, alloc: Global, c: &mut Cursor<'_>, id: u8) -> Result<CoreSection, Stop>
        requires { 0 < c.old.at }
        ensures input { c.new.bytes ≡ c.old.bytes }
        ensures value { Reads result c.new ((high_section self.now id).read (place c.old)) }
    {
        let last = self.rank;
        match id {
            7 => Ok(CoreSection::Exports(ranked_list(ExportReader, alloc, c, last, 7)?)),
            8 => Ok(CoreSection::Start(ranked(U32, alloc, c, last, 8)?)),
            9 => Ok(CoreSection::Elements(ranked_list(
                ElementsReader(self.selects),
                alloc,
                c,
                last,
                9,
            )?)),
            10 => Ok(CoreSection::Code(Lean::new(alloc, self.code(alloc, c)?)?)),
            11 => {
                let selects = self.selects;
                let count = self.found.data_count;
                let segments = ranked(Segments { selects, count }, alloc, c, last, 12)?;
                Ok(CoreSection::Segments(Lean::new(alloc, segments)?))
            }
            12 => Ok(CoreSection::DataCount(ranked(U32, alloc, c, last, 10)?)),
            _ => Err(lacks(c, id)),
        }
    }

    fn has_bodies(&self) -> bool
        ensures { result ≡ (length self.now.found.code == length self.now.found.functions) }
    {
        self.found.code.len() == self.found.functions.len()
    }

    fn has_segments(&self) -> bool
        ensures { result ≡ is_count_of self.now.found.data_count (length self.now.found.segments) }
    {
        match self.found.data_count {
            None => true,
            Some(count) => self.found.segments.len() == count as usize,
        }
    }
}

impl<'a> Building for Progress<'a> {
    type Part = CoreSection;

    ghost sections = { sections };

    #[tactic(auto, unfolding(wasm_ast::specs::Modules::sections, wasm_ast::specs::Modules::section))]
    fn read_part(&self, alloc: Global, c: &mut Cursor<'_>) -> Result<CoreSection, Stop> {
        match next_byte(c) {
            None => Err(Stop::Malformed),
            Some(id) => {
                if id < 7 {
                    self.low_section(alloc, c, id)
                } else {
                    self.high_section(alloc, c, id)
                }
            }
        }
    }

    #[tactic(auto, unfolding(wasm_ast::specs::Modules::sections))]
    fn add(&mut self, part: CoreSection) -> Result<(), NoMemory> {
        match part {
            CoreSection::Custom => {}
            CoreSection::Types(types) => {
                self.rank = 1;
                self.found.types = types;
            }
            CoreSection::Imports(imports) => {
                self.rank = 2;
                self.found.imports = imports;
            }
            CoreSection::Functions(functions) => {
                self.rank = 3;
                self.found.functions = functions;
            }
            CoreSection::Tables(tables) => {
                self.rank = 4;
                self.found.tables = tables;
            }
            CoreSection::Memories(memories) => {
                self.rank = 5;
                self.found.memories = memories;
            }
            CoreSection::Globals(globals) => {
                self.rank = 6;
                self.found.globals = globals;
            }
            CoreSection::Exports(exports) => {
                self.rank = 7;
                self.found.exports = exports;
            }
            CoreSection::Start(function) => {
                self.rank = 8;
                self.found.start = Some(function);
            }
            CoreSection::Elements(elements) => {
                self.rank = 9;
                self.found.elements = elements;
            }
            CoreSection::DataCount(count) => {
                self.rank = 10;
                self.found.data_count = Some(count);
            }
            CoreSection::Code(code) => {
                self.rank = 11;
                self.found.code = code;
            }
            CoreSection::Segments(segments) => {
                self.rank = 12;
                self.found.segments = segments;
            }
        }
        Ok(())
    }

    #[tactic(auto, unfolding(wasm_ast::specs::Modules::sections))]
    fn can_end(&self) -> bool {
        self.has_bodies() && self.has_segments()
    }
}
