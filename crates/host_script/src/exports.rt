//! The functions that a script may call, found by name through an ordered map.

ghost use Rattle.std.specs.Prelude.{◌≡◌, [], ◌∷◌, ◌++◌, OnErr, OnOk, option_map};
ghost use Rattle.host_script.specs.Exports.{export_named};

use crate::places::Places;
use crate::script::ExportType;
use std::alloc::Global;
use std::marker::Model;
use virt_base::{NoMemory, Text};

/// The functions that can be called, in order; of those with one name the first is found.
#[derive(Debug, Drop)]
pub struct ExportTypes {
    items: Vec<ExportType>,
    places: Places,
}

impl Model for ExportTypes {
    ghost use Rattle.std.specs.Prelude.{List};
    ghost use Rattle.host_script.specs.Exports.{HasPlaces};
    ghost use Rattle.host_script.specs.declared.script.ExportType.{ExportType};
    ghost use Rattle.std.specs.Coded.{codes};
    ghost use Rattle.host_script.specs.contracts.script.ExportType as contract;

    ghost Value = { List ExportType };

    ghost coded = { Prim.hlevel (codes, contract.the_row.coded) };

    ghost view = { λ s. s.items.items };

    ghost invariant = { λ s. HasPlaces s.items.items s.places };
}

impl ExportTypes {
    /// No function, which takes no memory.
    pub fn none(alloc: Global) -> ExportTypes
        ensures { result ≡ [] }
    {
        ExportTypes {
            items: Vec::new(alloc),
            places: Places::none(alloc),
        }
    }

    /// Adds a function after the others. Where memory runs out, nothing changes.
    pub fn push(&mut self, export: ExportType) -> Result<(), NoMemory>
        ensures ok { OnOk result (self.new ≡ self.old ++ export ∷ []) }
        ensures err { OnErr result (self.new ≡ self.old) }
    {
        let ExportType { name, ty } = export;
        let name = name.into_string();
        let key = name.clone()?;
        self.items.reserve(1)?;
        self.places.add(key, self.items.len())?;
        let name = Text::from_string(name);
        self.items.push_reserved(ExportType { name, ty });
        Ok(())
    }

    /// The first function with a name.
    pub fn find(&self, name: &str) -> Option<&ExportType>
        ensures { option_map (λ export. export.now) result ≡ export_named name.now self.now }
    {
        match self.places.get(name) {
            Some(place) => Some(&self.items[place]),
            None => None,
        }
    }
}
