//! The items that have a name, as a trait, so that lists of any of them are asked in the same way.

ghost use Rattle.std.specs.Prelude.{◌≡◌, List, ℕ};

use virt_base::Text;
use wasm_ast::{CaseType, CoreArg, CoreExport, LabelType, NamedItem};

/// What has a name.
pub trait Named {
    ghost name: { Self → List ℕ };

    fn name(&self) -> &Text
        ensures { result.now ≡ name self.now };
}

impl Named for Text {
    ghost name = { λ t. t };

    fn name(&self) -> &Text {
        self
    }
}

impl Named for LabelType {
    ghost name = { λ l. l.label };

    fn name(&self) -> &Text {
        &self.label
    }
}

impl Named for CaseType {
    ghost name = { λ c. c.label };

    fn name(&self) -> &Text {
        &self.label
    }
}

impl Named for NamedItem {
    ghost name = { λ i. i.name };

    fn name(&self) -> &Text {
        &self.name
    }
}

impl Named for CoreArg {
    ghost name = { λ a. a.name };

    fn name(&self) -> &Text {
        &self.name
    }
}

impl Named for CoreExport {
    ghost name = { λ e. e.name };

    fn name(&self) -> &Text {
        &self.name
    }
}
