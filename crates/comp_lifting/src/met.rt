//! Which options were met so far, one flag for each kind, so that one walk finds an option that stands twice.

ghost use Rattle.std.specs.Prelude.{◌≡◌, ◌||◌, not, false};
ghost use Rattle.wasm_ast.specs.declared.component.CanonOption.{CanonOption};
ghost use Rattle.comp_types.specs.Rules.{is_same_option};

use wasm_ast::CanonOption;

/// Which options were met.
#[derive(Debug, Clone, Copy)]
pub struct Met {
    pub utf8: bool,
    pub memory: bool,
    pub realloc: bool,
    pub post_return: bool,
}

impl Met {
    ghost use Rattle.comp_lifting.specs.Met.{has_met};

    /// None.
    pub fn none() -> Met
        ensures { (q : CanonOption) → has_met result q ≡ false }
    {
        Met {
            utf8: false,
            memory: false,
            realloc: false,
            post_return: false,
        }
    }

    /// Adds an option. Whether none of its kind was there.
    pub fn add(&mut self, option: CanonOption) -> bool
        ensures new { result ≡ not (has_met self.old option) }
        ensures added { (q : CanonOption) → has_met self.new q ≡ (is_same_option option q || has_met self.old q) }
    {
        match option {
            CanonOption::Utf8 => {
                let new = !self.utf8;
                self.utf8 = true;
                new
            }
            CanonOption::Memory(_) => {
                let new = !self.memory;
                self.memory = true;
                new
            }
            CanonOption::Realloc(_) => {
                let new = !self.realloc;
                self.realloc = true;
                new
            }
            CanonOption::PostReturn(_) => {
                let new = !self.post_return;
                self.post_return = true;
                new
            }
        }
    }
}
