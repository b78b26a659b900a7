//! The forms of types that are alike in their facts: records with tuples; variants with enums, options and results. A key tells them
//! apart.

ghost use Rattle.std.specs.Prelude.{◌≡◌};
ghost use Rattle.comp_facts.specs.Keys.{record_number, variant_number};
ghost use Rattle.comp_facts.specs.Forms.{record_form, variant_form};

/// How a record type is written.
#[derive(Debug, Clone, Copy)]
pub enum RecordForm {
    Record,
    Tuple,
}

impl RecordForm {
    /// What the form adds to a key.
    pub fn number(self) -> u64
        ensures { result ≡ record_number (record_form self) }
    {
        match self {
            RecordForm::Record => 16,
            RecordForm::Tuple => 17,
        }
    }
}

/// How a variant type is written.
#[derive(Debug, Clone, Copy)]
pub enum VariantForm {
    Variant,
    Enum,
    Option,
    Result,
}

impl VariantForm {
    /// What the form adds to a key.
    pub fn number(self) -> u64
        ensures { result ≡ variant_number (variant_form self) }
    {
        match self {
            VariantForm::Variant => 18,
            VariantForm::Enum => 19,
            VariantForm::Option => 20,
            VariantForm::Result => 21,
        }
    }
}
