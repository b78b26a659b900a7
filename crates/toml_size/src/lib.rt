//! The keys and strings of a TOML document are together no longer than its text. Whatever bounds memory by the length of
//! a text cites it from here.
#![tactic(auto)]

ghost use Rattle.toml_size.specs.Sizes.{DocumentsAreNoLonger};

/// The keys and strings of the document that a text is have together no more bytes than the text.
pub fn documents_are_no_longer()
    ensures { DocumentsAreNoLonger }
{}
