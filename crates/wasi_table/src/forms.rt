//! The words of the notation that are no names: the primitive types, the forms of types, and the arrow of a signature.

ghost use Rattle.std.specs.Prelude.{◌≡◌};
ghost use Rattle.wasi_table.specs.Forms.{form_named};

/// A word that types are made with.
#[derive(Clone, Copy)]
pub enum Form {
    /// The payload that is not there, written `_`.
    Absent,
    Bool,
    U8,
    U16,
    U32,
    U64,
    Str,
    List,
    Option,
    Result,
    /// A tuple of that many types.
    Tuple(usize),
    Own,
    Borrow,
    /// The arrow between parameters and answer: what stands after it is no parameter.
    Arrow,
}

#[tactic(auto, unfolding(crate::specs::Forms::form_named))]
/// The form that a word is; none where the word is a name.
pub fn form_of(word: &str) -> Option<Form>
    ensures { result ≡ form_named word.now }
{
    match word {
        "_" => Some(Form::Absent),
        "bool" => Some(Form::Bool),
        "u8" => Some(Form::U8),
        "u16" => Some(Form::U16),
        "u32" => Some(Form::U32),
        "u64" => Some(Form::U64),
        "string" => Some(Form::Str),
        "list" => Some(Form::List),
        "option" => Some(Form::Option),
        "result" => Some(Form::Result),
        "tuple2" => Some(Form::Tuple(2)),
        "tuple3" => Some(Form::Tuple(3)),
        "tuple4" => Some(Form::Tuple(4)),
        "tuple8" => Some(Form::Tuple(8)),
        "own" => Some(Form::Own),
        "borrow" => Some(Form::Borrow),
        "->" => Some(Form::Arrow),
        _ => None,
    }
}
