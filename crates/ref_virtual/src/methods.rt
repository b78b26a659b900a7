//! The methods of wasi:filesystem/types by their WIT names.

ghost use Rattle.std.specs.Prelude.{◌≡◌};
ghost use Rattle.wit_types.specs.PlainValue.{PlainValues};
ghost use Rattle.reference_step.specs.State.{View};
ghost use Rattle.reference_step.specs.Rows.{filesystem_rows, handle};
ghost use Rattle.ref_answers.specs.Found.{found};
ghost use Rattle.ref_virtual.specs.Methods.{method_row, row_by};

use crate::named::method_among;

/// What reads of a descriptor, or opens another.
#[derive(Debug, Clone, Copy, PartialEq, Eq)]
pub enum Look {
    ReadViaStream,
    GetFlags,
    GetType,
    Read,
    ReadDirectory,
    Stat,
    StatAt,
    OpenAt,
    ReadlinkAt,
    MetadataHash,
    MetadataHashAt,
}

/// What changes files or folders, or what is known of them.
#[derive(Debug, Clone, Copy, PartialEq, Eq)]
pub enum Change {
    WriteViaStream,
    AppendViaStream,
    SetSize,
    SetTimes,
    Write,
    CreateDirectoryAt,
    RemoveDirectoryAt,
    UnlinkFileAt,
    SymlinkAt,
    SetTimesAt,
}

/// What is asked of two descriptors.
#[derive(Debug, Clone, Copy, PartialEq, Eq)]
pub enum Pair {
    LinkAt,
    RenameAt,
    IsSameObject,
}

/// A method of `descriptor` or of `directory-entry-stream`.
#[derive(Debug, Clone, Copy, PartialEq, Eq)]
pub enum Method {
    Looks(Look),
    Changes(Change),
    Pairs(Pair),
    /// `advise`, `sync-data` and `sync`, which do nothing.
    Syncs,
    ReadDirectoryEntry,
}

const METHODS: [(&str, Method); 28] = [
    (
        "[method]descriptor.read-via-stream",
        Method::Looks(Look::ReadViaStream),
    ),
    (
        "[method]descriptor.write-via-stream",
        Method::Changes(Change::WriteViaStream),
    ),
    (
        "[method]descriptor.append-via-stream",
        Method::Changes(Change::AppendViaStream),
    ),
    ("[method]descriptor.advise", Method::Syncs),
    ("[method]descriptor.sync-data", Method::Syncs),
    ("[method]descriptor.sync", Method::Syncs),
    (
        "[method]descriptor.set-size",
        Method::Changes(Change::SetSize),
    ),
    (
        "[method]descriptor.set-times",
        Method::Changes(Change::SetTimes),
    ),
    (
        "[method]descriptor.get-flags",
        Method::Looks(Look::GetFlags),
    ),
    ("[method]descriptor.get-type", Method::Looks(Look::GetType)),
    ("[method]descriptor.read", Method::Looks(Look::Read)),
    ("[method]descriptor.write", Method::Changes(Change::Write)),
    (
        "[method]descriptor.read-directory",
        Method::Looks(Look::ReadDirectory),
    ),
    (
        "[method]descriptor.create-directory-at",
        Method::Changes(Change::CreateDirectoryAt),
    ),
    (
        "[method]descriptor.remove-directory-at",
        Method::Changes(Change::RemoveDirectoryAt),
    ),
    (
        "[method]descriptor.unlink-file-at",
        Method::Changes(Change::UnlinkFileAt),
    ),
    (
        "[method]descriptor.symlink-at",
        Method::Changes(Change::SymlinkAt),
    ),
    ("[method]descriptor.stat", Method::Looks(Look::Stat)),
    ("[method]descriptor.stat-at", Method::Looks(Look::StatAt)),
    (
        "[method]descriptor.set-times-at",
        Method::Changes(Change::SetTimesAt),
    ),
    ("[method]descriptor.link-at", Method::Pairs(Pair::LinkAt)),
    (
        "[method]descriptor.rename-at",
        Method::Pairs(Pair::RenameAt),
    ),
    ("[method]descriptor.open-at", Method::Looks(Look::OpenAt)),
    (
        "[method]descriptor.readlink-at",
        Method::Looks(Look::ReadlinkAt),
    ),
    (
        "[method]descriptor.is-same-object",
        Method::Pairs(Pair::IsSameObject),
    ),
    (
        "[method]descriptor.metadata-hash",
        Method::Looks(Look::MetadataHash),
    ),
    (
        "[method]descriptor.metadata-hash-at",
        Method::Looks(Look::MetadataHashAt),
    ),
    (
        "[method]directory-entry-stream.read-directory-entry",
        Method::ReadDirectoryEntry,
    ),
];

/// The method of a WIT name; without one the function traps.
pub fn method_named(function: &str) -> Option<Method>
    ensures { (v : View) (args : PlainValues) → found filesystem_rows function.now v args ≡ row_by method_row result v (handle v 0 args) args }
{
    method_among(&METHODS, function)
}
