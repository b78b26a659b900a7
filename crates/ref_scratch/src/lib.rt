//! What the reference host answers of the scratch folder: the methods of descriptors that stand for it or for a file in it, of
//! streams from and to its files, and of its listing. The folder is changed in place.
#![tactic(auto)]

mod entries;
mod files;
mod finding;
mod folder;
mod handles;
mod naming;
mod opening;
mod parts;
mod renaming;
mod root;
mod rows;
mod streams;

pub use entries::read_entry_row;
pub use files::{read_row, set_size_row, write_row};
pub use folder::Folder;
pub use handles::{
    append_row, file_flags_row, file_type_row, input_row, output_row, read_directory_row,
    root_flags_row, root_type_row,
};
pub use opening::open_row;
pub use renaming::rename_row;
pub use root::{
    hash_at_row, readlink_at_row, remove_directory_row, set_times_at_row, stat_at_row, unlink_row,
};
pub use rows::{hash_file_row, hash_root_row, stat_file_row, stat_root_row};
pub use streams::{read_stream_row, skip_stream_row, write_stream_row, write_zeroes_row};
