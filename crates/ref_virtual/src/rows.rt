//! The row of any function that is answered without the host, by the number of its interface and its WIT name.

ghost use Rattle.std.specs.Prelude.{◌≡◌, ◌≤◌, IfOk, length, true};
ghost use Rattle.wit_types.specs.PlainValue.{plain_values};
ghost use Rattle.tree_table.specs.Tables.{count_of, tree_count};
ghost use Rattle.reference_step.specs.Handles.{content_of, is_held};
ghost use Rattle.reference_step.specs.Rows.{row_of};
ghost use Rattle.reference_step.specs.State.{View};
ghost use Rattle.ref_answers.specs.Seen.{live_in};
ghost use Rattle.ref_virtual.specs.Inside.{row_inside};
ghost use Rattle.ref_virtual.specs.Views.{AreTexts, HoldsTrees};
ghost use Rattle.ref_virtual.specs.Held.{AreInside, AreWords};
ghost use Rattle.ref_scratch.specs.Told.{told, settled};
ghost use Rattle.ref_virtual.specs.Acting.{Stays};
ghost use Rattle.ref_virtual.specs.Known.{AreBytes, AreOpen};

use crate::filesystem::filesystem_row;
use crate::streams::stream_row;
use crate::{Interface, handleless_row, interface_at, poll_row};
use policy_data::Policy;
use ref_answers::Row;
use ref_rules::LiveHandles;
use ref_scratch::Folder;
use std::alloc::Global;
use tree_table::Table;
use virt_base::NoMemory;
use wit_types::Values;

/// What a function does that is answered without the host, by the number of its interface and its WIT name.
///
/// There are that many trees, and that many files may be in the scratch folder, which is changed in place.
pub fn row_of(
    alloc: Global,
    policy: &Policy,
    table: &Table,
    trees: u32,
    folder: &mut Folder,
    files: u32,
    live: &LiveHandles,
    interface: u32,
    function: &str,
    args: &Values,
) -> Result<Row, NoMemory>
    requires trees { tree_count table.now ≡ trees }
    requires few { count_of table.now ≤ 65536 }
    requires texts { AreTexts table.now }
    requires nodes { AreInside (count_of table.now) live.now.handles }
    requires open { AreOpen folder.old live.now.handles }
    requires files { length folder.old.files ≡ files }
    requires held { length folder.old.files ≡ live.now.files }
    requires words { AreWords (plain_values args.now) }
    requires bytes { AreBytes (plain_values args.now) }
    ensures row { IfOk result (λ row. (v : View) → HoldsTrees table.now v → told table.now row folder.new ≡ settled folder.old (row_of interface function.now (record v { policy = policy.now; scratch = folder.old; content = content_of (live_in table.now live.now.handles); held = is_held (live_in table.now live.now.handles) }) (plain_values args.now))) }
    // Where it traps, the folder is as it was.
    ensures still { IfOk result (λ row. (v : View) → HoldsTrees table.now v → Stays row folder.new folder.old) }
    ensures inside { IfOk result (λ row. (v : View) → HoldsTrees table.now v → row_inside (count_of table.now) row ≡ true) }
{
    match interface_at(interface) {
        Interface::Rowless => Ok(Row::Traps),
        Interface::Handleless(interface) => handleless_row(alloc, policy, interface, function),
        Interface::Poll => poll_row(alloc, live, function, args),
        Interface::Streams => stream_row(alloc, table, folder, live, function, args),
        Interface::FilesystemTypes => {
            filesystem_row(alloc, table, trees, folder, files, live, function, args)
        }
    }
}
