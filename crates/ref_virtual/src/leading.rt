//! Where a text leads from a node of a tree.

ghost use Rattle.std.specs.Prelude.{◌≡◌, ◌<◌, IfOk, IfErr};
ghost use Rattle.tree_table.specs.Paths.{At, Fails, resolve};
ghost use Rattle.tree_table.specs.Tables.{count_of, map_of, tree_of, path_of};

use std::marker::Brand;
use std::sync::ledger::{Blank, Ledger};
use tree_table::{Table, walk};
use virt_base::Steps;

fn lead_counted<L: Ledger>(
    table: &Table,
    node: u32,
    text: &[u8],
    follow: bool,
    blank: Blank,
) -> Result<u32, u8>
    requires name { blank.name ≡ L.name }
    requires parts { blank.parts ≡ L.parts }
    requires some { 0 < L.parts }
    requires inside { node < count_of table.now }
    ensures found { IfOk result (λ at. (at < count_of table.now) × (tree_of table.now at ≡ tree_of table.now node) × (resolve (map_of table.now (tree_of table.now node)) (path_of table.now node) text.now follow ≡ At (path_of table.now at))) }
    ensures fault { IfErr result (λ code. resolve (map_of table.now (tree_of table.now node)) (path_of table.now node) text.now follow ≡ Fails code) }
{
    let mut steps = Steps::<L>::start(blank);
    walk(table, node, text, follow, &mut steps)
}

/// The node to which a text leads, or the number of the error code.
pub fn lead(table: &Table, node: u32, text: &[u8], follow: bool) -> Result<u32, u8>
    requires { node < count_of table.now }
    ensures found { IfOk result (λ at. (at < count_of table.now) × (tree_of table.now at ≡ tree_of table.now node) × (resolve (map_of table.now (tree_of table.now node)) (path_of table.now node) text.now follow ≡ At (path_of table.now at))) }
    ensures fault { IfErr result (λ code. resolve (map_of table.now (tree_of table.now node)) (path_of table.now node) text.now follow ≡ Fails code) }
{
    lead_counted::<Brand>(table, node, text, follow, Blank::new(1))
}
