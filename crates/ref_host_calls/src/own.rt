//! The folders that `get-directories` gives beside the host's: the roots of the trees, and the scratch folder.

#![tactic(auto, using(crate::proofs::OfferLemmas::offer_rules))]

ghost use Rattle.std.specs.Prelude.{◌≡◌, ℕ, ◌<◌, ◌++◌, OnOk, length};
ghost use Rattle.tree_table.specs.Tables.{Forest, Holds};
ghost use Rattle.tree_table.specs.Trees.{AreTrees};
ghost use Rattle.reference_step.specs.Steps as reference;
ghost use Rattle.ref_host_calls.specs.Offers.{AreInside, shown_all};

use crate::offers::{Folder, Folders, Offer};
use host_port::Host;
use policy_data::Scratch;
use tree_table::NamedTree;
use virt_base::NoMemory;

fn note_roots<'a, H: Host>(
    trees: &'a [NamedTree],
    offers: &mut Vec<Offer<'a>>,
) -> Result<(), NoMemory>
    requires { AreTrees trees.now }
    ensures noted { OnOk result ((f : Forest) → Holds trees.now f → shown_all H.step f offers.new.items ≡ shown_all H.step f offers.old.items ++ reference.roots_from H.step 0 trees.now) }
    ensures inside { OnOk result (AreInside (length trees.now) offers.old.items → AreInside (length trees.now) offers.new.items) }
{
    for place in 0..trees.len() {
        let name = trees[place].name.as_str();
        offers.push(Offer::Given(Folder::Root(place as u32), name))?;
    }
    Ok(())
}

fn note_scratch<'a, H: Host>(
    scratch: &'a Option<Scratch>,
    offers: &mut Vec<Offer<'a>>,
) -> Result<(), NoMemory>
    ensures noted { OnOk result ((f : Forest) → shown_all H.step f offers.new.items ≡ shown_all H.step f offers.old.items ++ reference.scratch_offer H.step scratch.now) }
    ensures inside { OnOk result ((trees : ℕ) → AreInside trees offers.old.items → AreInside trees offers.new.items) }
{
    match scratch {
        None => Ok(()),
        Some(scratch) => {
            offers.push(Offer::Given(Folder::Scratch, scratch.name.as_str()))?;
            Ok(())
        }
    }
}

/// The folders after the host's.
pub fn note_own<'a, H: Host>(
    folders: Folders<'a>,
    offers: &mut Vec<Offer<'a>>,
) -> Result<(), NoMemory>
    requires { AreTrees folders.trees.now }
    ensures noted { OnOk result ((f : Forest) → Holds folders.entry.trees.now f → shown_all H.step f offers.new.items ≡ shown_all H.step f offers.old.items ++ (reference.roots_from H.step 0 folders.entry.trees.now ++ reference.scratch_offer H.step folders.entry.policy.now.fs_scratch)) }
    ensures inside { OnOk result (AreInside (length folders.entry.trees.now) offers.old.items → AreInside (length folders.entry.trees.now) offers.new.items) }
{
    note_roots::<H>(folders.trees.as_slice(), offers)?;
    note_scratch::<H>(&folders.policy.fs_scratch, offers)
}
