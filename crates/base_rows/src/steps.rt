//! A test of counted steps: a counter starts, and takes two.

ghost use Rattle.std.specs.Prelude.{◌≡◌, ◌<◌};

use std::marker::Brand;
use std::sync::ledger::{Blank, Ledger};
use virt_base::Steps;

fn two_steps<L: Ledger>(blank: Blank)
    requires name { blank.name ≡ L.name }
    requires parts { blank.parts ≡ L.parts }
    requires some { 0 < L.parts }
{
    let mut steps = Steps::<L>::start(blank);
    steps.tick();
    steps.tick();
}

#[test]
fn counts_steps(rt: HostRuntime) {
    two_steps::<Brand>(Blank::new(1));
}
